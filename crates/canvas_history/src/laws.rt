//! Laws of every legal history of a backend.
ghost use Rattle.canvas_history.specs.TableLaws.{AllFirst, NoMore, ReadsFirst, FirstMay, StillMay};

/// States that each member of the chord was stored first before a completing part.
pub fn all_first()
    ensures { AllFirst }
{}

/// States that no part of that chord is returned after a completing part, so at most one completes
/// it.
pub fn no_more()
    ensures { NoMore }
{}

/// States that each read of a member after a completing part answers the outcome stored first.
pub fn reads_first()
    ensures { ReadsFirst }
{}

/// States that the caller may return the task's part after a store that answered First.
pub fn first_may()
    ensures { FirstMay }
{}

/// States that it still may after another call of its own.
pub fn still_may()
    ensures { StillMay }
{}
