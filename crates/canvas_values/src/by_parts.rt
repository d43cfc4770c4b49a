//! The law of the definitions of refusals and of what a JSON value spells.

ghost use Rattle.canvas_values.specs.ByParts.{FaultsByParts, TasksByParts, TreesByParts};

/// States that the first fault of a signature, and what it spells, follow from those of its parts,
/// at any depth: the numbers that bound the recursion of the definitions leave no part out.
pub fn law_of_parts()
    ensures faults { FaultsByParts }
    ensures tasks { TasksByParts }
    ensures trees { TreesByParts }
{}
