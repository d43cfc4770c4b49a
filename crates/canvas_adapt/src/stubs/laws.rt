//! The law of stubs. Its function has an empty body; its contract is the law.

ghost use Rattle.canvas_adapt.specs.StubLaws.{StubLaws};

/// States that no stubs change nothing, that a stub changes no other name, and that a written stub
/// is read back.
pub fn law_of_stubs()
    ensures { StubLaws }
{}
