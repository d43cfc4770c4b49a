//! The laws of refusals, and those of forecasts for built-in tasks. Their functions have empty
//! bodies; their contracts are the laws.

ghost use Rattle.std.specs.Prelude.{◌≡◌, option_and_then};
ghost use Rattle.serde_json.specs.Data.{Data};
ghost use Rattle.canvas_values.specs.Refusals.{signature_fault};
ghost use Rattle.canvas_check.specs.Placed.{EachHasPlace, WholeIsTooLarge};
ghost use Rattle.canvas_check.specs.Refused.{refusal_of, first_refused};
ghost use Rattle.canvas_check.specs.BuiltinLaws.{IsUnknownToAll, FailsWhateverComes};
ghost use Rattle.canvas_check.specs.ParameterLaws.{EachTypeErrorHasItsCause, BlamesTheSameWhateverComes};

/// States that the first signature with a fault of its own, in file order, has the refusal that
/// reading the text gives.
#[tactic(auto, using(crate::proofs::FirstFault::first_refusal))]
pub fn law_of_first_refusals()
    ensures { (d : Data) → option_and_then refusal_of (first_refused d) ≡ signature_fault d }
{}

/// States that a text of JSON that is refused, and not for its size, is refused at a signature. So
/// a finding refers to the text as a whole only if the text is too large.
#[tactic(auto, using(crate::proofs::Placed::each_placed, crate::proofs::Placed::whole_text))]
pub fn law_of_places()
    ensures each { EachHasPlace }
    ensures whole { WholeIsTooLarge }
{}

/// States that forecasts for built-in tasks are certain: a name without a built-in task is unknown
/// for all arguments, and a call that is expected to be a TypeError is one for every input of the
/// kind.
#[tactic(auto, using(crate::proofs::Inputs::unknown_to_all, crate::proofs::Inputs::fails_whatever))]
pub fn law_of_builtin_forecasts()
    ensures names { IsUnknownToAll }
    ensures calls { FailsWhateverComes }
{}

/// States that a call of a built-in task is a TypeError exactly if a parameter is at fault or there
/// are too many positional arguments, and that the parameter is the same for every input of a kind.
#[tactic(auto, using(crate::proofs::Blames::has_its_cause, crate::proofs::Blames::blames_the_same))]
pub fn law_of_parameters()
    ensures causes { EachTypeErrorHasItsCause }
    ensures inputs { BlamesTheSameWhateverComes }
{}
