//! The law of the definitions of an envelope's refusals and contents.

ghost use Rattle.std.specs.Prelude.{◌≤◌, ℕ};
ghost use Rattle.serde_json.specs.Data.{Data, depth};
ghost use Rattle.serde_json.specs.Read.{max_depth};
ghost use Rattle.canvas_task.specs.Text.{Text};
ghost use Rattle.canvas_envelope.specs.FrozenGrammar.{levels};
ghost use Rattle.canvas_codec.specs.FrozenParts.{ReadsShallow, RefusedByParts, SaidByParts, SameEnvelope, SameWithin};

/// States that refusals and contents of a frozen signature follow from those of its parts, at any
/// depth to which JSON can be read: the number of levels that bounds the recursion of the
/// definitions leaves none out. More levels change neither the first refusal of an envelope nor its
/// contents.
pub fn law_of_frozen_parts()
    ensures reads { ReadsShallow }
    ensures refused { (d : Data) → depth d ≤ max_depth → RefusedByParts d }
    ensures said { (d : Data) → depth d ≤ max_depth → SaidByParts d }
    ensures more { (n : ℕ) → levels ≤ n → (d : Data) → depth d ≤ max_depth → SameWithin n d }
    ensures envelopes { (n : ℕ) → levels ≤ n → (p h b : Text) → SameEnvelope n p h b }
{}
