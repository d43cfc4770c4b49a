//! A text whose model is its bytes.
ghost use Rattle.std.specs.Prelude.{◌≡◌, string_bytes};

use std::alloc::AllocError;
use std::fmt;
use std::marker::Model;

/// A text that contracts see as its bytes.
#[derive(Drop)]
pub struct TextOf {
    text: String,
}

impl Model for TextOf {
    ghost use Rattle.std.specs.Prelude.{List, ℕ, string_bytes};
    ghost use Rattle.std.specs.Coded.{coded_list, coded_ℕ};

    ghost Value = { List ℕ };

    ghost coded = { coded_list coded_ℕ };

    ghost view = { λ t. string_bytes t.text };
}

impl TextOf {
    /// Wraps a text. Like `get` and `into_plain`, it clones and allocates nothing.
    pub fn of(text: String) -> TextOf
        ensures { result ≡ string_bytes text }
    {
        TextOf { text }
    }

    /// Borrows the text.
    pub fn get(&self) -> &String
        ensures { string_bytes result.now ≡ self.now }
    {
        &self.text
    }

    /// Returns the text, consuming the wrapper.
    pub fn into_plain(self) -> String
        ensures { string_bytes result ≡ self }
    {
        self.text
    }
}

impl Clone for TextOf {
    ghost use Rattle.std.specs.Prelude.{◌≡◌};

    ghost is_clone = { λ s t. t ≡ s };

    fn clone(&self) -> Result<TextOf, AllocError> {
        Ok(TextOf {
            text: self.text.clone()?,
        })
    }
}

impl PartialEq for TextOf {
    ghost use Rattle.std.specs.Str.{bytes_eq};
    ghost use Rattle.std.specs.Cmp.{partial_equiv_from_equiv};
    ghost use Rattle.std.proofs.lemmas.Cmp.{nat_list_eq_equiv};

    ghost eq = { bytes_eq };

    ghost laws = { partial_equiv_from_equiv nat_list_eq_equiv };

    fn eq(&self, other: &TextOf) -> bool {
        self.text.as_str() == other.text.as_str()
    }
}

impl Eq for TextOf {
    ghost use Rattle.std.proofs.lemmas.Cmp.{nat_list_eq_equiv};

    ghost laws = { nat_list_eq_equiv };
}

impl fmt::Debug for TextOf {
    fn fmt<W: fmt::Write>(&self, f: &mut fmt::Formatter<W>) -> fmt::Result {
        self.text.fmt(f)
    }
}
