//! The names of tasks, in the order of their numbers.
ghost use Rattle.std.specs.Prelude.{◌≡◌, ◌<◌, ◌++◌, ◌∷◌, [], IfOk, OnOk, true, length, slice_get};
ghost use Rattle.std.specs.Option.{option_map};
ghost use Rattle.canvas_rewrite.specs.steps.NameTexts.{EndsIn, Extends};

use canvas_task::TextOf;
use std::alloc::{AllocError, Global};
use std::marker::Model;

/// A list of names. Equal names in a row share one text, since the tasks of a group are mostly
/// calls of the same function.
#[derive(Drop)]
pub(crate) struct NameList {
    texts: Vec<TextOf>,
    // the index of each name's text
    places: Vec<usize>,
}

impl Model for NameList {
    ghost use Rattle.std.specs.Prelude.{ℕ, List, ◌<◌, All, length};
    ghost use Rattle.std.specs.Coded.{coded_list, coded_ℕ};
    ghost use Rattle.canvas_rewrite.specs.steps.NameTexts.{texts_at};

    ghost Value = { List (List ℕ) };

    ghost coded = { coded_list (coded_list coded_ℕ) };

    ghost view = { λ n. texts_at n.texts.items n.places.items };

    ghost invariant = { λ n. All (λ i. i < length n.texts.items) n.places.items };
}

/// Returns whether the last text is this name.
fn ends_in(texts: &[TextOf], name: &TextOf) -> bool
    ensures { result ≡ true → EndsIn texts.now name.now }
{
    match texts.last() {
        Some(last) => last.get().as_str() == name.get().as_str(),
        None => false,
    }
}

/// Appends a name to the texts, unless it is the last of them.
fn keep(texts: &mut Vec<TextOf>, name: &TextOf) -> Result<(), AllocError>
    ensures last { OnOk result (EndsIn texts.new.items name.now) }
    ensures before { Extends texts.old.items texts.new.items }
{
    if ends_in(texts, name) {
        return Ok(());
    }
    texts.push(name.clone()?)?;
    Ok(())
}

impl NameList {
    pub(crate) fn with_capacity(alloc: Global, count: usize) -> Result<NameList, AllocError>
        ensures { IfOk result (λ names. names ≡ []) }
    {
        Ok(NameList {
            texts: Vec::new(alloc),
            places: Vec::with_capacity(alloc, count)?,
        })
    }

    /// Appends a name.
    pub(crate) fn push(&mut self, name: &TextOf) -> Result<(), AllocError>
        ensures { OnOk result (self.new ≡ self.old ++ name.now ∷ []) }
    {
        keep(&mut self.texts, name)?;
        self.places.push(self.texts.len() - 1)?;
        Ok(())
    }

    /// Returns the name at an index.
    pub(crate) fn get(&self, index: usize) -> Option<&str>
        ensures { option_map (λ name. name.now) result ≡ slice_get self.now index }
    {
        let place = *self.places.get(index)?;
        Some(self.texts[place].get().as_str())
    }
}
