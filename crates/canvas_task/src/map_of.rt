//! A map whose model is its entries, in the order of their names.
ghost use Rattle.std.specs.Prelude.{◌≡◌};
ghost use Rattle.canvas_task.specs.Entries.{named, Ascends};

use std::collections::BTreeMap;
use std::fmt;
use std::marker::Model;

/// A map that contracts see as the list of its entries in the order of their names, since such a
/// list computes and std's finite maps don't.
#[derive(Drop)]
pub struct MapOf<T> {
    map: BTreeMap<String, T>,
}

impl<T> Model for MapOf<T> {
    ghost use Rattle.std.specs.Prelude.{List, ℕ};
    ghost use Rattle.std.specs.Coded.{coded_list, coded×, coded_ℕ};
    ghost use Rattle.canvas_task.specs.Entries.{named, Ascends};

    ghost Value = { List (List ℕ × T) };

    ghost coded = { coded_list (coded× (coded_list coded_ℕ) T.code) };

    ghost view = { λ m. named m.map.entries };

    ghost invariant = { λ m. Ascends (named m.map.entries) };
}

impl<T> MapOf<T> {
    /// Wraps a map. Like `get` and `into_plain`, it clones and allocates nothing.
    pub fn of(map: BTreeMap<String, T>) -> MapOf<T>
        ensures { result ≡ named map.entries }
    {
        // The contract of an iterator says that the entries of a map ascend; `of` needs it for the
        // invariant.
        let _entries = map.iter();
        MapOf { map }
    }

    /// Borrows the map.
    pub fn get(&self) -> &BTreeMap<String, T>
        ensures entries { named result.now.entries ≡ self.now }
        ensures ordered { Ascends self.now }
    {
        &self.map
    }

    /// Returns the map, consuming the wrapper.
    pub fn into_plain(self) -> BTreeMap<String, T>
        ensures entries { named result.entries ≡ self }
        ensures ordered { Ascends self }
    {
        self.map
    }
}

impl<T: fmt::Debug> fmt::Debug for MapOf<T> {
    fn fmt<W: fmt::Write>(&self, f: &mut fmt::Formatter<W>) -> fmt::Result {
        self.map.fmt(f)
    }
}
