//! The changes, by kind.

ghost use Rattle.std.specs.Prelude.{◌≡◌};
ghost use Rattle.canvas_adapt.specs.Adapting.{no_changes};

use std::fmt;

/// A kind of change.
#[derive(Clone, Copy, Debug, PartialEq, Eq)]
pub enum Change {
    /// An argument outside the profile became a short text.
    Argument,
    /// A callback of a chain, group or chord was moved to the tasks inside.
    Callback,
    /// A group in a group was replaced by its members.
    Group,
    /// A map, a starmap or chunks became a group of calls.
    Map,
    /// The options that Celery wrote into a signature when it started it were removed.
    Frozen,
    /// A callback that was a chain or group was replaced by its tasks.
    Compound,
}

/// The number of changes of each kind. It is printed as one line for each kind that occurs.
#[derive(Clone, Copy, Debug, PartialEq, Eq)]
pub struct Changes {
    pub arguments: usize,
    pub callbacks: usize,
    pub groups: usize,
    pub maps: usize,
    pub frozen: usize,
    pub compounds: usize,
}

impl Changes {
    /// Returns the value for no changes.
    pub fn none() -> Changes
        ensures { result ≡ no_changes }
    {
        Changes {
            arguments: 0,
            callbacks: 0,
            groups: 0,
            maps: 0,
            frozen: 0,
            compounds: 0,
        }
    }

    pub(crate) fn add(&mut self, change: Change, count: usize) {
        match change {
            Change::Argument => self.arguments = self.arguments.saturating_add(count),
            Change::Callback => self.callbacks = self.callbacks.saturating_add(count),
            Change::Group => self.groups = self.groups.saturating_add(count),
            Change::Map => self.maps = self.maps.saturating_add(count),
            Change::Frozen => self.frozen = self.frozen.saturating_add(count),
            Change::Compound => self.compounds = self.compounds.saturating_add(count),
        }
    }
}

/// Returns the description of a kind of change, for one change or for several.
fn words_of(change: Change, count: usize) -> &'static str {
    match change {
        Change::Argument if count == 1 => "argument, which is a text now",
        Change::Argument => "arguments, which are texts now",
        Change::Callback if count == 1 => {
            "callback of a chain, group or chord, which its tasks have now"
        }
        Change::Callback => "callbacks of chains, groups or chords, which their tasks have now",
        Change::Group if count == 1 => "group in a group, whose members stand in the outer one now",
        Change::Group => "groups in groups, whose members stand in the outer ones now",
        Change::Map if count == 1 => "map, which is a group of calls now",
        Change::Map => "maps, which are groups of calls now",
        Change::Frozen if count == 1 => "frozen signature, which has no identifiers now",
        Change::Frozen => "frozen signatures, which have no identifiers now",
        Change::Compound if count == 1 => {
            "chain or group as a callback, whose tasks are callbacks now"
        }
        Change::Compound => "chains and groups as callbacks, whose tasks are callbacks now",
    }
}

/// The printed line of a kind of change.
#[derive(Clone, Copy, Drop)]
struct Line {
    change: Change,
    count: usize,
}

impl fmt::Display for Line {
    fn fmt<W: fmt::Write>(&self, f: &mut fmt::Formatter<W>) -> fmt::Result {
        let count = self.count;
        match count {
            0 => Ok(()),
            _ => {
                let words = words_of(self.change, count);
                writeln!(f, "canvas: adapted {count} {words}")
            }
        }
    }
}

impl fmt::Display for Changes {
    fn fmt<W: fmt::Write>(&self, f: &mut fmt::Formatter<W>) -> fmt::Result {
        let Changes {
            arguments,
            callbacks,
            groups,
            maps,
            frozen,
            compounds,
        } = *self;
        for (change, count) in [
            (Change::Argument, arguments),
            (Change::Callback, callbacks),
            (Change::Group, groups),
            (Change::Map, maps),
            (Change::Frozen, frozen),
            (Change::Compound, compounds),
        ] {
            let line = Line { change, count };
            write!(f, "{line}")?;
        }
        Ok(())
    }
}
