//! Limits: the depth and the size of a canvas, and the number of workers of a run; and how texts
//! for people spell a limit.

use std::fmt;

/// The greatest depth to which signatures may be nested in a canvas.
pub const MOST_NESTING: u32 = 8;

/// The greatest depth to which signatures may be nested in a message.
pub const MOST_REACH: u32 = 32;

/// The greatest number of tasks of a canvas, and so of members of a header.
pub const MOST_TASKS: u32 = 1024;

/// The greatest number of groups and chords of a canvas.
pub const MOST_GROUPS: u32 = 1024;

/// The greatest number of workers of a run.
pub const MOST_WORKERS: u32 = 16;

/// A number below a thousand million as texts for people spell it, as 1,024.
#[derive(Clone, Copy, Debug)]
pub struct WithCommas(pub u32);

impl fmt::Display for WithCommas {
    fn fmt<W: fmt::Write>(&self, f: &mut fmt::Formatter<W>) -> fmt::Result {
        let (thousands, rest) = (self.0 / 1000, self.0 % 1000);
        if thousands >= 1000 {
            let (millions, thousands) = (thousands / 1000, thousands % 1000);
            write!(f, "{millions},{thousands:03},{rest:03}")
        } else if thousands > 0 {
            write!(f, "{thousands},{rest:03}")
        } else {
            write!(f, "{rest}")
        }
    }
}
