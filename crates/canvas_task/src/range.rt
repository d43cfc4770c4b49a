//! The range of the numbers that tasks take and return.
ghost use Rattle.std.specs.Prelude.{◌≡◌};
ghost use Rattle.canvas_task.specs.Apply.{checked};
ghost use Rattle.canvas_task.specs.Numbers.{in_range};

use crate::Kind;

/// The greatest number that a task takes or returns. The least is its negation.
pub(crate) const BOUND: i64 = 1 << 60;

/// Returns whether a task may take or return the number.
pub fn in_range(number: i64) -> bool
    ensures { result ≡ in_range number }
{
    -BOUND <= number && number <= BOUND
}

/// Turns an exact number into an answer. A number out of range is an overflow.
pub fn checked(n: i128) -> Result<i64, Kind>
    ensures { result ≡ checked n }
{
    if -(BOUND as i128) <= n && n <= BOUND as i128 {
        Ok(n as i64)
    } else {
        Err(Kind::Overflow)
    }
}
