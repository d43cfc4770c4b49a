//! Numbers, outcomes, and a task of one's own.

ghost use Rattle.std.specs.Prelude.{◌≡◌, ◌≤◌, ◌-ℤ◌, Ok};
ghost use Rattle.canvas_task.specs.Apply.{IsInRange};

use canvas_task::{Fault, GroupNo, Kind, OfTwo, Outcome, TaskNo, Why};

/// The number, which is at least 1, as that of a task.
pub fn task(number: u32) -> TaskNo
    requires { 1 ≤ number }
    ensures { result ≡ number }
{
    TaskNo::new(number).unwrap()
}

/// The number, which is at least 1, as that of a group or chord.
pub fn group(number: u32) -> GroupNo
    requires { 1 ≤ number }
    ensures { result ≡ number }
{
    GroupNo::new(number).unwrap()
}

/// What a division by zero comes to.
pub const ZERO_DIVISION: Outcome = Outcome::Failure(Fault::Plain(Kind::ZeroDivision));

/// What the body of a chord fails with if the second task is the first that failed.
pub fn raised_by_2() -> Outcome
    ensures { IsInRange result }
{
    Outcome::Failure(Fault::Chord {
        dep: task(2),
        why: Why::Plain(Kind::ZeroDivision),
    })
}

/// `tests.sub(x, y)`: the difference.
#[derive(Clone, Copy)]
pub struct Difference;

impl OfTwo for Difference {
    ghost answer = { λ _ x y. Ok (x -ℤ y) };

    fn answer(&self, x: i64, y: i64) -> Result<i128, Kind> {
        Ok(i128::from(x) - i128::from(y))
    }
}
