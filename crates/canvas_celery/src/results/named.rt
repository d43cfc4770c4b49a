//! The task that an identifier names in a run.

ghost use Rattle.std.specs.Prelude.{◌≡◌, ◌≢◌, ◌<◌, ◌≤◌, ◌/◌, ◌%◌, ◌^◌, ℕ, length};
ghost use Rattle.std.specs.Prelude.{Some, IfSome, MatchOption};
ghost use Rattle.uuid.specs.Text.{hex_digit, lower};
ghost use Rattle.canvas_task.specs.Text.{Text};
ghost use Rattle.canvas_semantics.specs.Line.{count_line};
ghost use Rattle.canvas_celery.specs.Run.{run_task};
ghost use Rattle.canvas_celery.specs.steps.Digits.{number_digits};

use crate::Run;
use canvas_rewrite::Plan;
use canvas_task::TaskNo;

fn digit_of(byte: u8) -> Option<u32>
    ensures below { IfSome result (λ d. d < 16) }
    ensures reads { (d : ℕ) → d < 16 → byte ≡ hex_digit lower d → result ≡ Some d }
{
    match byte {
        b'0'..=b'9' => Some(u32::from(byte - b'0')),
        b'a'..=b'f' => Some(u32::from(byte - b'a') + 10),
        _ => None,
    }
}

/// Returns the value of two digits.
fn byte_of(high: u8, low: u8) -> Option<u32>
    ensures below { IfSome result (λ n. n < 256) }
    ensures reads { (n : ℕ) → n < 256 → high ≡ hex_digit lower (n / 16 % 16)
        → low ≡ hex_digit lower (n % 16) → result ≡ Some n }
{
    Some(digit_of(high)? * 16 + digit_of(low)?)
}

/// Returns the value of eight digits.
fn number_of(digits: &[u8]) -> Option<u32>
    ensures { (k : ℕ) → k < 2 ^ 32 → digits.now ≡ number_digits k → result ≡ Some k }
{
    match digits {
        [a, b, c, d, e, f, g, h] => {
            let first = byte_of(*a, *b)?;
            let second = byte_of(*c, *d)?;
            let third = byte_of(*e, *f)?;
            let last = byte_of(*g, *h)?;
            Some(first * 0x0100_0000 + second * 0x0001_0000 + third * 0x0100 + last)
        }
        _ => None,
    }
}

/// Returns the number at an identifier's end.
fn number_in(id: &[u8]) -> Option<u32>
    ensures { (run : Text) (k : ℕ) → length run ≡ 22 → k < 2 ^ 32 → id.now ≡ run_task run k
        → result ≡ Some k }
{
    if id.len() < 28 {
        return None;
    }
    let (_, digits) = id.split_at(28);
    number_of(digits)
}

/// Returns the task of the plan that an identifier names in this run.
pub(crate) fn task_named(plan: &Plan, run: &Run, id: &[u8]) -> Option<TaskNo>
    ensures { MatchOption result
        ((k : ℕ) → 1 ≤ k → k ≤ count_line plan.now → id.now ≢ run_task run.now.digits k)
        (λ task. (id.now ≡ run_task run.now.digits task)
        × (1 ≤ task) × (task ≤ count_line plan.now)) }
{
    // The types of the plan and of the run give the range of the numbers and the length of the
    // digits.
    let tasks = plan.tasks();
    let _digits = run.digits();
    let task = TaskNo::new(number_in(id)?)?;
    if tasks < task.get() {
        return None;
    }
    let text = run.task_text(task);
    if text.as_slice() == id {
        Some(task)
    } else {
        None
    }
}
