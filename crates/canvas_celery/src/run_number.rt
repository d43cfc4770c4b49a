//! Identifiers of one run among many on a shared Redis.

ghost use Rattle.std.specs.Prelude.{◌≡◌, true, false, None, IfSome};
ghost use Rattle.canvas_task.specs.Identifiers.{task_text, group_text};
ghost use Rattle.canvas_celery.specs.Run.{is_digit, all_digits, is_run_number, in_run, run_task, run_group, run_in};

use canvas_task::{GroupNo, TaskNo, group_text, task_text};

/// A run's number: 22 lower-case hexadecimal digits, 88 bits. Each identifier has them instead of
/// its free zero bits, so that runs on one Redis don't collide.
#[derive(Clone, Copy)]
pub struct Run {
    digits: [u8; 22],
    pub ghost hexadecimal: { all_digits digits ≡ true },
}

fn is_digit(byte: u8) -> bool
    ensures { result ≡ is_digit byte }
{
    matches!(byte, b'0'..=b'9' | b'a'..=b'f')
}

fn are_digits(text: &[u8]) -> bool
    ensures { result ≡ all_digits text.now }
{
    text.iter().all(|byte| is_digit(*byte))
}

impl Run {
    /// Parses the run that a text names; None if it isn't 22 digits.
    pub fn of_text(text: &str) -> Option<Run>
        ensures digits { IfSome result (λ run. run.digits ≡ text.now) }
        ensures none { result ≡ None → is_run_number text.now ≡ false }
    {
        let bytes = text.as_bytes();
        if bytes.len() != 22 || !are_digits(bytes) {
            return None;
        }
        let mut digits = [b'0'; 22];
        digits.copy_from_slice(bytes);
        Some(Run { digits })
    }

    /// Returns its digits.
    pub fn digits(&self) -> [u8; 22]
        ensures { result ≡ self.now.digits }
    {
        self.digits
    }

    /// Returns an identifier with the run's digits instead of its 22 zero digits.
    fn put_into(&self, id: [u8; 36]) -> [u8; 36]
        ensures value { result ≡ in_run self.now.digits id }
        ensures run { run_in result ≡ self.now.digits }
    {
        let [
            a,
            b,
            c,
            d,
            e,
            f,
            g,
            h,
            i,
            j,
            k,
            l,
            m,
            n,
            o,
            p,
            q,
            r,
            s,
            t,
            u,
            v,
        ] = self.digits;
        let [
            _,
            _,
            _,
            _,
            _,
            _,
            _,
            _,
            _,
            _,
            _,
            _,
            _,
            _,
            _,
            _,
            _,
            _,
            _,
            mark,
            _,
            _,
            _,
            _,
            _,
            _,
            _,
            _,
            n0,
            n1,
            n2,
            n3,
            n4,
            n5,
            n6,
            n7,
        ] = id;
        [
            a, b, c, d, e, f, g, h, b'-', i, j, k, l, b'-', b'8', m, n, o, b'-', mark, p, q, r,
            b'-', s, t, u, v, n0, n1, n2, n3, n4, n5, n6, n7,
        ]
    }

    /// Returns a task's identifier in this run.
    pub fn task_text(&self, task: TaskNo) -> [u8; 36]
        ensures value { result ≡ run_task self.now.digits task }
        ensures run { run_in result ≡ self.now.digits }
    {
        self.put_into(task_text(task))
    }

    /// Returns a group's or chord's identifier in this run.
    pub fn group_text(&self, group: GroupNo) -> [u8; 36]
        ensures value { result ≡ run_group self.now.digits group }
        ensures run { run_in result ≡ self.now.digits }
    {
        self.put_into(group_text(group))
    }
}
