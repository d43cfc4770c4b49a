//! The rule for names of tasks.
ghost use Rattle.std.specs.Prelude.{◌≡◌};
ghost use Rattle.canvas_task.specs.Name.{name_ok, printable};
ghost use Rattle.std.specs.List.{list_all};

const LONGEST_NAME: usize = 128;

fn all_printable(bytes: &[u8]) -> bool
    ensures { result ≡ list_all printable bytes.now }
{
    bytes.iter().all(|byte| b'!' <= *byte && *byte <= b'~')
}

/// Returns whether a task may have this name: 1 to 128 bytes of printable ASCII without spaces.
pub fn name_ok(name: &str) -> bool
    ensures { result ≡ name_ok name.now }
{
    !name.is_empty() && name.len() <= LONGEST_NAME && all_printable(name.as_bytes())
}
