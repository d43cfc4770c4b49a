//! Identifiers of tasks, groups and chords as UUIDs of version 8 (RFC 9562).
ghost use Rattle.std.specs.Prelude.{◌≡◌, ◌<◌, ◌≤◌, ◌^◌, ◌/◌, ◌%◌, Some, None, option_map, MatchOption};
ghost use Rattle.canvas_task.specs.Identifiers.{task_text, group_text, task_named, group_named, identifier, number_named, four_bytes, task_mark, group_mark, number_at_end};
ghost use Rattle.uuid.specs.Text.{hyphenated_text, lower, hex_digit};

use crate::{GroupNo, TaskNo};
use std::fmt;
use uuid::Uuid;

const TASK_MARK: u8 = 0x80;

const GROUP_MARK: u8 = 0x90;

/// Returns the sixteen bytes of a number's identifier.
fn identifier(mark: u8, n: u32) -> [u8; 16]
    ensures { result ≡ identifier mark n }
{
    let [a, b, c, d] = n.to_be_bytes();
    [0, 0, 0, 0, 0, 0, 0x80, 0, mark, 0, 0, 0, a, b, c, d]
}

/// Returns the identifier of a task.
fn task_id(task: TaskNo) -> Uuid
    ensures { result ≡ identifier task_mark task }
{
    Uuid::from_bytes(identifier(TASK_MARK, task.get()))
}

/// Prints a task as its identifier.
impl fmt::Display for TaskNo {
    ghost use Rattle.std.specs.Prelude.{Some};
    ghost use Rattle.canvas_task.specs.Identifiers.{task_text};

    ghost output = { λ task. Some (task_text task) };

    fn fmt<W: fmt::Write>(&self, f: &mut fmt::Formatter<W>) -> fmt::Result {
        let id = task_id(*self);
        write!(f, "{id}")
    }
}

/// Returns the four bytes of a number, the most significant first.
fn four_bytes(n: u32) -> [u8; 4]
    ensures { result ≡ four_bytes n }
{
    let [a, b, c, d] = n.to_be_bytes();
    [a, b, c, d]
}

/// Returns the hexadecimal digit of the higher half of a byte.
fn high_digit(byte: u8) -> u8
    ensures { result ≡ hex_digit lower (byte / 16 % 16) }
{
    digit(byte / 16)
}

/// Returns the hexadecimal digit of the lower half of a byte.
fn low_digit(byte: u8) -> u8
    ensures { result ≡ hex_digit lower (byte % 16) }
{
    digit(byte % 16)
}

fn digit(value: u8) -> u8
    requires { value < 16 }
    ensures { result ≡ hex_digit lower value }
{
    if value < 10 {
        b'0' + value
    } else {
        b'a' - 10 + value
    }
}

/// Returns the text of a number's identifier. Only the mark and the eight digits of the number
/// vary, so it is built from constant bytes and not by `uuid`'s formatter.
fn text_of(mark: u8, n: u32) -> [u8; 36]
    ensures { result ≡ hyphenated_text lower (identifier mark n) }
{
    let [a, b, c, d] = four_bytes(n);
    let m = [high_digit(mark), low_digit(mark)];
    let h = [high_digit(a), high_digit(b), high_digit(c), high_digit(d)];
    let l = [low_digit(a), low_digit(b), low_digit(c), low_digit(d)];
    // 48, 45 and 56 are the characters 0, - and 8.
    [
        48, 48, 48, 48, 48, 48, 48, 48, 45, 48, 48, 48, 48, 45, 56, 48, 48, 48, 45, m[0], m[1], 48,
        48, 45, 48, 48, 48, 48, h[0], l[0], h[1], l[1], h[2], l[2], h[3], l[3],
    ]
}

/// Returns the number that sixteen bytes identify. No task or group has the number 0.
fn number_of(mark: u8, id: &[u8; 16]) -> Option<u32>
    ensures { result ≡ number_named mark id.now }
{
    let [z0, z1, z2, z3, z4, z5, v, z7, m, z9, z10, z11, a, b, c, d] = *id;
    if [z0, z1, z2, z3, z4, z5, v, z7, m, z9, z10, z11]
        != [0, 0, 0, 0, 0, 0, 0x80, 0, mark, 0, 0, 0]
    {
        return None;
    }
    let n = u32::from_be_bytes([a, b, c, d]);
    if n == 0 { None } else { Some(n) }
}

/// Returns the text of a task's identifier.
pub fn task_text(task: TaskNo) -> [u8; 36]
    ensures value { result ≡ task_text task }
    ensures reads_back { task_named result ≡ Some task }
    ensures no_group { group_named result ≡ None }
{
    text_of(TASK_MARK, task.get())
}

/// Returns the text of a group's or chord's identifier.
pub fn group_text(group: GroupNo) -> [u8; 36]
    ensures value { result ≡ group_text group }
    ensures reads_back { group_named result ≡ Some group }
    ensures no_task { task_named result ≡ None }
{
    text_of(GROUP_MARK, group.get())
}

/// Reads a task's identifier in any form of a UUID: with or without hyphens, in braces or after
/// `urn:uuid:`, in either case. Returns None if the text identifies no task.
pub fn task_of_text(text: &str) -> Option<TaskNo>
    ensures { result ≡ task_named text.now }
{
    match Uuid::parse_str(text) {
        Ok(id) => TaskNo::new(number_of(TASK_MARK, id.as_bytes())?),
        Err(_) => None,
    }
}

/// Reads a group's or chord's identifier in any form of a UUID, as `task_of_text` does.
pub fn group_of_text(text: &str) -> Option<GroupNo>
    ensures { result ≡ group_named text.now }
{
    match Uuid::parse_str(text) {
        Ok(id) => GroupNo::new(number_of(GROUP_MARK, id.as_bytes())?),
        Err(_) => None,
    }
}
