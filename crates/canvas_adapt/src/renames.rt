//! Other names for tasks, by the numbers of the tasks in reports.

ghost use Rattle.std.specs.Prelude.{◌≡◌, ◌∷◌, ◌++◌, [], IfOk, IfSome, OnOk, map};
ghost use Rattle.std.specs.Option.{option_map};
ghost use Rattle.canvas_task.specs.Text.{Text};
ghost use Rattle.canvas_adapt.specs.Renamed.{name_for};
ghost use Rattle.canvas_adapt.specs.RenameTexts.{AreRenameTexts, IsNumberText, IsRenameText};
ghost use Rattle.canvas_adapt.specs.declared.renames.Rename.{Rename};

use crate::{BadRename, RenameFault};
use canvas_task::{TaskNo, name_ok};
use std::alloc::Global;

/// Another name for a task.
#[derive(Debug, Drop)]
pub struct Rename {
    pub task: TaskNo,
    pub name: String,
}

/// Reads a number such as `#3`, without a sign.
fn number_of(text: &str) -> Option<TaskNo>
    ensures { IfSome result (λ k. (digits : Text) × (text.now ≡ 35 ∷ digits)
        × IsNumberText digits k) }
{
    let digits = text.strip_prefix("#")?;
    if digits.starts_with('+') {
        return None;
    }
    TaskNo::new(digits.parse().ok()?)
}

/// Reads another name for a task, as `#3=shop.ship`. The first `=` ends the number.
pub fn read_rename(alloc: Global, text: &str) -> Result<Rename, RenameFault>
    ensures { IfOk result (IsRenameText text.now) }
{
    let Some((number, name)) = text.split_once('=') else {
        return Err(RenameFault::NoNumber);
    };
    let Some(task) = number_of(number) else {
        return Err(RenameFault::NoNumber);
    };
    if !name_ok(name) {
        return Err(RenameFault::BadName);
    }
    let name = String::from_str(alloc, name)?;
    Ok(Rename { task, name })
}

/// Returns the other name of the task of a number. If there are several, the first counts.
pub(crate) fn name_of(renames: &[Rename], task: u32) -> Option<&str>
    ensures { option_map (λ name. name.now) result ≡ name_for renames.now task }
{
    for rename in renames {
        if rename.task.get() == task {
            return Some(rename.name.as_str());
        }
    }
    None
}

fn add_text(alloc: Global, renames: &mut Vec<Rename>, text: &str) -> Result<(), RenameFault>
    ensures { OnOk result ((r : Rename) × (renames.new.items ≡ renames.old.items ++ r ∷ [])
        × IsRenameText text.now r) }
{
    let rename = read_rename(alloc, text)?;
    if name_of(renames, rename.task.get()).is_some() {
        return Err(RenameFault::Doubled);
    }
    renames.push(rename)?;
    Ok(())
}

/// Reads other names for tasks, one from each text, as `read_rename` does. A number may occur only
/// once.
pub fn read_renames(alloc: Global, texts: &[&str]) -> Result<Vec<Rename>, BadRename>
    ensures { IfOk result
        (λ renames. AreRenameTexts (map (λ t. t.now) texts.now) renames.items) }
{
    let mut renames = Vec::new(alloc);
    for (before, text) in texts.iter().enumerate() {
        match add_text(alloc, &mut renames, text) {
            Ok(()) => {}
            Err(fault) => return Err(BadRename { before, fault }),
        }
    }
    Ok(renames)
}
