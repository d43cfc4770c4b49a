//! Sorting stores and messages by the numbers of their tasks, in a stable way. A line that is
//! numbered in file order is walked in that order, so usually nothing has to be moved.

ghost use Rattle.std.specs.Prelude.{◌≡◌, IsTrue, OnOk};
ghost use Rattle.canvas_envelope.specs.Content.{number_of};
ghost use Rattle.canvas_effects.specs.Ordered.{in_order};

use canvas_envelope::Message;
use canvas_task::{Outcome, TaskNo};
use std::alloc::AllocError;

fn stores_rise(stores: &[(TaskNo, Outcome)]) -> bool
    ensures { IsTrue result → in_order (λ e. e.0) stores.now ≡ stores.now }
{
    stores.is_sorted_by_key(|store| store.0.get())
}

fn messages_rise(messages: &[Message]) -> bool
    ensures { IsTrue result → in_order (λ m. number_of m.own) messages.now ≡ messages.now }
{
    messages.is_sorted_by_key(|message| message.task.get())
}

/// Sorts stores, unless they are already in order, as those of a plan's own messages are.
pub(super) fn sort_stores(stores: &mut Vec<(TaskNo, Outcome)>) -> Result<(), AllocError>
    ensures { OnOk result (stores.new.items ≡ in_order (λ e. e.0) stores.old.items) }
{
    if stores_rise(stores) {
        return Ok(());
    }
    stores.sort_by_key(|store| store.0.get())
}

/// Sorts messages, unless they are already in order.
pub(super) fn sort_messages(messages: &mut Vec<Message>) -> Result<(), AllocError>
    ensures { OnOk result
        (messages.new.items ≡ in_order (λ m. number_of m.own) messages.old.items) }
{
    if messages_rise(messages) {
        return Ok(());
    }
    messages.sort_by_key(|message| message.task.get())
}
