//! Numbers, arguments and outcomes of tasks, and the tasks: built-in ones, and those that a caller
//! writes.
#![tactic(auto)]

mod add_fault;
mod arg;
mod arguments;
mod builtin;
mod identifier;
mod in_order;
mod laws;
mod list_of;
mod map_of;
mod memory;
mod name;
mod number;
mod outcome;
mod own;
mod range;
mod registry;
mod task;
mod text_of;
mod word;

pub use add_fault::AddFault;
pub use arg::{Arg, copy_args, copy_kwargs};
pub use builtin::{
    Add, ArgKind, BUILTINS, Builtin, BuiltinTasks, Div, Ident, LogError, Mul, Xsum, apply,
};
pub use identifier::{group_of_text, group_text, task_of_text, task_text};
pub use in_order::{FEW, map_in_order};
pub use laws::law_of_builtin_tasks;
pub use list_of::ListOf;
pub use map_of::MapOf;
pub use memory::Memory;
pub use name::name_ok;
pub use number::{GroupNo, TaskNo};
pub use outcome::{Fault, Kind, Outcome, Why};
pub use own::{
    OfId, OfList, OfOne, OfTwo, TaskOfId, TaskOfList, TaskOfOne, TaskOfTwo, one_list, one_number,
    one_task, two_numbers,
};
pub use range::{checked, in_range};
pub use registry::{BoxedTask, NotAdded, Registry};
pub use task::{Task, Tasks};
pub use text_of::TextOf;
pub use word::{outcome_of, word_of};
