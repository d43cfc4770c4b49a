//! Celery's canvases, composed, read and run by workers on threads: the public crates at one path.
//!
//! This crate has no code of its own. Each item's contract is that of its crate.
#![tactic(auto)]

pub mod message;
pub mod worker;

pub use canvas_engine::{
    Cause, Gate, OpenGate, Records, Report, RunFault, Stop, Tally, TextFault, When, read_turns,
    report_text, run, run_text, run_text_threads, run_turns, run_turns_again, run_turns_within,
};
pub use canvas_rewrite::{
    Carried, Ends, FrozenEnd, FrozenLine, FrozenTask, Line, LineEnd, Place, Plan, freeze, node_of,
    normalise,
};
pub use canvas_sig::{
    Canvas, Node, SigFault, TaskSig, read_arg, read_canvas, write_arg, write_canvas, write_node,
};
pub use canvas_task::{
    Add, AddFault, Arg, Builtin, BuiltinTasks, Div, Fault, GroupNo, Ident, Kind, ListOf, LogError,
    MapOf, Memory, Mul, NotAdded, OfList, OfOne, OfTwo, Outcome, Registry, Task, TaskNo,
    TaskOfList, TaskOfOne, TaskOfTwo, Tasks, TextOf, Why, Xsum, apply, group_of_text, group_text,
    name_ok, outcome_of, registry_of, task_of_text, task_text, word_of,
};
