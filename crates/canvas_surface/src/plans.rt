//! Plans of canvases, worked out by hand.

use canvas_rewrite::{Ends, Plan};
use canvas_samples::plan_of;
use canvas_task::{GroupNo, TaskNo};
use std::alloc::Global;

/// A chord of two sums and their sum, followed by a product.
const CHORD_AND_TASK: &str =
    r#"{"args":[],"immutable":false,"kwargs":{"tasks":[{"args":[],"immutable":false,"kwargs":{"body":{"args":[],"immutable":false,"kwargs":{},"options":{},"subtask_type":null,"task":"tasks.xsum"},"header":[{"args":[1,1],"immutable":false,"kwargs":{},"options":{},"subtask_type":null,"task":"tasks.add"},{"args":[2,2],"immutable":false,"kwargs":{},"options":{},"subtask_type":null,"task":"tasks.add"}]},"options":{},"subtask_type":"chord","task":"celery.chord"},{"args":[2],"immutable":false,"kwargs":{},"options":{},"subtask_type":null,"task":"tasks.mul"}]},"options":{},"subtask_type":"chain","task":"celery.chain"}"#;

const GROUP_OF_TEN: &str =
    r#"{"args":[],"immutable":false,"kwargs":{"tasks":[{"args":[0,0],"immutable":false,"kwargs":{},"options":{},"subtask_type":null,"task":"tasks.add"},{"args":[1,1],"immutable":false,"kwargs":{},"options":{},"subtask_type":null,"task":"tasks.add"},{"args":[2,2],"immutable":false,"kwargs":{},"options":{},"subtask_type":null,"task":"tasks.add"},{"args":[3,3],"immutable":false,"kwargs":{},"options":{},"subtask_type":null,"task":"tasks.add"},{"args":[4,4],"immutable":false,"kwargs":{},"options":{},"subtask_type":null,"task":"tasks.add"},{"args":[5,5],"immutable":false,"kwargs":{},"options":{},"subtask_type":null,"task":"tasks.add"},{"args":[6,6],"immutable":false,"kwargs":{},"options":{},"subtask_type":null,"task":"tasks.add"},{"args":[7,7],"immutable":false,"kwargs":{},"options":{},"subtask_type":null,"task":"tasks.add"},{"args":[8,8],"immutable":false,"kwargs":{},"options":{},"subtask_type":null,"task":"tasks.add"},{"args":[9,9],"immutable":false,"kwargs":{},"options":{},"subtask_type":null,"task":"tasks.add"}]},"options":{},"subtask_type":"group","task":"celery.group"}"#;

/// A chord of three tasks, whose body has an error callback.
const CHORD: &str =
    r#"{"args":[],"immutable":false,"kwargs":{"body":{"args":[],"immutable":false,"kwargs":{},"options":{"link_error":[{"args":[],"immutable":false,"kwargs":{},"options":{},"subtask_type":null,"task":"tasks.log_error"}]},"subtask_type":null,"task":"tasks.xsum"},"header":[{"args":[4,4],"immutable":false,"kwargs":{},"options":{},"subtask_type":null,"task":"tasks.add"},{"args":[1,0],"immutable":false,"kwargs":{},"options":{},"subtask_type":null,"task":"tasks.div"},{"args":[8,8],"immutable":false,"kwargs":{},"options":{},"subtask_type":null,"task":"tasks.add"}]},"options":{},"subtask_type":"chord","task":"celery.chord"}"#;

/// Whether a task has a name, or none.
fn is_named(plan: &Plan, task: u32, name: Option<&str>) -> bool {
    match TaskNo::new(task) {
        Some(task) => plan.name(task) == name,
        None => false,
    }
}

/// Whether a group or chord has this size, which a group has not, and this many members.
fn is_sized(plan: &Plan, group: u32, size: Option<u32>, members: usize) -> bool {
    match GroupNo::new(group) {
        Some(group) => plan.size_of(group) == size && plan.members(group).len() == members,
        None => false,
    }
}

/// Whether the members of a group or chord are the first tasks in their order.
fn are_first(plan: &Plan, group: u32) -> bool {
    let Some(group) = GroupNo::new(group) else {
        return false;
    };
    for (index, member) in plan.members(group).iter().enumerate() {
        if member.get() as usize != index + 1 {
            return false;
        }
    }
    true
}

fn ends_in(plan: &Plan, number: u32) -> bool {
    matches!(plan.ends(), Ends::One(task) if task.get() == number)
}

fn ends_in_many(plan: &Plan, number: usize) -> bool {
    matches!(plan.ends(), Ends::Many(tasks) if tasks.len() == number)
}

fn is_chord_and_task(plan: &Plan) -> bool {
    plan.tasks() == 4
        && is_named(plan, 4, Some("tasks.mul"))
        && is_named(plan, 5, None)
        && ends_in(plan, 4)
}

fn is_chord(plan: &Plan) -> bool {
    plan.groups() == 1
        && is_sized(plan, 1, Some(3), 3)
        && is_sized(plan, 2, None, 0)
        && are_first(plan, 1)
}

fn is_group_of_ten(plan: &Plan) -> bool {
    is_sized(plan, 1, None, 10) && ends_in_many(plan, 10)
}

/// Canvases whose plans are known.
#[derive(Clone, Copy, Debug)]
enum Which {
    ChordAndTask,
    Chord,
    GroupOfTen,
}

/// Whether there is a plan, and it is as known.
fn is_plan(plan: &Option<Plan>, which: Which) -> bool {
    match plan {
        Some(plan) => match which {
            Which::ChordAndTask => is_chord_and_task(plan),
            Which::Chord => is_chord(plan),
            Which::GroupOfTen => is_group_of_ten(plan),
        },
        None => false,
    }
}

/// Whether a canvas's plan is as known.
fn is_known(alloc: Global, text: &str, which: Which) -> bool {
    is_plan(&plan_of(alloc, text), which)
}

#[test]
fn plans_of_canvases(rt: HostRuntime) {
    for &(text, which) in &[
        (CHORD_AND_TASK, Which::ChordAndTask),
        (CHORD, Which::Chord),
        (GROUP_OF_TEN, Which::GroupOfTen),
    ] {
        assert!(rt; is_known(rt.alloc(), text, which), "{which:?}");
    }
}
