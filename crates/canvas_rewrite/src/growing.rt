//! A line that grows at its front.
ghost use Rattle.std.specs.Prelude.{◌≡◌, IfOk, OnOk, map, ◌↔◌, IsTrue};
ghost use Rattle.std.specs.Option.{option_map};
ghost use Rattle.canvas_semantics.specs.Tree.{no_trees, and_tree, one};
ghost use Rattle.canvas_values.specs.SignatureView.{task_view};
ghost use Rattle.canvas_rewrite.specs.LineView.{elements, group_or_chord};
ghost use Rattle.canvas_rewrite.specs.steps.Growing.{growing};

use crate::{Line, LineEnd};
use canvas_task::ListOf;
use canvas_values::TaskSig;
use std::alloc::{AllocError, Global};

/// A line that grows at its front. Its tasks are kept from the last to the first, so that one more
/// is pushed at the end.
#[derive(Drop)]
pub(crate) struct Growing {
    tasks: Vec<TaskSig>,
    tail: Option<Box<LineEnd>>,
}

impl Growing {
    pub(crate) fn empty(alloc: Global) -> Growing
        ensures { growing result ≡ no_trees }
    {
        Growing {
            tasks: Vec::new(alloc),
            tail: None,
        }
    }

    /// Makes a line of one group or chord.
    pub(crate) fn of_end(
        alloc: Global,
        members: Vec<Line>,
        body: Option<Line>,
    ) -> Result<Growing, AllocError>
        ensures { IfOk result (λ line. growing line
            ≡ and_tree (group_or_chord (map elements members.items) (option_map elements body))
            no_trees) }
    {
        let members = ListOf::of(members);
        Ok(Growing {
            tasks: Vec::new(alloc),
            tail: Some(Box::new(alloc, LineEnd { members, body })?),
        })
    }

    pub(crate) fn is_empty(&self) -> bool
        ensures { IsTrue result ↔ (growing self.now ≡ no_trees) }
    {
        self.tail.is_none() && self.tasks.is_empty()
    }

    pub(crate) fn push_front(&mut self, sig: TaskSig) -> Result<(), AllocError>
        ensures { OnOk result
            (growing self.new ≡ and_tree (one (task_view sig)) (growing self.old)) }
    {
        self.tasks.push(sig)?;
        Ok(())
    }

    pub(crate) fn into_line(self) -> Line
        ensures { elements result ≡ growing self }
    {
        let Growing { tasks, tail } = self;
        let mut tasks = tasks;
        tasks.as_mut_slice().reverse();
        Line {
            tasks: ListOf::of(tasks),
            tail,
        }
    }
}
