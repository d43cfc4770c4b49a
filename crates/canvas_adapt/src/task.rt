//! Adapting tasks.

use crate::context::Context;
use crate::inherited::{Callback, Inherited, callbacks_of};
use crate::member::{set_inner, set_member};
use crate::shape::is_task;
use canvas_sig::SigFault;
use canvas_sig::parts::Datum;

impl<'a> Context<'a> {
    /// Adapts the arguments in a member of a task.
    fn set_arguments(&mut self, task: &mut Datum<'a>, name: &'a str) -> Result<(), SigFault> {
        match task.get(name) {
            Some(arguments) => {
                let mut arguments = *arguments;
                self.adapt_arguments(&mut arguments)?;
                set_member(self.arena, task, name, &arguments)
            }
            None => Ok(()),
        }
    }

    /// Gives a task its own callbacks of a name, followed by the inherited ones.
    fn set_callbacks(
        &mut self,
        task: &mut Datum<'a>,
        name: &'a str,
        own: &'a [Datum<'a>],
        given: &'a [Callback<'a>],
    ) -> Result<(), SigFault> {
        if own.is_empty() && given.is_empty() {
            return Ok(());
        }
        let callbacks = self.with_given(own, given)?;
        set_inner(self.arena, task, "options", name, &Datum::List(callbacks))
    }

    /// Gives a task its own links and error callbacks, followed by the inherited ones.
    fn give(
        &mut self,
        task: &mut Datum<'a>,
        links: &'a [Datum<'a>],
        errbacks: &'a [Datum<'a>],
        given: &Inherited<'a>,
    ) -> Result<(), SigFault> {
        let others = self.not_among(given.errbacks, callbacks_of(task, "link_error"))?;
        self.set_callbacks(task, "link", links, given.links)?;
        self.set_callbacks(task, "link_error", errbacks, others)
    }

    /// Adapts tasks in a context. A signature that is no task stays unchanged, and is refused.
    #[cycle(task)]
    pub(crate) fn adapted_tasks(
        &mut self,
        values: &'a [Datum<'a>],
        given: &Inherited<'a>,
        left: u32,
    ) -> Result<&'a [Datum<'a>], SigFault> {
        if left == 0 {
            return Ok(values);
        }
        let made = self.arena.try_alloc_slice_copy(values)?;
        for value in made.iter_mut() {
            self.adapt_task(value, given, left - 1)?;
        }
        Ok(made)
    }

    /// Adapts a task in its context. A signature that is no task stays unchanged.
    #[cycle(task)]
    pub(crate) fn adapt_task(
        &mut self,
        task: &mut Datum<'a>,
        given: &Inherited<'a>,
        left: u32,
    ) -> Result<(), SigFault> {
        if !is_task(task) {
            return Ok(());
        }
        self.set_arguments(task, "args")?;
        self.set_arguments(task, "kwargs")?;
        let none = Inherited::none();
        let links = self.adapted_tasks(callbacks_of(task, "link"), &none, left)?;
        let errbacks = self.adapted_tasks(callbacks_of(task, "link_error"), &none, left)?;
        self.give(task, links, errbacks, given)
    }
}
