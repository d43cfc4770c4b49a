//! Links and error callbacks.

use crate::arena_vec::ArenaVec;
use crate::changes::Change;
use crate::context::Context;
use crate::inherited::{Callback, Inherited, callbacks_of};
use canvas_sig::SigFault;
use canvas_sig::parts::Datum;

impl<'a> Context<'a> {
    /// Returns callbacks, followed by the inherited ones.
    pub(crate) fn with_given(
        &mut self,
        own: &[Datum<'a>],
        given: &'a [Callback<'a>],
    ) -> Result<&'a [Datum<'a>], SigFault> {
        self.count_given(given.len())?;
        let mut made = ArenaVec::new(self.arena);
        made.push_all(own)?;
        for callback in given {
            made.push(*callback.adapted)?;
        }
        Ok(made.done())
    }

    /// Adapts the callbacks of a chain, group or chord, which its tasks inherit.
    fn taken(
        &mut self,
        written: &'a [Datum<'a>],
        left: u32,
    ) -> Result<&'a [Callback<'a>], SigFault> {
        self.count(Change::Callback, written.len());
        let adapted = self.adapted_tasks(written, &Inherited::none(), left)?;
        let mut made = ArenaVec::new(self.arena);
        for (index, value) in adapted.iter().enumerate() {
            if let Some(written) = written.get(index) {
                made.push(Callback::new(written, value))?;
            }
        }
        Ok(made.done())
    }

    /// Returns a signature's own links, followed by the inherited ones.
    fn with_own_links(
        &mut self,
        value: &Datum<'a>,
        given: &'a [Callback<'a>],
        left: u32,
    ) -> Result<&'a [Callback<'a>], SigFault> {
        let links = self.taken(callbacks_of(value, "link"), left)?;
        self.joined(links, given)
    }

    /// Returns a signature's own error callbacks, followed by the inherited ones that it doesn't
    /// have.
    fn with_own_errbacks(
        &mut self,
        value: &Datum<'a>,
        given: &'a [Callback<'a>],
        left: u32,
    ) -> Result<&'a [Callback<'a>], SigFault> {
        let written = self.once(callbacks_of(value, "link_error"))?;
        let errbacks = self.taken(written, left)?;
        let others = self.not_among(given, written)?;
        self.joined(errbacks, others)
    }

    /// Returns the context with a signature's own callbacks before the inherited ones.
    pub(crate) fn with_own(
        &mut self,
        value: &Datum<'a>,
        given: &Inherited<'a>,
        left: u32,
    ) -> Result<Inherited<'a>, SigFault> {
        let links = self.with_own_links(value, given.links, left)?;
        let errbacks = self.with_own_errbacks(value, given.errbacks, left)?;
        Ok(Inherited {
            links,
            errbacks,
            ..*given
        })
    }
}
