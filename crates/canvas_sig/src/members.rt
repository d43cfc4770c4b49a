//! The members of a signature, each looked up once, for its checks and for its meaning.

ghost use Rattle.std.specs.Prelude.{◌≡◌};
ghost use Rattle.canvas_values.specs.Fields.{field, kwarg};
ghost use Rattle.canvas_sig.specs.Datum.{view, value_at};
ghost use Rattle.canvas_sig.specs.steps.Members.{AreFound};

use crate::datum::Datum;

/// A value, with the members that it has as a signature, and those of its options.
#[derive(Drop)]
pub(crate) struct Members<'v> {
    pub(crate) value: &'v Datum<'v>,
    pub(crate) task: Option<&'v Datum<'v>>,
    pub(crate) subtask_type: Option<&'v Datum<'v>>,
    pub(crate) args: Option<&'v Datum<'v>>,
    pub(crate) kwargs: Option<&'v Datum<'v>>,
    pub(crate) immutable: Option<&'v Datum<'v>>,
    pub(crate) options: Option<&'v Datum<'v>>,
    pub(crate) link: Option<&'v Datum<'v>>,
    pub(crate) link_error: Option<&'v Datum<'v>>,
    pub(crate) chord: Option<&'v Datum<'v>>,
}

/// Returns a member of a value that may be missing.
#[inline(always)]
fn within<'v>(outer: Option<&'v Datum<'v>>, name: &str) -> Option<&'v Datum<'v>>
    ensures { value_at result ≡ field name.now (value_at outer.entry) }
{
    outer?.get(name)
}

impl<'v> Members<'v> {
    pub(crate) fn of(value: &'v Datum<'v>) -> Members<'v>
        ensures same { result.value.now ≡ value.now }
        ensures found { AreFound result }
    {
        let options = value.get("options");
        Members {
            value,
            task: value.get("task"),
            subtask_type: value.get("subtask_type"),
            args: value.get("args"),
            kwargs: value.get("kwargs"),
            immutable: value.get("immutable"),
            options,
            link: within(options, "link"),
            link_error: within(options, "link_error"),
            chord: within(options, "chord"),
        }
    }

    /// Returns a member of the keyword arguments.
    pub(crate) fn kwarg(&self, name: &str) -> Option<&'v Datum<'v>>
        requires { AreFound self.now }
        ensures { value_at result ≡ kwarg name.now (view self.now.value.now) }
    {
        within(self.kwargs, name)
    }
}
