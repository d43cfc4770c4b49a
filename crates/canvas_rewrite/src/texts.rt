//! Reading the texts of a signature, which has no effect: since each is a `String`, contracts then
//! know that it is UTF-8.
ghost use Rattle.canvas_task.specs.Entries.{named};
ghost use Rattle.canvas_values.specs.ComposedRefusals.{its_call};
ghost use Rattle.canvas_values.specs.SignatureView.{task_view};
ghost use Rattle.canvas_rewrite.specs.Utf8.{IsUtf8Arg, AreUtf8Args, AreUtf8Entries, IsUtf8Call};

use canvas_task::Arg;
use canvas_values::TaskSig;
use std::collections::BTreeMap;

fn read_arg(arg: &Arg)
    ensures { IsUtf8Arg arg.now }
{
    match arg {
        Arg::Num(_) => {}
        Arg::List(_) => {}
        Arg::Text(text) => {
            let _text = text.get();
        }
    }
}

fn read_args(args: &[Arg])
    ensures { AreUtf8Args args.now }
{
    for arg in args {
        read_arg(arg);
    }
}

fn read_kwargs(kwargs: &BTreeMap<String, Arg>)
    ensures { AreUtf8Entries (named kwargs.now.entries) }
{
    for (_name, arg) in kwargs.iter() {
        read_arg(arg);
    }
}

/// Reads the name of the task and its arguments.
pub(crate) fn read_call(sig: &TaskSig)
    ensures { IsUtf8Call (its_call (task_view sig.now)) }
{
    let _name = sig.name.get();
    read_args(sig.args.get());
    read_kwargs(sig.kwargs.get());
}
