//! What is printed of a run that ended early: what it stored until then.

use crate::program::ADD_THEN_MUL;
use canvas_adapt::{Does, Stub};
use canvas_answer::answer::Answer;
use canvas_answer::errors::OtherError;
use canvas_answer::refusal::Refusal;
use canvas_answer::reporting::{Format, OutputOptions};
use canvas_answer::setting::Setting;
use canvas_answer::source::Source;
use canvas_engine::Report;
use canvas_task::{BuiltinTasks, Fault, Kind, ListOf, Outcome, TextOf};
use std::alloc::{AllocError, Global};
use std::test::Fail;

const PLAIN: &str = concat!(
    "00000000-0000-8000-8000-000000000001 tasks.add SUCCESS 8\n",
    "00000000-0000-8000-8000-000000000002 tasks.mul PENDING -\n",
    "result -\n"
);

const EXPLAINED: &str = concat!(
    "#1 tasks.add SUCCESS 8\n",
    "#2 tasks.mul PENDING -\n",
    "result -\n"
);

const OUT_OF_STOCK: &str = concat!(
    "00000000-0000-8000-8000-000000000001 tasks.add FAILURE OutOfStock\n",
    "00000000-0000-8000-8000-000000000002 tasks.mul PENDING -\n",
    "result -\n"
);

/// The rows of a run of which only the first task has ended.
fn first_alone(alloc: Global, outcome: Outcome) -> Result<Report, AllocError> {
    let mut rows = Vec::new(alloc);
    rows.push(Some(outcome))?;
    rows.push(None)?;
    Ok(Report {
        rows: ListOf::of(rows),
    })
}

/// Whether an answer ends early for want of memory, and prints this before.
fn prints(alloc: Global, answer: &Answer, wanted: &str) -> bool {
    let mut written: Vec<u8> = Vec::new(alloc);
    let mut told: Vec<u8> = Vec::new(alloc);
    answer.print(alloc, &mut written, &mut told) == 2
        && written.as_slice() == wanted.as_bytes()
        && told.as_slice() == b"canvas: memory refused\n".as_slice()
}

/// What is asked of a canvas that isn't adapted, where these stubs answer.
fn setting_of<'a>(stubs: &'a [Stub], errors: &'a [OtherError]) -> Setting<'a> {
    Setting {
        adapts: false,
        stubs,
        said: &[],
        errors,
        renames: &[],
    }
}

/// Whether an early report has these rows in this form.
fn tells(alloc: Global, setting: Setting<'_>, report: &Report, form: Format, wanted: &str) -> bool {
    let source = Source {
        text: ADD_THEN_MUL.as_bytes(),
        setting,
        tasks: &BuiltinTasks,
    };
    match source.plans(alloc) {
        Ok(plans) => {
            let output = OutputOptions { form, fails: false };
            let answer = output.early(alloc, &plans, &source, Some(report), Refusal::Memory);
            prints(alloc, &answer, wanted)
        }
        Err(_) => false,
    }
}

#[test]
fn an_early_report_has_what_was_stored(rt: HostRuntime) -> Result<(), Fail> {
    let report = first_alone(rt.alloc(), Outcome::Success(8))?;
    for &(form, wanted) in &[(Format::Plain, PLAIN), (Format::Explained, EXPLAINED)] {
        let setting = setting_of(&[], &[]);
        assert!(rt;
            tells(rt.alloc(), setting, &report, form, wanted),
            "{wanted}"
        );
    }
    Ok(())
}

/// A stub of the first task, and the class of the exception that it raises.
fn out_of_stock(alloc: Global) -> Result<(Stub, OtherError), AllocError> {
    let stub = Stub {
        name: TextOf::of(String::from_str(alloc, "tasks.add")?),
        does: Does::Raises(Kind::NotRegistered),
    };
    let error = OtherError {
        name: String::from_str(alloc, "tasks.add")?,
        class: String::from_str(alloc, "OutOfStock")?,
    };
    Ok((stub, error))
}

#[test]
fn an_early_report_has_the_classes_that_stubs_raise(rt: HostRuntime) -> Result<(), Fail> {
    let failed = Outcome::Failure(Fault::Plain(Kind::NotRegistered));
    let report = first_alone(rt.alloc(), failed)?;
    let (stub, error) = out_of_stock(rt.alloc())?;
    let (stubs, errors) = ([stub], [error]);
    let setting = setting_of(&stubs, &errors);
    assert!(rt; tells(rt.alloc(), setting, &report, Format::Plain, OUT_OF_STOCK));
    Ok(())
}
