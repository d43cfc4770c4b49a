//! Exceptions of classes other than the four that the program's own tasks raise.
//!
//! In a run such an exception is one of the four, and a report shows its own class. So no statement
//! of the engine is about it.
ghost use Rattle.std.specs.Prelude.{◌≡◌, ◌++◌, IfOk, OnOk, map, option_map, option_to_list};
ghost use Rattle.std.specs.List.{filter_map};
ghost use Rattle.canvas_adapt.specs.Raising.{other_error};
ghost use Rattle.canvas_answer.specs.Raised.{class_named};
ghost use Rattle.canvas_answer.specs.Stubbing.{error_said};

use canvas_adapt::other_error;
use std::alloc::{AllocError, Global};

/// An exception of another class that the stub of a name raises.
#[derive(Drop)]
pub struct OtherError {
    pub name: String,
    pub class: String,
}

/// Appends the exception that a stub's text raises, if it is of another class.
pub(crate) fn push_error(
    alloc: Global,
    errors: &mut Vec<OtherError>,
    text: &str,
) -> Result<(), AllocError>
    ensures { OnOk result (map error_said errors.new.items
        ≡ map error_said errors.old.items ++ option_to_list (other_error text.now)) }
{
    let Some((name, class)) = other_error(text) else {
        return Ok(());
    };
    let name = String::from_str(alloc, name)?;
    let class = String::from_str(alloc, class)?;
    errors.push(OtherError { name, class })?;
    Ok(())
}

/// Returns the exceptions of other classes that some stubs' texts raise.
pub(crate) fn errors_of(alloc: Global, texts: &[&str]) -> Result<Vec<OtherError>, AllocError>
    ensures { IfOk result (λ errors. map error_said errors.items
        ≡ filter_map other_error (map (λ t. t.now) texts.now)) }
{
    let mut errors = Vec::new(alloc);
    for text in texts {
        push_error(alloc, &mut errors, text)?;
    }
    Ok(errors)
}

/// Returns the class of the exception that the stub of a name raises, if it is another.
pub(crate) fn class_named<'a>(errors: &'a [OtherError], name: &str) -> Option<&'a str>
    ensures { option_map (λ c. c.now) result ≡ class_named errors.now name.now }
{
    for error in errors {
        if error.name.as_str() == name {
            return Some(error.class.as_str());
        }
    }
    None
}
