//! What `canvas check` says of a text: the place where it is refused as a canvas, and what was
//! found there; or warnings about the canvas, as names that no task answers to, calls that are a
//! TypeError, with the parameter at fault, and points in which Celery behaves differently.
#![tactic(auto)]

mod arguments;
mod blaming;
mod call;
mod finding;
mod forecast;
mod foreseeing;
mod ignored;
mod keywords;
mod laws;
mod limits;
mod listing;
mod notes;
mod parameter;
mod position;
mod reading;
mod shown;
mod signature;
mod step;
mod task_listing;
mod walk;

pub use blaming::blamed;
pub use finding::{Finding, Spot, find};
pub use forecast::{Expected, Forecast};
pub use foreseeing::forecasts;
pub use laws::{law_of_builtin_forecasts, law_of_first_refusals, law_of_parameters, law_of_places};
pub use parameter::{Blame, Wrong};
pub use position::Input;
pub use reading::{Reading, read};
pub use shown::shown_name;
pub use signature::Signature;
pub use step::{Field, Step, pointer_text};
pub use task_listing::tasks_in;
