//! The report of a run and other views of a canvas, by the states of its tasks: its text, JSON
//! lines, the reasons why some tasks were not called, and a picture. The same views of results that
//! Celery's workers stored; messages as JSON lines; and an HTML page around a block of JSON.
#![tactic(auto)]

mod failing;
mod fate;
mod graph;
mod json_text;
mod page;
mod report;
mod report_rows;
mod row;
mod rows;
mod shown;
mod states;
mod text;
mod wording;

pub use failing::is_failure;
pub use fate::Fate;
pub use graph::graph_text;
pub use json_text::{escaped_json, message_line, quoted_json};
pub use page::{law_of_blocks, page_text};
pub use report::{Report, report_text};
pub use row::Row;
pub use rows::{Told, result_text, row_text, rows_text, shown_members, stored_rows_text};
pub use states::state_in;
pub use wording::{explained_text, stored_text};
