//! A canvas as a picture: from left to right in time, groups and chords as frames, links and error
//! callbacks dashed.
//!
//! `tN` is task N. Its label has its number, its call and, with `--run` or `--results`, its state
//! and value (of a stored one the first 24 characters). `cluster_N` is group or chord N, and `gN` a
//! point in one that has no members. An edge leads from each task to the elements after it, dashed
//! to a link (`on success`) or an error callback (`on failure`). If the header of chord N ends in
//! several nodes and its body begins at several, `jN` is a point between them.
//!
//! Names and texts have other characters than printable ASCII escaped, and `&` as `&amp;`, since
//! Graphviz reads entities of HTML.

ghost use Rattle.std.specs.Prelude.{◌≡◌, IfOk, OnOk, option_map, string_bytes};
ghost use Rattle.canvas_semantics.specs.Line.{count_line};
ghost use Rattle.canvas_semantics.specs.States.{numbers_from};
ghost use Rattle.canvas_report.specs.Nodes.{line_pieces, looks, nodes};
ghost use Rattle.canvas_report.specs.Picture.{IsPicture};

mod dot;
mod edges;
mod label;
mod nodes;

use crate::fate::Fate;
use crate::graph::edges::push_line_edges;
use crate::graph::nodes::{Seen, push_line};
use crate::row::Row;
use crate::text::put;
use canvas_rewrite::Plan;
use canvas_task::{Memory, TaskNo};
use std::alloc::Global;

/// Writes a plan in the language of Graphviz, for `dot`, with states and values if rows are given.
/// A whole run has the fate of each task, in the order of their numbers; results that Celery's
/// workers stored have none.
pub fn graph_text(
    alloc: Global,
    plan: &Plan,
    rows: Option<&[Row]>,
    fates: &[(TaskNo, Fate)],
) -> Result<String, Memory>
    ensures picture { IfOk result (λ text. IsPicture
        (looks fates.now (option_map (λ rows. rows.now) rows.entry)) plan.now
        (string_bytes text)) }
    // Each task is one node.
    ensures nodes { OnOk result
        (nodes (line_pieces plan.now) ≡ numbers_from 1 (count_line plan.now)) }
{
    let mut text = String::new(alloc);
    put(
        &mut text,
        "digraph canvas {\n  rankdir=LR;\n  node [fontname=\"Helvetica\"];\n",
    )?;
    put(
        &mut text,
        "  edge [fontname=\"Helvetica\"];\n  fontname=\"Helvetica\";\n",
    )?;
    push_line(alloc, &mut text, plan.line(), &Seen { rows, fates })?;
    push_line_edges(alloc, &mut text, plan.line())?;
    put(&mut text, "}\n")?;
    Ok(text)
}
