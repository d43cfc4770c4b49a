//! Canvases as tokens of JSON.

ghost use Rattle.std.specs.Prelude.{◌∷◌, ◌++◌, [], false, map};
ghost use Rattle.serde_json.specs.Data.{string, no_items, no_members};
ghost use Rattle.canvas_values.specs.steps.Tokens.{Appends, data_tokens, rest_tokens, rest_members, opening_tokens, kind_tokens, name_tokens, closing_tokens, member_tokens, last_tokens, body_tokens};
ghost use Rattle.canvas_values.specs.Writing.{signature, tasks_member, tree_wire, trees_wire};
ghost use Rattle.canvas_values.specs.SignatureView.{view, trees_of};

use crate::Node;
use crate::writing::task::{write_flag, write_front, write_task};
use json::Writer;
use std::alloc::AllocError;

/// Writes the part of a chain, group or chord before its keyword arguments.
fn write_opening(out: &mut Writer) -> Result<(), AllocError>
    ensures { Appends result out.old out.new opening_tokens }
{
    write_front(out, &[])?;
    write_flag(out, false)?;
    out.key("kwargs")?;
    out.begin_object()
}

/// Writes the last two members, `subtask_type` and `task`, and the closing brace.
pub fn write_kind(out: &mut Writer, kind: &str, name: &str) -> Result<(), AllocError>
    ensures { Appends result out.old out.new
        (kind_tokens (string kind.now) ++ name_tokens name.now) }
{
    out.key("subtask_type")?;
    out.string(kind)?;
    out.key("task")?;
    out.string(name)?;
    out.end_object()
}

/// Writes the part of a chain, group or chord after its keyword arguments.
pub fn write_closing(out: &mut Writer, kind: &str, name: &str) -> Result<(), AllocError>
    ensures { Appends result out.old out.new (closing_tokens (string kind.now) name.now) }
{
    out.key("options")?;
    out.begin_object()?;
    out.end_object()?;
    write_kind(out, kind, name)
}

/// Writes the rest of a list of signatures, up to the closing bracket.
#[cycle(write_tree)]
fn write_nodes(out: &mut Writer, nodes: &[Node]) -> Result<(), AllocError>
    ensures { Appends result out.old out.new
        (rest_tokens (trees_wire (trees_of (map view nodes.now)))) }
{
    for node in nodes {
        write_tree(out, node)?;
    }
    out.end_array()
}

/// Writes a member that is a list of signatures.
#[cycle(write_tree)]
fn write_member(out: &mut Writer, name: &str, nodes: &[Node]) -> Result<(), AllocError>
    ensures { Appends result out.old out.new
        (member_tokens name.now (trees_wire (trees_of (map view nodes.now)))) }
{
    out.key(name)?;
    out.begin_array()?;
    write_nodes(out, nodes)
}

/// Writes the last keyword argument of a chain, group or chord, a list of signatures, and the rest
/// after it.
#[cycle(write_tree)]
fn write_last(
    out: &mut Writer,
    name: &str,
    nodes: &[Node],
    kind: &str,
    type_name: &str,
) -> Result<(), AllocError>
    ensures { Appends result out.old out.new (last_tokens name.now
        (trees_wire (trees_of (map view nodes.now))) (string kind.now) type_name.now) }
{
    write_member(out, name, nodes)?;
    out.end_object()?;
    write_closing(out, kind, type_name)
}

/// Writes a whole chain or group.
#[cycle(write_tree)]
fn write_sequence(
    out: &mut Writer,
    nodes: &[Node],
    kind: &str,
    type_name: &str,
) -> Result<(), AllocError>
    ensures { Appends result out.old out.new (data_tokens (signature no_items false
        (tasks_member (trees_wire (trees_of (map view nodes.now)))) no_members (string kind.now)
        type_name.now)) }
{
    write_opening(out)?;
    write_last(out, "tasks", nodes, kind, type_name)
}

/// Writes the start of a chord, including its body.
#[cycle(write_tree)]
fn write_body(out: &mut Writer, body: &Node) -> Result<(), AllocError>
    ensures { Appends result out.old out.new (body_tokens (tree_wire (view body.now))) }
{
    write_opening(out)?;
    out.key("body")?;
    write_tree(out, body)
}

#[cycle(write_tree)]
/// Writes a signature as tokens of JSON, with all signatures nested in it.
pub fn write_tree(out: &mut Writer, node: &Node) -> Result<(), AllocError>
    ensures { Appends result out.old out.new (data_tokens (tree_wire (view node.now))) }
{
    match node {
        Node::Task(sig) => write_task(out, sig),
        Node::Chain(nodes) => write_sequence(out, nodes.get(), "chain", "celery.chain"),
        Node::Group(nodes) => write_sequence(out, nodes.get(), "group", "celery.group"),
        Node::Chord { header, body } => {
            write_body(out, body)?;
            write_last(out, "header", header.get(), "chord", "celery.chord")
        }
    }
}
