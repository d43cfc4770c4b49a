//! The edges of a picture: from each node to what follows it.

ghost use Rattle.std.specs.Prelude.{◌≡◌, ◌==◌, ◌++◌, ◌∷◌, [], Some, None, IfOk, OnOk, map, length, string_bytes};
ghost use Rattle.canvas_rewrite.specs.FrozenView.{task_in, line_in, end_in};
ghost use Rattle.canvas_rewrite.specs.declared.frozen.FrozenEnd.{out-FrozenEnd};
ghost use Rattle.canvas_semantics.specs.Line.{no_of};
ghost use Rattle.canvas_report.specs.Ends.{point_of, firsts, lasts, member_lasts, are_several, has_joint};
ghost use Rattle.canvas_report.specs.Picture.{edge, joined, to_body, behind, task_edges, line_edges, style, edge_text, edges_text};
ghost use Rattle.canvas_report.specs.steps.EdgeLists.{lines_firsts, lines_lasts, callbacks_edges, tasks_edges, last_node, lines_edges};
ghost use Rattle.canvas_report.specs.declared.graph.edges.Node.TheVariants.{Task};
ghost use Rattle.canvas_report.specs.declared.graph.edges.Leads.TheVariants.{Next};

use canvas_rewrite::{FrozenEnd, FrozenLine, FrozenTask};
use canvas_task::GroupNo;
use std::alloc::{AllocError, Global};
use std::fmt;

/// An end of an edge: a task, the point of a group or chord of no members, or the point between a
/// chord's header and its body; each by its number.
#[derive(Clone, Copy, Drop)]
pub(crate) enum Node {
    Task(u32),
    Group(u32),
    Joint(u32),
}

impl fmt::Display for Node {
    ghost use Rattle.std.specs.Prelude.{Some};
    ghost use Rattle.canvas_report.specs.Ends.{node_text};

    ghost output = { λ node. Some (node_text node) };

    fn fmt<W: fmt::Write>(&self, f: &mut fmt::Formatter<W>) -> fmt::Result {
        match self {
            Node::Task(number) => write!(f, "t{number}"),
            Node::Group(number) => write!(f, "g{number}"),
            Node::Joint(number) => write!(f, "j{number}"),
        }
    }
}

/// What an edge leads to: the next task, or a callback of a success or a failure.
#[derive(Clone, Copy, Drop)]
pub(crate) enum Leads {
    Next,
    Link,
    Errback,
}

impl Leads {
    fn style(self) -> &'static str
        ensures { result.now ≡ style self }
    {
        match self {
            Leads::Next => "",
            Leads::Link => " [style=dashed, label=\"on success\"]",
            Leads::Errback => " [style=dashed, label=\"on failure\"]",
        }
    }
}

#[derive(Clone, Copy, Drop)]
pub(crate) struct Edge {
    from: Node,
    to: Node,
    leads: Leads,
}

pub(crate) fn node_of(task: &FrozenTask) -> Node
    ensures { result ≡ Task (no_of (task_in task.now)) }
{
    Node::Task(task.no.get())
}

pub(crate) fn has_none(members: &[FrozenLine]) -> bool
    ensures { result ≡ (length members.now == 0) }
{
    members.is_empty()
}

/// Appends the point that is drawn for a group or chord of no members.
fn push_point(nodes: &mut Vec<Node>, end: &FrozenEnd) -> Result<(), AllocError>
    ensures { OnOk result (nodes.new.items ≡ nodes.old.items ++ point_of (end_in end.now)) }
{
    if has_none(end.members.get()) {
        nodes.push(Node::Group(end.group.get()))?;
    }
    Ok(())
}

/// Appends the nodes that a line begins at.
#[cycle(firsts)]
fn push_firsts(nodes: &mut Vec<Node>, line: &FrozenLine) -> Result<(), AllocError>
    ensures { OnOk result (nodes.new.items ≡ nodes.old.items ++ firsts (line_in line.now)) }
{
    match line.tasks.get().first() {
        Some(task) => {
            nodes.push(node_of(task))?;
            Ok(())
        }
        None => match &line.tail {
            Some(end) => push_end_firsts(nodes, end),
            None => Ok(()),
        },
    }
}

/// Appends the nodes that a group or chord begins at: those of its members.
#[cycle(firsts)]
fn push_end_firsts(nodes: &mut Vec<Node>, end: &FrozenEnd) -> Result<(), AllocError>
    ensures { OnOk result (nodes.new.items ≡ nodes.old.items ++ firsts (end_in end.now)) }
{
    push_point(nodes, end)?;
    push_all_firsts(nodes, end.members.get())
}

#[cycle(firsts)]
fn push_all_firsts(nodes: &mut Vec<Node>, lines: &[FrozenLine]) -> Result<(), AllocError>
    ensures { OnOk result
        (nodes.new.items ≡ nodes.old.items ++ lines_firsts (map line_in lines.now)) }
{
    for line in lines {
        push_firsts(nodes, line)?;
    }
    Ok(())
}

/// Appends the nodes that a line ends in.
#[cycle(lasts)]
fn push_lasts(nodes: &mut Vec<Node>, line: &FrozenLine) -> Result<(), AllocError>
    ensures { OnOk result (nodes.new.items ≡ nodes.old.items ++ lasts (line_in line.now)) }
{
    match &line.tail {
        Some(end) => push_end_lasts(nodes, end),
        None => match line.tasks.get().last() {
            Some(task) => {
                nodes.push(node_of(task))?;
                Ok(())
            }
            None => Ok(()),
        },
    }
}

#[cycle(lasts)]
fn push_end_lasts(nodes: &mut Vec<Node>, end: &FrozenEnd) -> Result<(), AllocError>
    ensures { OnOk result (nodes.new.items ≡ nodes.old.items ++ lasts (end_in end.now)) }
{
    match &end.body {
        Some(body) => push_lasts(nodes, body),
        None => push_member_lasts(nodes, end),
    }
}

/// Appends the nodes that the members of a group or chord end in.
#[cycle(lasts)]
fn push_member_lasts(nodes: &mut Vec<Node>, end: &FrozenEnd) -> Result<(), AllocError>
    ensures { OnOk result (nodes.new.items ≡ nodes.old.items ++ member_lasts (end_in end.now)) }
{
    push_point(nodes, end)?;
    push_all_lasts(nodes, end.members.get())
}

#[cycle(lasts)]
fn push_all_lasts(nodes: &mut Vec<Node>, lines: &[FrozenLine]) -> Result<(), AllocError>
    ensures { OnOk result
        (nodes.new.items ≡ nodes.old.items ++ lines_lasts (map line_in lines.now)) }
{
    for line in lines {
        push_lasts(nodes, line)?;
    }
    Ok(())
}

fn push_edge(edges: &mut Vec<Edge>, leads: Leads, from: Node, to: Node) -> Result<(), AllocError>
    ensures { OnOk result (edges.new.items ≡ edges.old.items ++ edge leads from to ∷ []) }
{
    edges.push(Edge { from, to, leads })?;
    Ok(())
}

fn push_edges(edges: &mut Vec<Edge>, from: Node, to: &[Node]) -> Result<(), AllocError>
    ensures { OnOk result
        (edges.new.items ≡ edges.old.items ++ map (λ node. edge Next from node) to.now) }
{
    for node in to {
        push_edge(edges, Leads::Next, from, *node)?;
    }
    Ok(())
}

/// Appends the edges from each of these to each of those.
fn push_joined(edges: &mut Vec<Edge>, from: &[Node], to: &[Node]) -> Result<(), AllocError>
    ensures { OnOk result (edges.new.items ≡ edges.old.items ++ joined from.now to.now) }
{
    for node in from {
        push_edges(edges, *node, to)?;
    }
    Ok(())
}

fn are_several(nodes: &[Node]) -> bool
    ensures { result ≡ are_several nodes.now }
{
    nodes.len() > 1
}

/// Returns whether a header with these ends and a body with these beginnings have a point between
/// them.
fn has_joint(from: &[Node], to: &[Node]) -> bool
    ensures { result ≡ has_joint from.now to.now }
{
    are_several(from) && are_several(to)
}

/// Appends the edges from the ends of a chord's header to the beginnings of its body, through a
/// point if there is one.
fn push_between(
    edges: &mut Vec<Edge>,
    chord: GroupNo,
    from: &[Node],
    to: &[Node],
) -> Result<(), AllocError>
    ensures { OnOk result
        (edges.new.items ≡ edges.old.items ++ to_body chord from.now to.now) }
{
    if has_joint(from, to) {
        let joint = [Node::Joint(chord.get())];
        push_joined(edges, from, &joint)?;
        push_joined(edges, &joint, to)
    } else {
        push_joined(edges, from, to)
    }
}

/// Appends the edges from the node before, if there is one.
fn push_behind(edges: &mut Vec<Edge>, before: &Option<Node>, to: &[Node]) -> Result<(), AllocError>
    ensures { OnOk result (edges.new.items ≡ edges.old.items ++ behind before.now to.now) }
{
    match before {
        Some(from) => push_edges(edges, *from, to),
        None => Ok(()),
    }
}

#[cycle(callbacks)]
fn push_task(edges: &mut Vec<Edge>, task: &FrozenTask) -> Result<(), AllocError>
    ensures { OnOk result (edges.new.items ≡ edges.old.items ++ task_edges (task_in task.now)) }
{
    let node = node_of(task);
    push_callbacks(edges, task.links.get(), node, Leads::Link)?;
    push_callbacks(edges, task.errbacks.get(), node, Leads::Errback)
}

#[cycle(callbacks)]
fn push_callbacks(
    edges: &mut Vec<Edge>,
    callbacks: &[FrozenTask],
    from: Node,
    leads: Leads,
) -> Result<(), AllocError>
    ensures { OnOk result (edges.new.items
        ≡ edges.old.items ++ callbacks_edges leads from (map task_in callbacks.now)) }
{
    for callback in callbacks {
        push_edge(edges, leads, from, node_of(callback))?;
        push_task(edges, callback)?;
    }
    Ok(())
}

/// Appends the edges of the tasks before a line's group or chord. Returns the last of them.
fn push_tasks(edges: &mut Vec<Edge>, tasks: &[FrozenTask]) -> Result<Option<Node>, AllocError>
    ensures pushed { OnOk result
        (edges.new.items ≡ edges.old.items ++ tasks_edges None (map task_in tasks.now)) }
    ensures last { IfOk result (λ node. node ≡ last_node None (map task_in tasks.now)) }
{
    let mut before: Option<Node> = None;
    for task in tasks {
        let node = node_of(task);
        push_task(edges, task)?;
        push_behind(edges, &before, &[node])?;
        before = Some(node);
    }
    Ok(before)
}

/// Appends the edges from a task to the beginnings of a group's or chord's members.
fn push_to_members(
    alloc: Global,
    edges: &mut Vec<Edge>,
    from: Node,
    end: &FrozenEnd,
) -> Result<(), AllocError>
    ensures { OnOk result (edges.new.items
        ≡ edges.old.items ++ behind (Some from) (firsts (end_in end.now))) }
{
    let mut nodes = Vec::new(alloc);
    push_end_firsts(&mut nodes, end)?;
    push_edges(edges, from, &nodes)
}

/// Like `push_to_members`, if there is a task before.
fn push_before(
    alloc: Global,
    edges: &mut Vec<Edge>,
    before: &Option<Node>,
    end: &FrozenEnd,
) -> Result<(), AllocError>
    ensures { OnOk result (edges.new.items
        ≡ edges.old.items ++ behind before.now (firsts (end_in end.now))) }
{
    match before {
        Some(from) => push_to_members(alloc, edges, *from, end),
        None => Ok(()),
    }
}

/// The ends of a chord's header, and the beginnings of its body.
#[derive(Drop)]
struct Sides {
    from: Vec<Node>,
    to: Vec<Node>,
}

fn sides_of(alloc: Global, end: &FrozenEnd, body: &FrozenLine) -> Result<Sides, AllocError>
    ensures from { IfOk result (λ sides. sides.from.items ≡ member_lasts (end_in end.now)) }
    ensures to { IfOk result (λ sides. sides.to.items ≡ firsts (line_in body.now)) }
{
    let mut from = Vec::new(alloc);
    push_member_lasts(&mut from, end)?;
    let mut to = Vec::new(alloc);
    push_firsts(&mut to, body)?;
    Ok(Sides { from, to })
}

/// Returns whether there is a point between the header of a chord and its body.
pub(crate) fn chord_has_joint(
    alloc: Global,
    end: &FrozenEnd,
    body: &FrozenLine,
) -> Result<bool, AllocError>
    ensures { IfOk result (λ has. has
        ≡ has_joint (member_lasts (end_in end.now)) (firsts (line_in body.now))) }
{
    let sides = sides_of(alloc, end, body)?;
    Ok(has_joint(&sides.from, &sides.to))
}

/// Appends the edges from the header of a chord to its body.
fn push_to_body(
    alloc: Global,
    edges: &mut Vec<Edge>,
    end: &FrozenEnd,
    body: &FrozenLine,
) -> Result<(), AllocError>
    ensures { OnOk result (edges.new.items ≡ edges.old.items
        ++ to_body (out-FrozenEnd end.now).group
        (member_lasts (end_in end.now)) (firsts (line_in body.now))) }
{
    let sides = sides_of(alloc, end, body)?;
    push_between(edges, end.group, &sides.from, &sides.to)
}

#[cycle(lines)]
fn push_line(alloc: Global, edges: &mut Vec<Edge>, line: &FrozenLine) -> Result<(), AllocError>
    ensures { OnOk result
        (edges.new.items ≡ edges.old.items ++ line_edges None (line_in line.now)) }
{
    let before = push_tasks(edges, line.tasks.get())?;
    match &line.tail {
        Some(end) => push_end(alloc, edges, end, &before),
        None => Ok(()),
    }
}

#[cycle(lines)]
fn push_end(
    alloc: Global,
    edges: &mut Vec<Edge>,
    end: &FrozenEnd,
    before: &Option<Node>,
) -> Result<(), AllocError>
    ensures { OnOk result
        (edges.new.items ≡ edges.old.items ++ line_edges before.now (end_in end.now)) }
{
    push_before(alloc, edges, before, end)?;
    push_lines(alloc, edges, end.members.get())?;
    match &end.body {
        Some(body) => {
            push_to_body(alloc, edges, end, body)?;
            push_line(alloc, edges, body)
        }
        None => Ok(()),
    }
}

#[cycle(lines)]
fn push_lines(alloc: Global, edges: &mut Vec<Edge>, lines: &[FrozenLine]) -> Result<(), AllocError>
    ensures { OnOk result
        (edges.new.items ≡ edges.old.items ++ lines_edges (map line_in lines.now)) }
{
    for line in lines {
        push_line(alloc, edges, line)?;
    }
    Ok(())
}

/// Appends an edge in the language of Graphviz.
fn push_text(text: &mut String, edge: &Edge) -> Result<(), AllocError>
    ensures { OnOk result (string_bytes text.new ≡ string_bytes text.old ++ edge_text edge.now) }
{
    let from = edge.from;
    let to = edge.to;
    let style = edge.leads.style();
    writeln!(text, "  {from} -> {to}{style};")?;
    Ok(())
}

fn push_texts(text: &mut String, edges: &[Edge]) -> Result<(), AllocError>
    ensures { OnOk result (string_bytes text.new ≡ string_bytes text.old ++ edges_text edges.now) }
{
    for edge in edges {
        push_text(text, edge)?;
    }
    Ok(())
}

/// Appends the edges of a line in the language of Graphviz, one in each line.
pub(crate) fn push_line_edges(
    alloc: Global,
    text: &mut String,
    line: &FrozenLine,
) -> Result<(), AllocError>
    ensures { OnOk result (string_bytes text.new
        ≡ string_bytes text.old ++ edges_text (line_edges None (line_in line.now))) }
{
    let mut edges = Vec::new(alloc);
    push_line(alloc, &mut edges, line)?;
    push_texts(text, &edges)
}
