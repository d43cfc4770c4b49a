//! The depth to which the signatures of a canvas are nested in a message. Beyond the limit it is
//! only known to be greater.

ghost use Rattle.std.specs.Prelude.{◌≡◌, ◌+◌, max, map};
ghost use Rattle.canvas_values.specs.steps.LineReach.{past, above, reach_of_line, sig_reach, sigs_reach, chord_reach, task_onto, group_reach, onto_reach, all_onto_reach, greatest};
ghost use Rattle.canvas_values.specs.SignatureView.{view, task_view, tasks_of, trees_of};

use crate::{Node, TaskSig};
use canvas_semantics::MOST_REACH;

/// The number of elements of a line (up to two), with the greatest of their reaches.
#[derive(Clone, Copy, Drop)]
pub(crate) enum LineReach {
    Empty,
    One(u32),
    More(u32),
}

/// Adds a level to a reach, up to one more than the limit.
fn above(reach: u32) -> u32
    ensures { result ≡ above reach }
{
    reach.min(MOST_REACH) + 1
}

/// Returns the reach of a whole line.
pub(crate) fn whole(line: LineReach) -> u32
    ensures { result ≡ reach_of_line line }
{
    match line {
        LineReach::Empty => 0,
        LineReach::One(reach) => reach,
        LineReach::More(reach) => above(reach),
    }
}

/// Returns the reach of a task with its links and error callbacks, whose message also carries
/// something of reach `carried`.
#[cycle(sigs)]
#[tactic(auto, using(crate::proofs::Views::task_seen))]
fn sig_reach(sig: &TaskSig, carried: u32) -> u32
    ensures { result ≡ sig_reach carried (task_view sig.now) }
{
    let callbacks = sigs_reach(sig.links.get()).max(sigs_reach(sig.errbacks.get()));
    above(carried.max(callbacks))
}

#[cycle(sigs)]
fn sigs_reach(sigs: &[TaskSig]) -> u32
    ensures { result ≡ sigs_reach (tasks_of (map task_view sigs.now)) }
{
    let mut most = 0;
    for sig in sigs {
        most = sig_reach(sig, 0).max(most);
    }
    most
}

fn task_onto(sig: &TaskSig, after: LineReach, carried: u32) -> LineReach
    ensures { result ≡ task_onto (task_view sig.now) after carried }
{
    match after {
        LineReach::Empty => LineReach::One(sig_reach(sig, carried)),
        LineReach::One(reach) => LineReach::More(sig_reach(sig, 0).max(reach)),
        LineReach::More(reach) => LineReach::More(sig_reach(sig, 0).max(reach)),
    }
}

/// Returns the line of a node followed by the line `after`; the last task of all carries something
/// of reach `carried`.
#[cycle(onto)]
pub(crate) fn onto_reach(node: &Node, after: LineReach, carried: u32) -> LineReach
    ensures { result ≡ onto_reach (view node.now) after carried }
{
    match node {
        Node::Task(sig) => task_onto(sig, after, carried),
        Node::Chain(nodes) => all_onto_reach(nodes.get(), after, carried),
        Node::Group(nodes) => group_reach(nodes.get(), after),
        Node::Chord { header, body } => {
            let body = whole(onto_reach(body, after, carried));
            chord_reach(header.get(), body)
        }
    }
}

#[cycle(onto)]
fn group_reach(members: &[Node], after: LineReach) -> LineReach
    ensures { result ≡ group_reach (greatest (trees_of (map view members.now))) after }
{
    match after {
        LineReach::Empty => LineReach::One(above(greatest(members, 0))),
        LineReach::One(reach) => chord_reach(members, reach),
        LineReach::More(reach) => chord_reach(members, above(reach)),
    }
}

/// Returns the line of a chord whose body has reach `body`.
#[cycle(onto)]
fn chord_reach(header: &[Node], body: u32) -> LineReach
    ensures { result ≡ chord_reach (greatest (trees_of (map view header.now))) body }
{
    LineReach::One(above(greatest(header, body).max(body)))
}

#[cycle(onto)]
fn all_onto_reach(nodes: &[Node], after: LineReach, carried: u32) -> LineReach
    ensures { result ≡ all_onto_reach (trees_of (map view nodes.now)) after carried }
{
    let mut line = after;
    let mut left = nodes.len();
    while left > 0 {
        left -= 1;
        line = onto_reach(&nodes[left], line, carried);
    }
    line
}

/// Returns the greatest reach of members whose last tasks carry something of reach `carried`.
#[cycle(onto)]
fn greatest(members: &[Node], carried: u32) -> u32
    ensures { result ≡ greatest (trees_of (map view members.now)) carried }
{
    let mut most = 0;
    for member in members {
        most = whole(onto_reach(member, LineReach::Empty, carried)).max(most);
    }
    most
}
