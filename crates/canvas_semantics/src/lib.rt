//! The meaning of a canvas as plain data: its tree, its normal line, and the states and the report
//! that evaluating it gives. No code runs here: the functions have empty bodies, and their
//! contracts are laws. Only the limits are for code.
#![tactic(auto)]

mod limits;

ghost use Rattle.std.specs.Prelude.{◌≡◌};
ghost use Rattle.canvas_task.specs.Apply.{Behaviour};
ghost use Rattle.canvas_semantics.specs.Evaluation.{meaning};
ghost use Rattle.canvas_semantics.specs.Line.{Line, number_line, tree_of};
ghost use Rattle.canvas_semantics.specs.NormalLine.{normal};
ghost use Rattle.canvas_semantics.specs.Report.{report, report_of};
ghost use Rattle.canvas_semantics.specs.SameMeaning.{IsSame};
ghost use Rattle.canvas_semantics.specs.States.{rows_from, states};
ghost use Rattle.canvas_semantics.specs.Tree.{Tree, IsFull, count, count_groups, numbered};

pub use limits::{MOST_GROUPS, MOST_NESTING, MOST_REACH, MOST_TASKS, MOST_WORKERS, WithCommas};

/// States the law of the normal line: if no chain is empty, the normal line of a canvas means what
/// the canvas means, for all behaviours of tasks. For every flow each task has the same state by
/// its number, and the same flows out. Both end in the same tasks, and each group and chord has the
/// same number and the same members' ends. So the report is the same.
pub fn law_of_normal_lines()
    ensures same { (c : Tree) → IsFull c → IsSame (normal c) c }
    ensures tasks { (c : Tree) → count (normal c) ≡ count c }
    ensures groups { (c : Tree) → count_groups (normal c) ≡ count_groups c }
    ensures reported { (behaviour : Behaviour) (c : Tree) → IsFull c
        → report_of (numbered (normal c)) (rows_from 1 (states behaviour (numbered (normal c))))
        ≡ report behaviour c }
{}

/// States that the states of a plan are those of its canvas, for all behaviours of tasks. Canvases
/// that mean the same have the same states, number by number. If a line is the normal line of a
/// canvas in which no chain is empty, evaluating its tree, with its numbers in file order, gives
/// the states of the canvas. These are all rows of the canvas's meaning: one for each task, in
/// order.
pub fn law_of_plan_states()
    ensures same { (behaviour : Behaviour) (s t : Tree) → IsSame s t
        → states behaviour (numbered s) ≡ states behaviour (numbered t) }
    ensures of_canvas { (behaviour : Behaviour) (c : Tree) → IsFull c
        → (l : Line) → tree_of l ≡ normal c
        → states behaviour (tree_of (number_line 1 1 l)) ≡ states behaviour (numbered c) }
    ensures all_rows { (behaviour : Behaviour) (c : Tree)
        → rows_from 1 (states behaviour (numbered c)) ≡ meaning behaviour c }
{}
