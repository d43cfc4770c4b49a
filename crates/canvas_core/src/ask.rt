//! The asks of a core, and the answers.

ghost use Rattle.std.specs.Prelude.{◌≡◌};
ghost use Rattle.canvas_core.specs.Asks.{suits};

use canvas_backend::Stored;
use canvas_envelope::Letter;
use canvas_task::{GroupNo, Outcome, TaskNo};

/// The next ask of a core.
#[derive(Clone, Copy, Debug, PartialEq, Eq)]
pub enum Ask {
    /// The next envelope of the queue.
    Take,
    /// To publish the envelope that the core hands out.
    Publish,
    /// To store the outcome of a task.
    Store(TaskNo, Outcome),
    /// To return the part of a chord by the last task of a member.
    Part(GroupNo, TaskNo),
    /// To read the outcome of a header's member. It has the chord, and the member's place, from 0.
    Read(GroupNo, u32),
    /// To acknowledge the envelope of this task, whose script is done; None if it was dropped.
    Ack(Option<TaskNo>),
    /// To wait, since the queue is empty.
    Rest,
    /// Nothing, now and from then on.
    End,
}

/// The answer to an ask.
#[derive(Drop)]
pub enum Reply {
    /// To a take: None if nothing was found.
    Taken(Option<Letter>),
    /// To a publish that was accepted.
    Published,
    /// To a publish for which memory was refused: the envelope comes back, and the core fails.
    NotPublished(Letter),
    /// To a store.
    Stored(Stored),
    /// To a part: how many were returned before it.
    Counted(u64),
    /// To a read: the member's last task, and its outcome.
    Found(TaskNo, Option<Outcome>),
    /// To an acknowledgement.
    Acked,
    /// To a rest: whether more may come. If not, the core has ended.
    Rested { more: bool },
}

impl Ask {
    /// Returns whether a reply is of this ask's kind.
    pub fn suits(&self, reply: &Reply) -> bool
        ensures { result ≡ suits self.now reply.now }
    {
        match (self, reply) {
            (Ask::Take, Reply::Taken(_)) => true,
            (Ask::Publish, Reply::Published | Reply::NotPublished(_)) => true,
            (Ask::Store(..), Reply::Stored(_)) => true,
            (Ask::Part(..), Reply::Counted(_)) => true,
            (Ask::Read(..), Reply::Found(..)) => true,
            (Ask::Ack(_), Reply::Acked) => true,
            (Ask::Rest, Reply::Rested { .. }) => true,
            (_, _) => false,
        }
    }
}
