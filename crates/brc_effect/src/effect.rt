//! The effect of a step, as one value: the duties that follow, and the thread afterwards. What it leaves in its word is
//! said by its access.

ghost use Rattle.std.specs.Prelude.{◌≡◌, ◌≤◌, ◌<◌, ◌^◌};
ghost use Rattle.brc_model.specs.Machine.{is_running, used_by};
ghost use Rattle.brc_model.specs.Limits.{worker_limit};
ghost use Rattle.brc_model.specs.Within.{Suits};
ghost use Rattle.brc_effect.specs.Effects.{IsIndexed, IsNumbered, IsEffect};

use crate::blocks::Blocks;
use brc_model::{Duty, Status};

mod birth;
mod dying;
mod exit;
mod lend;
mod lock;
mod merge;
mod release;
mod retain;
mod swap;

/// The duties that replace a duty once it is done, in the order in which the thread does them.
#[derive(Clone, Copy)]
pub enum Next {
    Nothing,
    One(Duty),
    Two(Duty, Duty),
    /// The thread releases the reference in flight to the row's object, and then does `then`.
    Release { row: u32, then: Duty },
    Three(Duty, Duty, Duty),
}

/// The effect of a step.
#[derive(Clone, Copy)]
pub struct Effect {
    /// The duties that the thread does next, before the rest of its agenda.
    pub next: Next,
    /// The head of the thread's dying chain: 0 if it is empty, else a row plus 1.
    pub head: u32,
    pub change: Change,
}

/// What a step changes in its thread, beside the agenda and the head of the dying chain: one of these at most.
#[derive(Clone, Copy)]
pub enum Change {
    Nothing,
    Becomes(Status),
    /// The number of rows of its block that the thread has used now.
    Uses(u32),
    /// The row of the object that the thread has locked now.
    Locks(Option<u32>),
    /// The row of the object whose resource the thread has lent now.
    Lends(Option<u32>),
}

/// The thread that does a duty: the parts of it that the duty's effect depends on.
#[derive(Clone, Copy)]
pub struct Doer {
    pub blocks: Blocks,
    pub number: u8,
    pub status: Status,
    /// The head of its dying chain: 0 if it is empty, else a row plus 1.
    pub head: u32,
    /// The number of rows of its block that it has used.
    pub used: u32,
    /// The number of rows of all threads together.
    pub rows: u32,
}

impl Doer {
    /// Returns the effect of the duty, whose step found `found` in its word. The effect depends on the thread, the duty
    /// and `found` alone: no step reads a second word.
    #[inline(always)]
    pub fn effect(self, duty: Duty, found: u64) -> Effect
        requires suits { Suits self.number (is_running self.status) self.rows duty found }
        requires numbered { IsNumbered self.rows duty }
        requires indexed { IsIndexed duty }
        requires uses { used_by self.used duty < 2 ^ 32 }
        ensures { IsEffect self duty found result }
    {
        match duty {
            Duty::RetainLoad { row, holding } => self.retain_load(row, holding, found),
            // The step ends its piece of work. Rules `LocalRaised` and `SharedRaised`; `Closes`; `MarksLooked`;
            // `KindRead`; `CellRead`.
            Duty::RetainStore { .. }
            | Duty::RetainAdd { .. }
            | Duty::SettleEnd { .. }
            | Duty::MarksLoad { .. }
            | Duty::KindLoad { .. }
            | Duty::CellLoad { .. } => self.then(Next::Nothing),
            Duty::ReleaseLoad { row, .. } => self.release_load(row, found),
            Duty::ReleaseStore { row, word } => self.release_store(row, word),
            Duty::DecideAtZero { row } => self.decide_at_zero(row, found),
            Duty::SharedLoad { row, reason } => self.shared_load(row, reason, found),
            Duty::SharedExchange { row, reason, word } => {
                self.shared_exchange(row, reason, word, found)
            }
            Duty::SetMark { row } => self.set_mark(row),
            Duty::Look { row } => self.look(row, found),
            Duty::TakeMark { row } => self.take_mark(row, found),
            Duty::MergeSwap { row, reason } => self.merge_swap(row, reason, found),
            Duty::MergeLoad {
                row,
                carried,
                reason,
            } => self.merge_load(row, carried, reason, found),
            Duty::MergeExchange {
                row,
                carried,
                word,
                reason,
            } => self.merge_exchange(row, carried, word, reason, found),
            Duty::Die { row } => self.die(row),
            Duty::Settle => self.settle(found),
            Duty::SettleKind { row } => self.settle_kind(row, found),
            Duty::SettleCell { row, cell, cells } => self.settle_cell(row, cell, cells, found),
            Duty::TakeField { row } => self.take_field(row),
            Duty::CloseResource { row } => self.close_resource(row),
            Duty::Leave { word, rows } => self.leave(word, rows),
            Duty::Scan { word, rows } => self.scan(word, rows, found),
            Duty::TakeFound { word, marks } => self.take_found(word, marks, found),
            Duty::Finish => self.finish(),
            Duty::ClaimMark { row } => self.claim_mark(row, found),
            Duty::BirthKind { row, holding, word } => self.birth_kind(row, holding, word),
            Duty::BirthField { row, holding } => self.birth_field(row, holding),
            Duty::BirthLocal { .. } => self.birth_local(),
            Duty::LockGate { row } => self.lock_gate(row, found),
            Duty::UnlockGate { .. } => self.unlock_gate(),
            Duty::CellSwap { .. } => self.cell_swap(found),
            Duty::LendField { row } => self.lend_field(row, found),
            Duty::ReturnField { .. } => self.return_field(),
        }
    }

    /// Returns the effect after which these duties follow, and which changes nothing else in the thread.
    #[inline(always)]
    fn then(self, next: Next) -> Effect
        ensures { result ≡ record { next = next; head = self.head; change = Change.Nothing } }
    {
        Effect {
            next,
            head: self.head,
            change: Change::Nothing,
        }
    }
}

#[inline(always)]
fn is_running(status: Status) -> bool
    ensures { result ≡ is_running status }
{
    matches!(status, Status::Running)
}
