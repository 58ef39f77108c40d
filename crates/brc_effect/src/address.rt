//! The word that a duty accesses.

ghost use Rattle.std.specs.Prelude.{◌≡◌, ◌<◌};
ghost use Rattle.brc_model.specs.Duties.{address_of};
ghost use Rattle.brc_effect.specs.Effects.{IsIndexed};

use crate::blocks::Blocks;
use brc_model::{Address, Duty};

/// Returns the address of the word that the thread's duty accesses. `head` is the head of the thread's dying chain: 0
/// if it is empty, else a row plus 1.
#[inline(always)]
pub fn address_of(blocks: Blocks, thread: u8, head: u32, duty: Duty) -> Address
    requires indexed { IsIndexed duty }
    ensures { result ≡ address_of blocks thread head duty }
{
    match duty {
        Duty::RetainLoad { row, .. }
        | Duty::RetainStore { row, .. }
        | Duty::ReleaseLoad { row, .. }
        | Duty::ReleaseStore { row, .. }
        | Duty::MergeSwap { row, .. }
        | Duty::BirthLocal { row, .. } => Address::Local { row },
        Duty::RetainAdd { row, .. }
        | Duty::DecideAtZero { row }
        | Duty::SharedLoad { row, .. }
        | Duty::SharedExchange { row, .. }
        | Duty::MergeLoad { row, .. }
        | Duty::MergeExchange { row, .. } => Address::Shared { row },
        Duty::Die { row }
        | Duty::SettleEnd { row }
        | Duty::LockGate { row }
        | Duty::UnlockGate { row } => Address::Gate { row },
        Duty::Settle => Address::Gate {
            row: head.saturating_sub(1),
        },
        Duty::SettleKind { row } | Duty::BirthKind { row, .. } | Duty::KindLoad { row } => {
            Address::KindOf { row }
        }
        Duty::SettleCell { row, cell, .. } | Duty::CellSwap { row, cell, .. } => {
            Address::Cell { row, cell }
        }
        Duty::TakeField { row }
        | Duty::BirthField { row, .. }
        | Duty::LendField { row }
        | Duty::ReturnField { row } => Address::Field { row },
        Duty::CloseResource { row } => Address::Resource { row },
        Duty::SetMark { row } | Duty::TakeMark { row } | Duty::ClaimMark { row } => {
            blocks.mark_place(row)
        }
        Duty::TakeFound { word, marks } => blocks.mark_place(blocks.found_row(thread, word, marks)),
        Duty::Scan { word, .. } | Duty::MarksLoad { word } => Address::Marks {
            thread: u32::from(thread),
            word,
        },
        Duty::Look { row } => Address::ThreadWord {
            thread: blocks.block_of(row),
        },
        Duty::Leave { .. } | Duty::Finish => Address::ThreadWord {
            thread: u32::from(thread),
        },
        Duty::CellLoad { row, cell } => Address::Cell { row, cell },
    }
}
