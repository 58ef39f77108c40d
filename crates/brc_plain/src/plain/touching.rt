//! The word that a thread's duty is about.

ghost use Rattle.std.specs.Prelude.{◌≡◌, ◌<◌, ◌≤◌, ◌^◌, length, IfOk, IfErr};
ghost use Rattle.brc_model.specs.Duties.{address_of, new_word};
ghost use Rattle.brc_model.specs.Machine.{is_running, used_by};
ghost use Rattle.brc_model.specs.Within.{Suits};
ghost use Rattle.brc_effect.specs.Effects.{IsIndexed, IsNumbered};
ghost use Rattle.brc_machine.specs.Storage.{word_in};

use crate::fits::{ask_indexed, ask_numbered, ask_suits, ask_used};
use crate::plain::MOST_ROWS;
use crate::refused::Refused;
use crate::thread::Thread;
use brc_effect::{Blocks, access_of, address_of};
use brc_machine::Memory;
use brc_machine::threads::is_running;
use brc_model::{Address, Duty};

/// The word that a duty is about, in a machine with this number of rows.
#[derive(Clone, Copy)]
pub struct Touch {
    pub rows: u32,
    pub address: Address,
    /// What the duty finds.
    pub found: u64,
    /// What it leaves.
    pub left: u64,
}

/// Returns the word that the thread's duty is about. Refuses a duty that leaves the machine's numbers.
pub fn touch_of(
    blocks: Blocks,
    memory: &Memory,
    own: u8,
    thread: &Thread,
    duty: &Duty,
) -> Result<Touch, Refused>
    requires { own ≤ 32 }
    ensures there { IfOk result (λ touch. touch.address ≡ address_of blocks own thread.now.head duty.now) }
    ensures found { IfOk result (λ touch. touch.found ≡ word_in memory.now touch.address) }
    ensures left { IfOk result (λ touch. touch.left ≡ new_word blocks own thread.now.head duty.now touch.found) }
    ensures suits { IfOk result (λ touch. Suits own (is_running thread.now.status) touch.rows duty.now touch.found) }
    ensures numbered { IfOk result (λ touch. IsNumbered touch.rows duty.now) }
    ensures indexed { IfOk result (λ touch. IsIndexed duty.now) }
    ensures uses { IfOk result (λ touch. used_by thread.now.used duty.now < 2 ^ 32) }
    ensures refused { IfErr result (λ refused. let rows = length memory.now.local in
        rows ≤ 2 ^ 20 → IsIndexed duty.now → IsNumbered rows duty.now → used_by thread.now.used duty.now < 2 ^ 32
        → Suits own (is_running thread.now.status) rows duty.now
        (word_in memory.now (address_of blocks own thread.now.head duty.now)) → ⊥) }
{
    let rows = memory.rows();
    if rows > MOST_ROWS {
        return Err(Refused::OutOfBounds);
    }
    let rows = rows as u32;
    ask_indexed(*duty)?;
    ask_numbered(rows, *duty)?;
    ask_used(thread.used, *duty)?;
    let address = address_of(blocks, own, thread.head, *duty);
    let found = memory.read(address);
    ask_suits(own, is_running(thread.status), rows, *duty, found)?;
    let access = access_of(blocks, *duty, own, thread.head);
    Ok(Touch {
        rows,
        address,
        found,
        left: access.leaves(found),
    })
}
