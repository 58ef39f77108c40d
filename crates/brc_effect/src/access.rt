//! The atomic operation by which a thread does a duty: what the step leaves in the duty's word. The step world and real
//! threads make the same one.

ghost use Rattle.std.specs.Prelude.{◌≡◌, ◌≤◌, ◌<◌, ◌^◌, ℕ, Bool};
ghost use Rattle.brc_model.specs.declared.address.Address.TheVariants.{ThreadWord};
ghost use Rattle.brc_model.specs.declared.layout.Layout.{Layout};
ghost use Rattle.brc_model.specs.Limits.{worker_limit};
ghost use Rattle.brc_model.specs.Duties.{address_of, new_word};
ghost use Rattle.brc_model.specs.Stores.{Overwrites};
ghost use Rattle.brc_model.specs.Within.{Suits};
ghost use Rattle.brc_effect.specs.Accesses.{IfStored, known_before, left_by};
ghost use Rattle.brc_effect.specs.Effects.{IsIndexed};

use crate::blocks::Blocks;
use brc_model::Duty;
use brc_word::values::{EMPTY, FREE, FULL, GONE, LEAVING, NOBODY, ONE_REFERENCE, RUNNING};
use brc_word::{closed, dying, local_word, locked, mark_mask, merged, other_marks, released};

/// One atomic operation on one word.
#[derive(Clone, Copy)]
pub enum Access {
    /// Loads the word.
    Load,
    /// Stores `word`, whatever is there. The thread knows that this is `before`.
    Store { word: u64, before: u64 },
    /// Adds to the word.
    Add { more: u64 },
    /// Swaps the word with another value.
    Swap { word: u64 },
    /// Exchanges the word for `new` if it is still `old`.
    Exchange { old: u64, new: u64 },
    /// Sets these bits of the word.
    Or { bits: u64 },
    /// Keeps these bits of the word, and clears all others.
    And { bits: u64 },
}

impl Access {
    /// Returns the value that the operation leaves in a word in which it finds `found`.
    #[inline(always)]
    pub fn leaves(self, found: u64) -> u64
        ensures { result ≡ left_by self found }
    {
        match self {
            Access::Load => found,
            Access::Store { word, .. } | Access::Swap { word } => word,
            Access::Add { more } => found.wrapping_add(more),
            Access::Exchange { old, new } => { if found == old { new } else { found } }
            Access::Or { bits } => found | bits,
            Access::And { bits } => found & bits,
        }
    }
}

/// Returns the operation by which the thread does the duty. `head` is the head of the thread's dying chain: 0 if it is
/// empty, else a row plus 1.
///
/// It is known before the word is found. What an earlier step found is in the duty, and here nothing is known of it: so
/// the sums wrap. The words suit the duty where the step is made.
#[inline(always)]
pub fn access_of(blocks: Blocks, duty: Duty, thread: u8, head: u32) -> Access
    requires thread { thread ≤ worker_limit }
    requires indexed { IsIndexed duty }
    ensures word { (running : Bool) (rows found : ℕ) → found < 2 ^ 64 → Suits thread running rows duty found
        → left_by result found ≡ new_word blocks thread head duty found }
    ensures before { IfStored result (λ before. before ≡ known_before thread duty) }
    ensures knows { IfStored result (λ before. (found : ℕ) → Overwrites thread duty found → found ≡ before) }
    ensures started { (layout : Layout) (t : ℕ)
        → IfStored result (λ before. address_of layout thread head duty ≡ ThreadWord t → 0 < before) }
{
    match duty {
        // The local word says who owns the object. (PEP 703, Biased Reference Counting: `Py_INCREF` and `Py_DECREF`.)
        // A running owner counts there, and any other thread in the shared word. Rules `RetainsImmortal`,
        // `OwnerRetains`, `FullOwnerRetains`, `OtherRetains`; `ReleasesImmortal`, `OwnerReleases`, `OtherReleases`.
        Duty::RetainLoad { .. } | Duty::ReleaseLoad { .. } => Access::Load,
        // The owner changes the local count without atomic operations. Load and store need not be one step, because no
        // other thread writes the word while its owner runs. The count rises by exactly one (`retain_store_doubled`).
        // Rule `LocalRaised`.
        Duty::RetainStore { word, .. } => Access::Store {
            word: word.wrapping_add(1),
            before: word,
        },
        // Other threads count in the shared word. A load and a store of it could lose what another thread adds between
        // the two. Rule `SharedRaised`.
        Duty::RetainAdd { .. } => Access::Add {
            more: ONE_REFERENCE,
        },
        // A plain store here too (`release_store_skipped`). Rules `LocalLowered` and `LocalReachesZero`.
        Duty::ReleaseStore { word, .. } => Access::Store {
            word: word.wrapping_sub(1),
            before: word,
        },
        // Count and state together decide the word's new value. Other threads still change it, so the next step stores
        // only if the word is the same; but for a death, after which no thread has a reference. Rules `NothingShared`,
        // `WasShared`; `SharedRead`; `MergeRead`.
        Duty::DecideAtZero { .. } | Duty::SharedLoad { .. } | Duty::MergeLoad { .. } =>
            Access::Load,
        // (PEP 703, Biased Reference Counting: a decrement by a thread that isn't the owner.) At (0, default) the
        // object is queued for its owner, and the count keeps the reference, which the queue now holds
        // (`release_below_zero`, in `brc_word`). Any other shared word loses one reference. Rules `Queues`,
        // `Decrements`, `DecrementsToZero` and `ExchangeLost`.
        Duty::SharedExchange { word, .. } => Access::Exchange {
            old: word,
            new: released(word),
        },
        // The mark puts the object into its owner's queue. An or, because other threads set and take marks of the same
        // word at the same time (`mark_overwrites_the_word`). Rule `Marked`.
        Duty::SetMark { row } => Access::Or {
            bits: mark_mask(blocks.mark_bit(row)),
        },
        // Rules `OwnerRuns` and `OwnerExits`.
        Duty::Look { .. } => Access::Load,
        // An and, because the owner's exit and the thread that set the mark may both take it, and only the one that
        // finds it set may merge the object. The mark is clear afterwards (`mark_left_set`, `claimed_mark_left_set`),
        // and the marks of all other rows stay (`post_clears_the_word`). Rules `MarkTakenBack` and `MarkGone`;
        // `MarkClaimed` and `NothingToClaim`; `FoundMarkTaken` and `FoundMarkGone`.
        Duty::TakeMark { row } | Duty::ClaimMark { row } => Access::And {
            bits: other_marks(blocks.mark_bit(row)),
        },
        Duty::TakeFound { word, marks } => Access::And {
            bits: other_marks(blocks.mark_bit(blocks.found_row(thread, word, marks))),
        },
        // One load looks at the marks of 64 rows. It takes none: whoever set a mark may take it back until the mark is
        // taken. Rules `MarksRead` and `MarksLooked`.
        Duty::Scan { .. } | Duty::MarksLoad { .. } => Access::Load,
        // (PEP 703, Biased Reference Counting: `_Py_ExplicitMergeRefcount`.) Owner and count leave the word in one
        // step, so that no reference is in both words, and none is counted locally after the merge
        // (`merge_swap_keeps_local`). Rules `NobodysCount` and `LocalTakenOut`.
        Duty::MergeSwap { .. } => Access::Swap { word: NOBODY },
        // (PEP 703, Biased Reference Counting: nobody owns a merged object.) Count and state change in one step, so
        // that the shared count has all references once the object is merged (`merge_drops_local`, in `brc_word`). If
        // another thread has changed the word, it stays as it is (`lost_merge_overwrites`). Rules `Merges`,
        // `MergesToZero`, `MergesForHanded` and `MergeLost`.
        Duty::MergeExchange { word, carried, .. } => Access::Exchange {
            old: word,
            new: merged(word, carried),
        },
        // The gate links the object into the thread's dying chain, in front of the old head (`die_without_chain`). No
        // thread has a reference left, so nobody else locks or chains the object: its gate is free. Rule `Chained`.
        Duty::Die { .. } => Access::Store {
            word: dying(thread, head),
            before: FREE,
        },
        // Rules `ChainRead`; `DyingResource` and `DyingCells`; `KindRead`; `CellRead`. A kind word never changes once
        // it is born, so a load of it stores nothing (`kind_load_stores`).
        Duty::Settle | Duty::SettleKind { .. } | Duty::KindLoad { .. } | Duty::CellLoad { .. } =>
            Access::Load,
        // The thread learns which reference was there, and none is left in the cell (`cell_keeps_its_reference`). Rule
        // `CellEmptied`.
        Duty::SettleCell { .. } => Access::Swap { word: EMPTY },
        // No other thread finds the resource in its field while the host uses or closes it. Rules `FieldEmptied` and
        // `ResourceLent`.
        Duty::TakeField { .. } | Duty::LendField { .. } => Access::Swap { word: EMPTY },
        // The host closes the resource, which counts also if it reports a fault (`close_uncounted`). Rule
        // `ResourceClosed`.
        Duty::CloseResource { .. } => Access::Add { more: 1 },
        // The object is closed from now on (`settle_end_left_dying`). A swap, since no duty knows what the gate said
        // of the rest of the chain. Rule `Closes`.
        Duty::SettleEnd { .. } => Access::Swap { word: closed() },
        // Whoever queues an object for the thread from now on looks after it. Rule `SaysLeaving`.
        Duty::Leave { .. } => Access::Store {
            word: LEAVING,
            before: RUNNING,
        },
        // Rule `SaysGone`.
        Duty::Finish => Access::Store {
            word: GONE,
            before: LEAVING,
        },
        // The kind is stored before the object is born, and no word of a row is set before its birth
        // (`birth_kind_skipped`). Rules `KindOfResource` and `KindOfOther`.
        Duty::BirthKind { word, .. } => Access::Store { word, before: 0 },
        // The resource is put into its field before the object is born (`field_left_empty`), and back into it after
        // each call of the host (`lent_field_left_empty`). Rules `FieldFilled` and `ResourceReturned`.
        Duty::BirthField { .. } | Duty::ReturnField { .. } => Access::Store {
            word: FULL,
            before: EMPTY,
        },
        // (PEP 703, Biased Reference Counting: the thread that creates an object owns it.) A new object has one local
        // reference. Rule `Born`.
        Duty::BirthLocal { .. } => Access::Store {
            word: local_word(Some(thread), 1),
            before: NOBODY,
        },
        // A gate that another thread has locked stays as it is (`lock_taken_twice`). (PEP 703, Container
        // Thread-Safety: each list has a lock of its own.) Rules `Locks` and `LockHeld`.
        Duty::LockGate { .. } => Access::Exchange {
            old: FREE,
            new: locked(thread),
        },
        // A plain store is enough, because no other thread stores in the gate of a locked object
        // (`unlock_leaves_locked`). Rule `Unlocks`.
        Duty::UnlockGate { .. } => Access::Store {
            word: FREE,
            before: locked(thread),
        },
        // (C API manual, `PyList_SetItem`: the list steals the reference to the item, and discards the one that it had
        // in this place.) The cell names the item from then on (`another_item_stored`). Rule `ItemStored`.
        Duty::CellSwap { item, .. } => Access::Swap {
            word: u64::from(item) + 1,
        },
    }
}
