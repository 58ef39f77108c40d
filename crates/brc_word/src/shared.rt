ghost use Rattle.std.specs.Prelude.{◌≡◌, ◌≢◌, ◌^◌, ◌%◌, ◌≤◌, ◌<◌, ◌⊎◌, ◌↔◌, pos, ◌-ℤ◌, IsSome, IsNone, IfSome, Some};
ghost use Rattle.brc_word.specs.declared.shared.Shared.{Shared};
ghost use Rattle.brc_word.specs.Header.{IsCount, IsSharedWord, total, at_zero, after_choice};
ghost use Rattle.brc_word.specs.Words.{phase_part};

use crate::values::{DEFAULT, MERGED, ONE_REFERENCE, QUEUED};

/// The state of an object's shared field (PEP 703, Biased Reference Counting). States only rise.
#[derive(Clone, Copy, Debug, PartialEq, Eq)]
pub enum Phase {
    /// The owner counts in the local word, and nobody has queued the object.
    Default,
    /// The object is in its owner's queue of objects to be merged.
    Queued,
    /// Nobody owns the object: the shared count has all references.
    Merged,
}

/// The shared field. Its count may be negative while the local count is positive.
#[derive(Clone, Copy, Debug, PartialEq, Eq)]
pub struct Shared {
    pub count: i64,
    pub phase: Phase,
}

/// The change of the shared field by a release.
#[derive(Clone, Copy, Debug, PartialEq, Eq)]
pub enum SharedChoice {
    /// Subtract one from the count.
    Subtract,
    /// Set the state to `Queued`: the reference goes to the owner's queue, and the owner will merge.
    Queue,
}

/// Added to the count, so that the word's count is never negative.
const RAISED: i64 = 1 << 40;
/// One more than the greatest word.
const WORDS: u64 = 1 << 43;

/// Returns the word of the shared field, whose count is from -2^40 to 2^40 - 1.
pub fn pack(shared: Shared) -> u64
    requires { IsCount shared.count }
    ensures word { IsSharedWord result shared }
    ensures below { result < 2 ^ 43 }
{
    let state = match shared.phase {
        Phase::Default => DEFAULT,
        Phase::Queued => QUEUED,
        Phase::Merged => MERGED,
    };
    (shared.count + RAISED) as u64 * ONE_REFERENCE + state
}

/// Returns the shared field of a word, or `None` for the unused state and for words of 2^43 and more.
pub fn unpack(word: u64) -> Option<Shared>
    ensures some { IsSome result
        ↔ ((shared : Shared) × IsCount shared.count × IsSharedWord word shared) }
    ensures inverse { (shared : Shared) → IsCount shared.count → IsSharedWord word shared
        → result ≡ Some shared }
    ensures found { IfSome result (λ shared. IsCount shared.count × IsSharedWord word shared) }
    ensures unused { IsNone result ↔ ((phase_part word ≡ 1) ⊎ (2 ^ 43 ≤ word)) }
{
    if word >= WORDS {
        return None;
    }
    let count = (word / ONE_REFERENCE) as i64 - RAISED;
    let phase = match word % ONE_REFERENCE {
        DEFAULT => Phase::Default,
        1 => return None,
        QUEUED => Phase::Queued,
        _ => Phase::Merged,
    };
    Some(Shared { count, phase })
}

/// Returns how a release by a thread that isn't the running owner changes the shared field: at count 0 and state
/// default the object is queued, and otherwise one is subtracted (PEP 703, Biased Reference Counting).
pub fn release_choice(shared: Shared) -> SharedChoice
    ensures queue { (result ≡ SharedChoice.Queue) ↔ (shared ≡ at_zero) }
    ensures subtract { (result ≡ SharedChoice.Subtract) ↔ (shared ≢ at_zero) }
    ensures queued { shared ≡ at_zero
        → after_choice result shared ≡ record { count = pos 0; phase = Phase.Queued } }
    ensures less { shared ≢ at_zero
        → after_choice result shared ≡ record shared { count = shared.count -ℤ pos 1 } }
{
    if shared.count == 0 && shared.phase == Phase::Default {
        SharedChoice::Queue
    } else {
        SharedChoice::Subtract
    }
}

/// Returns the merged shared field, to whose count the local count is added (PEP 703, Biased Reference Counting).
pub fn merge_word(shared: Shared, local: u32) -> Shared
    requires { IsCount (total local shared.count) }
    ensures kept { total 0 result.count ≡ total local shared.count }
    ensures merged { result.phase ≡ Phase.Merged }
    ensures fits { IsCount result.count }
{
    Shared {
        count: shared.count + i64::from(local),
        phase: Phase::Merged,
    }
}
