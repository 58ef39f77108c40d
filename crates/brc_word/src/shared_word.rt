//! The changes and the tests of the shared word.

ghost use Rattle.std.specs.Prelude.{◌≡◌, ◌≢◌, ◌+◌, ◌*◌, ◌≤◌, ◌<◌, ◌==◌, ◌↔◌, pos, ◌+ℤ◌, IsTrue};
ghost use Rattle.brc_word.specs.declared.shared.Phase.{Phase};
ghost use Rattle.brc_word.specs.declared.shared.Shared.{Shared};
ghost use Rattle.brc_word.specs.declared.shared.SharedChoice.{SharedChoice};
ghost use Rattle.brc_word.specs.Header.{IsCount, IsSharedWord, total, at_zero, at_end, after_choice};
ghost use Rattle.brc_word.specs.Words.{biased_part, phase_part, bias, fresh_word, dead_word, released_word};
ghost use Rattle.brc_word.specs.Words.{merged_word};

use crate::values::{MERGED, ONE_REFERENCE, QUEUED};

/// The word of count 0 and state default.
const FRESH: u64 = 1 << 42;
/// The word of count 0 and state merged.
const DEAD: u64 = FRESH + MERGED;

/// Returns the shared word after a shared retain: an atomic add, which keeps the state (PEP 703, Biased Reference
/// Counting).
pub fn shared_with_one_more(word: u64) -> u64
    requires { biased_part word + 1 < 2 * bias }
    ensures word { result ≡ word + ONE_REFERENCE }
    ensures header { (shared : Shared) → IsCount shared.count → IsSharedWord word shared
        → IsSharedWord result (record shared { count = shared.count +ℤ pos 1 }) }
{
    word + ONE_REFERENCE
}

/// Returns the shared word after a release by a thread that isn't the running owner: at count 0 and state default the
/// object is queued for its owner to merge, and otherwise one is subtracted (PEP 703, Biased Reference Counting).
///
/// It is computed before the exchange that stores it, when nothing is known of the word: at the least count the
/// subtraction wraps.
pub fn released(word: u64) -> u64
    ensures word { 1 ≤ biased_part word → biased_part word < 2 * bias → result ≡ released_word word }
    ensures queued { IsSharedWord word at_zero
        → IsSharedWord result (after_choice SharedChoice.Queue at_zero) }
    ensures less { (shared : Shared) → IsCount shared.count → IsSharedWord word shared → shared ≢ at_zero
        → 1 ≤ biased_part word
        → IsSharedWord result (after_choice SharedChoice.Subtract shared) }
{
    // An exchange waits for this word, so it is computed from the word alone, without a jump on its state.
    if is_fresh(word) {
        word.wrapping_add(QUEUED)
    } else {
        word.wrapping_sub(ONE_REFERENCE)
    }
}

/// Returns the shared word after a merge, which adds the local count `carried` and sets the state to merged (PEP 703,
/// Biased Reference Counting).
///
/// It is computed before the exchange that stores it, when nothing is known of the word: past the greatest count the
/// sum wraps.
pub fn merged(word: u64, carried: u32) -> u64
    ensures word { biased_part word + carried < 2 * bias → result ≡ merged_word word carried }
    ensures header { (shared : Shared) → IsCount shared.count → IsSharedWord word shared
        → biased_part word + carried < 2 * bias
        → IsSharedWord result (record { count = total carried shared.count; phase = Phase.Merged }) }
{
    (word / ONE_REFERENCE)
        .wrapping_add(u64::from(carried))
        .wrapping_mul(ONE_REFERENCE)
        .wrapping_add(MERGED)
}

/// Returns whether the shared word is that of a new object: count 0 and state default.
pub fn is_fresh(word: u64) -> bool
    ensures word { result ≡ (word == fresh_word) }
    ensures header { IsTrue result ↔ IsSharedWord word at_zero }
{
    word == FRESH
}

/// Returns whether no reference is left and nobody owns the object: count 0 and state merged.
pub fn is_dead(word: u64) -> bool
    ensures word { result ≡ (word == dead_word) }
    ensures header { IsTrue result ↔ IsSharedWord word at_end }
{
    word == DEAD
}
