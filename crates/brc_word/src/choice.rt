ghost use Rattle.std.specs.Prelude.{◌≡◌, ◌+◌, ◌-◌, ◌^◌, ◌≤◌, ◌↔◌, ◌==◌, ◌&&◌, nat_lt, if◌then◌else◌, pos, neg_ℤ};
ghost use Rattle.std.specs.Prelude.{IsTrue};
ghost use Rattle.brc_word.specs.Header.{IsLocalWord, OfHeader, IsImmortal, MayCount, HasRoom, is_store, IfStored};
ghost use Rattle.brc_word.specs.Header.{MovesTotal, IsMortalWord};
ghost use Rattle.brc_word.specs.Words.{owner_part, local_part, is_immortal_word, most_local};

use crate::local::{LOCAL_COUNTS, is_immortal};

/// The change of the local word by a retain or a release.
#[derive(Clone, Copy, Debug, PartialEq, Eq)]
pub enum LocalChoice {
    /// No change: the object is immortal.
    Skip,
    /// The new local word: the running owner counts locally (PEP 703, the quick path).
    Store(u64),
    /// No change of the local word: the shared field counts the reference.
    Share,
}

/// The greatest local count that the owner reaches by counting, one below the immortal one.
const MOST_COUNTED: u64 = LOCAL_COUNTS - 2;

/// Returns whether the thread may change the local count: it is the owner and is running.
fn may_count(word: u64, thread: u8, running: bool) -> bool
    ensures exact { OfHeader word (λ owner local. IsTrue result ↔ MayCount owner thread running) }
    ensures word { result ≡ (running && (owner_part word == thread + 1)) }
    ensures above { IsTrue result → 2 ^ 32 ≤ word }
{
    running && word / LOCAL_COUNTS == u64::from(thread) + 1
}

/// Returns how a retain by `thread` changes the local word (PEP 703, Biased Reference Counting: only the owner changes
/// the local count).
///
/// An owner that isn't `running` any more shares, and so does one whose count would become the immortal one.
pub fn retain_choice(word: u64, thread: u8, running: bool) -> LocalChoice
    ensures skip { OfHeader word (λ owner local. (result ≡ LocalChoice.Skip) ↔ IsImmortal local) }
    ensures store { OfHeader word (λ owner local.
        IsTrue (is_store result) ↔ (MayCount owner thread running × HasRoom local)) }
    ensures share { OfHeader word (λ owner local.
        (result ≡ LocalChoice.Share) ↔ (¬ IsImmortal local × ¬ (MayCount owner thread running × HasRoom local))) }

    // The word that is stored.
    ensures next { OfHeader word (λ owner local.
        IfStored result (λ next. IsLocalWord next owner (local + 1))) }
    ensures total { IfStored result (λ next. MovesTotal word next (pos 1)) }
    ensures mortal { IfStored result IsMortalWord }

    // The same, by the parts of the word.
    ensures word { result ≡ (if is_immortal_word word then LocalChoice.Skip
        else if (running && (owner_part word == thread + 1)) && nat_lt (local_part word) most_local
        then LocalChoice.Store (word + 1)
        else LocalChoice.Share) }
{
    if is_immortal(word) {
        return LocalChoice::Skip;
    }
    if may_count(word, thread, running) && word % LOCAL_COUNTS < MOST_COUNTED {
        return LocalChoice::Store(word + 1);
    }
    LocalChoice::Share
}

/// Returns how a release by `thread` changes the local word (PEP 703, Biased Reference Counting: only the owner changes
/// the local count).
///
/// A running owner's local count is at least 1.
pub fn release_choice_local(word: u64, thread: u8, running: bool) -> LocalChoice
    requires { IsTrue running → thread ≤ 32 → owner_part word ≡ thread + 1 → 1 ≤ local_part word }
    ensures skip { OfHeader word (λ owner local. (result ≡ LocalChoice.Skip) ↔ IsImmortal local) }
    ensures store { OfHeader word (λ owner local.
        IsTrue (is_store result) ↔ (¬ IsImmortal local × MayCount owner thread running)) }
    ensures share { OfHeader word (λ owner local.
        (result ≡ LocalChoice.Share) ↔ (¬ IsImmortal local × ¬ MayCount owner thread running)) }

    // The word that is stored.
    ensures next { OfHeader word (λ owner local.
        IfStored result (λ next. IsLocalWord next owner (local - 1))) }
    ensures total { IfStored result (λ next. MovesTotal word next (neg_ℤ (pos 1))) }
    ensures mortal { OfHeader word (λ owner local. IfStored result IsMortalWord) }

    // The same, by the parts of the word.
    ensures word { result ≡ (if is_immortal_word word then LocalChoice.Skip
        else if running && (owner_part word == thread + 1) then LocalChoice.Store (word - 1)
        else LocalChoice.Share) }
{
    if is_immortal(word) {
        return LocalChoice::Skip;
    }
    if may_count(word, thread, running) {
        return LocalChoice::Store(word - 1);
    }
    LocalChoice::Share
}
