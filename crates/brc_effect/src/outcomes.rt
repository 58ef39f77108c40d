//! How the steps of a release and of a merge end, by the words found. The step world reads off an answer which duties
//! follow, and a real thread what it does next.

ghost use Rattle.std.specs.Prelude.{◌≡◌, ◌≤◌, ◌<◌, ◌+◌, ◌*◌, ◌==◌, true};
ghost use Rattle.brc_word.specs.Words.{owner_part, local_part, biased_part, bias};
ghost use Rattle.brc_effect.specs.Outcomes.{local_answer, zero_answer, shared_answer, merge_answer, taken_answer};

use brc_word::values::{RUNNING, SET};
use brc_word::{
    LocalChoice, is_dead, is_fresh, local_count, merged, release_choice_local, released,
};

/// How a release through the local word ended.
#[derive(Clone, Copy, Debug, PartialEq, Eq)]
pub enum LocalRelease {
    /// The object is immortal, and isn't counted.
    Skip,
    /// The local count went down, and local references are left.
    Kept,
    /// The last local reference is gone: what becomes of the object is to be decided.
    Zero,
    /// The thread doesn't count the object locally: the reference is to be given up in the shared word.
    Share,
}

/// What becomes of an object whose last local reference is gone.
#[derive(Clone, Copy, Debug, PartialEq, Eq)]
pub enum ZeroStep {
    /// No reference is left. The object is in the thread's dying chain.
    Dying,
    /// The counts are to be merged.
    Merge,
}

/// How a try to release through the shared word ended.
#[derive(Clone, Copy, Debug, PartialEq, Eq)]
pub enum SharedRelease {
    /// The shared count went down, and references are left.
    Kept,
    /// The reference is handed to the owner's queue: the thread has still to set the object's mark.
    Queued,
    /// No reference is left. The object is in the thread's dying chain.
    Dying,
    /// Another thread changed the shared word in between: try again.
    Again,
}

/// How a try to merge ended.
#[derive(Clone, Copy, Debug, PartialEq, Eq)]
pub enum MergeStep {
    /// The counts are merged, and references are left.
    Kept,
    /// No reference is left. The object is in the thread's dying chain.
    Dying,
    /// Another thread changed the shared word in between: try again.
    Again,
}

/// What a thread has found that looked after an object in its owner's queue.
#[derive(Clone, Copy, Debug, PartialEq, Eq)]
pub enum Looked {
    /// The owner runs, and finds the object in its queue; or the owner's exit has found it already.
    Left,
    /// The owner doesn't run any more. The thread has taken the object out of the queue, and has to merge it.
    Claimed,
}

/// Returns how a release by the thread ends that has loaded this local word. (PEP 703, Biased Reference Counting:
/// `Py_DECREF`.) A running owner releases through the local word, and any other thread through the shared word: while
/// the owner runs, only the owner may merge (`other_thread_merges`). At zero the shared word decides what follows
/// (`last_local_reference_missed`), because other threads may still count references there. Rules `ReleasesImmortal`,
/// `OwnerReleases`, `OtherReleases`; `LocalLowered` and `LocalReachesZero`.
#[inline(always)]
pub fn local_release(word: u64, thread: u8, running: bool) -> LocalRelease
    requires { running ≡ true → owner_part word ≡ thread + 1 → 1 ≤ local_part word }
    ensures { result ≡ local_answer thread running word }
{
    match release_choice_local(word, thread, running) {
        LocalChoice::Skip => LocalRelease::Skip,
        LocalChoice::Store(_) => {
            if local_count(word) == 1 {
                LocalRelease::Zero
            } else {
                LocalRelease::Kept
            }
        }
        LocalChoice::Share => LocalRelease::Share,
    }
}

/// Returns what becomes of an object without a local reference, by its shared word. (PEP 703, Biased Reference
/// Counting: the owner frees the object, or merges the counts.) At (0, default) no other thread holds a reference, and
/// the object dies (`unshared_object_leaks`). Any other word has to be merged first, because its count may be above or
/// below zero (`free_without_shared`). Rules `NothingShared` and `WasShared`.
#[inline(always)]
pub fn zero_step(found: u64) -> ZeroStep
    ensures { result ≡ zero_answer found }
{
    if is_fresh(found) {
        ZeroStep::Dying
    } else {
        ZeroStep::Merge
    }
}

/// Returns how the compare-exchange of a release through the shared word ends: `word` was loaded, and the exchange
/// found `found`. If another thread has changed the word since the load, the thread retries
/// (`lost_exchange_forgotten`). At (0, default) the object was queued, and its mark is still to be set. If the object
/// is merged and has no reference left, this thread deallocates it (`death_tested_before_decrement`). Rules `Queues`,
/// `Decrements`, `DecrementsToZero` and `ExchangeLost`.
#[inline(always)]
pub fn shared_release(word: u64, found: u64) -> SharedRelease
    requires counted { found ≡ word → 1 ≤ biased_part word }
    requires fits { found ≡ word → biased_part word < 2 * bias }
    ensures { result ≡ shared_answer word found }
{
    if found != word {
        SharedRelease::Again
    } else if is_fresh(word) {
        SharedRelease::Queued
    } else if is_dead(released(word)) {
        SharedRelease::Dying
    } else {
        SharedRelease::Kept
    }
}

/// Returns how the compare-exchange of a merge ends: `word` was loaded, to which `carried` local references were to be
/// added, and the exchange found `found`. (PEP 703, Biased Reference Counting: a merged object is freed at shared count
/// zero.) If another thread has changed the word since the load, the thread retries. If no reference is left, the
/// object dies (`death_tested_before_merge`). Rules `Merges`, `MergesToZero` and `MergeLost`.
#[inline(always)]
pub fn merge_step(word: u64, carried: u32, found: u64) -> MergeStep
    requires total { found ≡ word → biased_part word + carried < 2 * bias }
    ensures { result ≡ merge_answer carried word found }
{
    if found != word {
        MergeStep::Again
    } else if is_dead(merged(word, carried)) {
        MergeStep::Dying
    } else {
        MergeStep::Kept
    }
}

/// Returns whether the thread of this word runs. A running owner will find the mark that another thread has set
/// (`look_at_own_word`). If the owner is exiting or has exited, that thread takes the mark back. It sets the mark
/// before it looks, and the owner announces its exit before it scans, so at least one of the two finds the mark
/// (`post_without_look`). Rules `OwnerRuns` and `OwnerExits`.
#[inline(always)]
pub fn runs(said: u64) -> bool
    ensures { result ≡ (said == RUNNING) }
{
    said == RUNNING
}

/// Returns what a thread that takes a mark has found there: only one that finds it set may merge the object. Rules
/// `MarkTakenBack` and `MarkGone`.
#[inline(always)]
pub fn taken(mark: u64) -> Looked
    ensures { result ≡ taken_answer mark }
{
    if mark == SET {
        Looked::Claimed
    } else {
        Looked::Left
    }
}
