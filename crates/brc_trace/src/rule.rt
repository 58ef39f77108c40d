//! The rules of the step relation, by name, and which of them a step goes by.

ghost use Rattle.std.specs.Prelude.{◌≡◌, if◌then◌else◌};
ghost use Rattle.brc_model.specs.Duties.{counts_locally};
ghost use Rattle.brc_trace.specs.Rules.{rule_name, rule_of, rule_at, retain_rule, release_rule, shared_rule, merge_rule};

use crate::word::owner_part;
use brc_effect::kinds::has_resource;
use brc_model::{Duty, Exit, Reason};
use brc_word::values::{FREE, NOBODY, RUNNING};
use brc_word::{is_dead, is_fresh, is_immortal, local_count};
use brc_world::Event;

/// A way in which a step can go. All but the last three are the rules of the model's step relation, in their order:
/// those of an object's life, and then those of a thread's exit.
#[derive(Clone, Copy)]
pub enum Rule {
    // a birth
    KindOfResource,
    KindOfOther,
    FieldFilled,
    Born,
    // a look at a kind, a lock, a cell, a resource
    KindRead,
    Locks,
    LockHeld,
    Unlocks,
    CellRead,
    ItemStored,
    ResourceLent,
    ResourceReturned,
    // a new reference
    RetainsImmortal,
    OwnerRetains,
    FullOwnerRetains,
    OtherRetains,
    LocalRaised,
    SharedRaised,
    // a release by the owner
    ReleasesImmortal,
    OwnerReleases,
    OtherReleases,
    LocalLowered,
    LocalReachesZero,
    NothingShared,
    WasShared,
    // a release by another thread
    SharedRead,
    Queues,
    Decrements,
    DecrementsToZero,
    ExchangeLost,
    // the queue of objects to be merged
    Marked,
    OwnerRuns,
    OwnerExits,
    MarkTakenBack,
    MarkGone,
    MarksLooked,
    MarkClaimed,
    NothingToClaim,
    // a merge
    NobodysCount,
    LocalTakenOut,
    MergeRead,
    Merges,
    MergesToZero,
    MergesForHanded,
    MergeLost,
    // a deallocation
    Chained,
    ChainRead,
    DyingResource,
    DyingCells,
    CellEmptied,
    FieldEmptied,
    ResourceClosed,
    Closes,
    // a thread's exit
    SaysLeaving,
    MarksRead,
    FoundMarkTaken,
    FoundMarkGone,
    SaysGone,
    // a step on no word
    /// The step changes the thread alone.
    Silent,
    /// A host call succeeds.
    HostAnswers,
    /// A host call faults.
    HostFaults,
}

impl Rule {
    /// Returns the rule's name.
    pub fn name(self) -> &'static str
        ensures { result.now ≡ rule_name self }
    {
        match self {
            Rule::KindOfResource => "KindOfResource",
            Rule::KindOfOther => "KindOfOther",
            Rule::FieldFilled => "FieldFilled",
            Rule::Born => "Born",
            Rule::KindRead => "KindRead",
            Rule::Locks => "Locks",
            Rule::LockHeld => "LockHeld",
            Rule::Unlocks => "Unlocks",
            Rule::CellRead => "CellRead",
            Rule::ItemStored => "ItemStored",
            Rule::ResourceLent => "ResourceLent",
            Rule::ResourceReturned => "ResourceReturned",
            Rule::RetainsImmortal => "RetainsImmortal",
            Rule::OwnerRetains => "OwnerRetains",
            Rule::FullOwnerRetains => "FullOwnerRetains",
            Rule::OtherRetains => "OtherRetains",
            Rule::LocalRaised => "LocalRaised",
            Rule::SharedRaised => "SharedRaised",
            Rule::ReleasesImmortal => "ReleasesImmortal",
            Rule::OwnerReleases => "OwnerReleases",
            Rule::OtherReleases => "OtherReleases",
            Rule::LocalLowered => "LocalLowered",
            Rule::LocalReachesZero => "LocalReachesZero",
            Rule::NothingShared => "NothingShared",
            Rule::WasShared => "WasShared",
            Rule::SharedRead => "SharedRead",
            Rule::Queues => "Queues",
            Rule::Decrements => "Decrements",
            Rule::DecrementsToZero => "DecrementsToZero",
            Rule::ExchangeLost => "ExchangeLost",
            Rule::Marked => "Marked",
            Rule::OwnerRuns => "OwnerRuns",
            Rule::OwnerExits => "OwnerExits",
            Rule::MarkTakenBack => "MarkTakenBack",
            Rule::MarkGone => "MarkGone",
            Rule::MarksLooked => "MarksLooked",
            Rule::MarkClaimed => "MarkClaimed",
            Rule::NothingToClaim => "NothingToClaim",
            Rule::NobodysCount => "NobodysCount",
            Rule::LocalTakenOut => "LocalTakenOut",
            Rule::MergeRead => "MergeRead",
            Rule::Merges => "Merges",
            Rule::MergesToZero => "MergesToZero",
            Rule::MergesForHanded => "MergesForHanded",
            Rule::MergeLost => "MergeLost",
            Rule::Chained => "Chained",
            Rule::ChainRead => "ChainRead",
            Rule::DyingResource => "DyingResource",
            Rule::DyingCells => "DyingCells",
            Rule::CellEmptied => "CellEmptied",
            Rule::FieldEmptied => "FieldEmptied",
            Rule::ResourceClosed => "ResourceClosed",
            Rule::Closes => "Closes",
            Rule::SaysLeaving => "SaysLeaving",
            Rule::MarksRead => "MarksRead",
            Rule::FoundMarkTaken => "FoundMarkTaken",
            Rule::FoundMarkGone => "FoundMarkGone",
            Rule::SaysGone => "SaysGone",
            Rule::Silent => "Silent",
            Rule::HostAnswers => "HostAnswers",
            Rule::HostFaults => "HostFaults",
        }
    }
}

/// Returns the rule by which thread `thread` takes the step. `running` says whether the thread runs.
pub fn rule_at(thread: u8, running: bool, event: Event) -> Rule
    ensures { result ≡ rule_at thread running event }
{
    match event {
        Event::Silent => Rule::Silent,
        Event::Calls(Exit::Success) => Rule::HostAnswers,
        Event::Calls(Exit::Fault) => Rule::HostFaults,
        Event::Does {
            duty,
            found,
            left,
            ..
        } => rule_of(thread, running, duty, found, left),
    }
}

/// Returns the rule by which the thread does the duty, whose step found one word and left the other. A mark was set if
/// the step that takes it has changed the word.
pub fn rule_of(thread: u8, running: bool, duty: Duty, found: u64, left: u64) -> Rule
    ensures { result ≡ rule_of thread running duty found left }
{
    match duty {
        Duty::BirthKind { word, .. } => either(
            has_resource(word),
            Rule::KindOfResource,
            Rule::KindOfOther,
        ),
        Duty::BirthField { .. } => Rule::FieldFilled,
        Duty::BirthLocal { .. } => Rule::Born,
        Duty::KindLoad { .. } => Rule::KindRead,
        Duty::LockGate { .. } => either(found == FREE, Rule::Locks, Rule::LockHeld),
        Duty::UnlockGate { .. } => Rule::Unlocks,
        Duty::CellLoad { .. } => Rule::CellRead,
        Duty::CellSwap { .. } => Rule::ItemStored,
        Duty::LendField { .. } => Rule::ResourceLent,
        Duty::ReturnField { .. } => Rule::ResourceReturned,
        Duty::RetainLoad { .. } => retain_rule(thread, running, found),
        Duty::RetainStore { .. } => Rule::LocalRaised,
        Duty::RetainAdd { .. } => Rule::SharedRaised,
        Duty::ReleaseLoad { .. } => release_rule(thread, running, found),
        Duty::ReleaseStore { word, .. } => either(
            local_count(word) == 1,
            Rule::LocalReachesZero,
            Rule::LocalLowered,
        ),
        Duty::DecideAtZero { .. } => {
            either(is_fresh(found), Rule::NothingShared, Rule::WasShared)
        }
        Duty::SharedLoad { .. } => Rule::SharedRead,
        Duty::SharedExchange { word, .. } => shared_rule(word, found, left),
        Duty::SetMark { .. } => Rule::Marked,
        Duty::Look { .. } => either(found == RUNNING, Rule::OwnerRuns, Rule::OwnerExits),
        Duty::TakeMark { .. } => either(left == found, Rule::MarkGone, Rule::MarkTakenBack),
        Duty::MarksLoad { .. } => Rule::MarksLooked,
        Duty::ClaimMark { .. } => either(left == found, Rule::NothingToClaim, Rule::MarkClaimed),
        Duty::MergeSwap { .. } => either(found == NOBODY, Rule::NobodysCount, Rule::LocalTakenOut),
        Duty::MergeLoad { .. } => Rule::MergeRead,
        Duty::MergeExchange { word, reason, .. } => merge_rule(reason, word, found, left),
        Duty::Die { .. } => Rule::Chained,
        Duty::Settle => Rule::ChainRead,
        Duty::SettleKind { .. } => {
            either(has_resource(found), Rule::DyingResource, Rule::DyingCells)
        }
        Duty::SettleCell { .. } => Rule::CellEmptied,
        Duty::TakeField { .. } => Rule::FieldEmptied,
        Duty::CloseResource { .. } => Rule::ResourceClosed,
        Duty::SettleEnd { .. } => Rule::Closes,
        Duty::Leave { .. } => Rule::SaysLeaving,
        Duty::Scan { .. } => Rule::MarksRead,
        Duty::TakeFound { .. } => either(left == found, Rule::FoundMarkGone, Rule::FoundMarkTaken),
        Duty::Finish => Rule::SaysGone,
    }
}

/// Returns the one rule if the test holds, and otherwise the other.
fn either(test: bool, one: Rule, other: Rule) -> Rule
    ensures { result ≡ (if test then one else other) }
{
    if test { one } else { other }
}

fn retain_rule(thread: u8, running: bool, found: u64) -> Rule
    ensures { result ≡ retain_rule thread running found }
{
    if is_immortal(found) {
        Rule::RetainsImmortal
    } else if counts_locally(thread, running, found) {
        either(
            local_count(found) < u32::MAX - 1,
            Rule::OwnerRetains,
            Rule::FullOwnerRetains,
        )
    } else {
        Rule::OtherRetains
    }
}

fn release_rule(thread: u8, running: bool, found: u64) -> Rule
    ensures { result ≡ release_rule thread running found }
{
    if is_immortal(found) {
        Rule::ReleasesImmortal
    } else {
        either(
            counts_locally(thread, running, found),
            Rule::OwnerReleases,
            Rule::OtherReleases,
        )
    }
}

/// Returns whether the thread counts in the local word: it runs and owns the object.
fn counts_locally(thread: u8, running: bool, word: u64) -> bool
    ensures { result ≡ counts_locally thread running word }
{
    running && owner_part(word) == u64::from(thread) + 1
}

fn shared_rule(word: u64, found: u64, left: u64) -> Rule
    ensures { result ≡ shared_rule word found left }
{
    if found != word {
        Rule::ExchangeLost
    } else if is_fresh(word) {
        Rule::Queues
    } else {
        either(is_dead(left), Rule::DecrementsToZero, Rule::Decrements)
    }
}

fn merge_rule(reason: Reason, word: u64, found: u64, left: u64) -> Rule
    ensures { result ≡ merge_rule reason word found left }
{
    if found != word {
        return Rule::MergeLost;
    }
    match reason {
        Reason::Own => either(is_dead(left), Rule::MergesToZero, Rule::Merges),
        Reason::Handed => Rule::MergesForHanded,
    }
}
