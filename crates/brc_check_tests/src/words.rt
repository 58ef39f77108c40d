//! The words of an object's header.

ghost use Rattle.std.specs.Prelude.{◌≡◌};

use brc_word::{
    LocalChoice, Phase, Shared, SharedChoice, closed, dying, is_closed, is_dead, is_fresh,
    is_immortal, kind_argument, kind_number, kind_word, local_count, local_with_one_less,
    local_with_one_more, local_word, locked, merge_word, merged, next_of_dying, pack, read_local,
    release_choice, release_choice_local, released, retain_choice, shared_with_one_more, unpack,
};
use std::test::*;

fn shared(count: i64, phase: Phase) -> Shared
    ensures { result ≡ record { count = count; phase = phase } }
{
    Shared { count, phase }
}

/// What shared words pack, and what a retain, a release and a merge leave of them.
fn shared_words() -> ([u64; 3], [u64; 2], [u64; 4], [u64; 2]) {
    (
        [
            pack(shared(0, Phase::Default)),
            pack(shared(-1, Phase::Queued)),
            pack(shared(2, Phase::Merged)),
        ],
        [
            shared_with_one_more(4398046511104),
            shared_with_one_more(4398046511102),
        ],
        // At count 0 and state default the object is queued; otherwise one is subtracted.
        [
            released(4398046511104),
            released(4398046511106),
            released(4398046511108),
            released(4398046511111),
        ],
        // The shared count -1 and three local references; then a new object and none.
        [merged(4398046511102, 3), merged(4398046511104, 0)],
    )
}

const SHARED_WORDS: ([u64; 3], [u64; 2], [u64; 4], [u64; 2]) = (
    [4398046511104, 4398046511102, 4398046511115],
    [4398046511108, 4398046511106],
    [4398046511106, 4398046511102, 4398046511104, 4398046511107],
    [4398046511115, 4398046511107],
);

/// What shared words unpack, and which of them are fresh, and dead.
fn of_shared_words() -> ([Option<Shared>; 3], [bool; 2], [bool; 3]) {
    (
        [
            unpack(4398046511102),
            unpack(8796093022208),
            unpack(4398046511105),
        ],
        [is_fresh(4398046511104), is_fresh(4398046511106)],
        [
            is_dead(4398046511107),
            is_dead(4398046511104),
            is_dead(4398046511111),
        ],
    )
}

/// Local words.
fn local_words() -> [u64; 6] {
    [
        local_word(None, 0),
        local_word(Some(3), 2),
        local_with_one_more(4294967297),
        local_with_one_more(8589934590),
        local_with_one_less(4294967298),
        local_with_one_less(4294967297),
    ]
}

const LOCAL_WORDS: [u64; 6] = [
    0,
    17179869186,
    4294967298,
    8589934591,
    4294967297,
    4294967296,
];

/// What local words count, what is read of them, and which are immortal.
fn of_local_words() -> ([u32; 3], [Option<(u8, u32)>; 2], [bool; 2]) {
    (
        [
            local_count(17179869186),
            local_count(8589934591),
            local_count(0),
        ],
        [read_local(17179869186), read_local(0)],
        [is_immortal(8589934591), is_immortal(8589934590)],
    )
}

/// What a retain chooses, and a release by the owner.
fn local_choices() -> ([LocalChoice; 3], [LocalChoice; 2]) {
    (
        [
            retain_choice(8589934590, 0, true),
            retain_choice(8589934591, 0, true),
            retain_choice(4294967297, 0, true),
        ],
        [
            release_choice_local(4294967298, 0, true),
            release_choice_local(4294967298, 1, true),
        ],
    )
}

const LOCAL_CHOICES: ([LocalChoice; 3], [LocalChoice; 2]) = (
    [
        LocalChoice::Share,
        LocalChoice::Skip,
        LocalChoice::Store(4294967298),
    ],
    [LocalChoice::Store(4294967297), LocalChoice::Share],
);

/// What a release by another thread chooses, and what a merge leaves.
fn shared_choices() -> ([SharedChoice; 2], Shared) {
    (
        [
            release_choice(shared(0, Phase::Default)),
            release_choice(shared(0, Phase::Queued)),
        ],
        merge_word(shared(-1, Phase::Queued), 3),
    )
}

/// The words of gates and kinds.
fn gates_and_kinds() -> [u64; 6] {
    [
        locked(0),
        locked(32),
        dying(1, 2),
        dying(0, 0),
        closed(),
        kind_word(3, 8),
    ]
}

const GATES_AND_KINDS: [u64; 6] = [
    2,
    34,
    8589934594,
    4294967296,
    9223372036854775808,
    12884901896,
];

/// The parts of these words, and which gates are closed.
fn of_gates_and_kinds() -> ([u32; 4], [bool; 3]) {
    (
        [
            next_of_dying(8589934594),
            next_of_dying(4294967296),
            kind_number(12884901896),
            kind_argument(12884901896),
        ],
        [
            is_closed(9223372036854775808),
            is_closed(8589934594),
            is_closed(0),
        ],
    )
}

#[test]
fn words_of_headers(rt: HostRuntime) {
    assert_eq!(rt; shared_words(), SHARED_WORDS);
    let unpacked = [Some(shared(-1, Phase::Queued)), None, None];
    let wanted = (unpacked, [true, false], [true, false, false]);
    assert_eq!(rt; of_shared_words(), wanted);
    assert_eq!(rt; local_words(), LOCAL_WORDS);
    let wanted = ([2, 4294967295, 0], [Some((3, 2)), None], [true, false]);
    assert_eq!(rt; of_local_words(), wanted);
    assert_eq!(rt; local_choices(), LOCAL_CHOICES);
    let chosen = [SharedChoice::Queue, SharedChoice::Subtract];
    assert_eq!(rt; shared_choices(), (chosen, shared(2, Phase::Merged)));
    assert_eq!(rt; gates_and_kinds(), GATES_AND_KINDS);
    let wanted = ([2, 0, 3, 8], [true, false, false]);
    assert_eq!(rt; of_gates_and_kinds(), wanted);
}
