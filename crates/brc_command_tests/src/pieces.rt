//! Files that are read in pieces, no further than their first line at fault.

use crate::acting::{Acted, FIRST, LEAKING, MISSPELT, SMALLEST, Tape, WHOLE, acts};
use brc_run::System;

const FIFTH: &[u8] = b"module 1\nfunc f\nnewref v1 v0\ndrop v1\nfai\n";

const PLAN: &[u8] = b"schedule 1\nworkers 1\nrows 4\ncall 1 f 1\nstep 0 ok 1\n";

const FIFTH_OF_PLAN: &[u8] = b"schedule 1\nworkers 1\nrows 4\ncall 1 f 1\nstep 0 on 1\n";

const ZEROS: Tape<'static> = (b"", true);

const FIFTH_SAID: &[u8] = b"unreadable line 5 L2\n";

const STEP: &[&str] = &["brc", "step", "m.brc", "s.txt"];

// A command line, the module and the schedule, and how many pieces of 16 bytes are asked for; the line on standard
// error.
const AT_FAULT: &[(&[&str], (Tape<'static>, Tape<'static>, usize), &[u8])] = &[
    (
        &["brc", "check", "m.brc"],
        (ZEROS, ZEROS, 1),
        b"unreadable line 1 L1\n",
    ),
    (
        &["brc", "check", "m.brc"],
        ((FIFTH, true), ZEROS, 3),
        FIFTH_SAID,
    ),
    (
        &["brc", "run", "m.brc", "--call", "f"],
        ((FIFTH, true), ZEROS, 3),
        FIFTH_SAID,
    ),
    (
        &["brc", "explain", "m.brc"],
        ((FIFTH, true), ZEROS, 3),
        FIFTH_SAID,
    ),
    (
        &["brc", "step", "m.brc", "s.txt"],
        ((FIFTH, true), (PLAN, false), 7),
        FIFTH_SAID,
    ),
    (
        &["brc", "step", "m.brc", "s.txt"],
        ((SMALLEST, false), (FIFTH_OF_PLAN, true), 6),
        b"unreadable schedule line 5 L2\n",
    ),
    (
        &["brc", "step", "m.brc", "s.txt", "--trace"],
        ((FIFTH, true), ZEROS, 4),
        FIFTH_SAID,
    ),
];

// Files that end. Cut in each place between two pieces, they are read as the whole.
const TEXTS: &[(&[u8], &[u8])] = &[
    (SMALLEST, PLAN),
    (SMALLEST, FIFTH_OF_PLAN),
    (SMALLEST, b"schedule 1\nworkers 1\n"),
    (FIRST, b""),
    (LEAKING, PLAN),
    (MISSPELT, FIFTH_OF_PLAN),
    (b"module 1\n", PLAN),
    (b"module 1\nfunc f\nfail\n", PLAN),
    (b"modul", PLAN),
];

/// Returns whether the command line stops for this reason, behind this number of pieces.
fn stops_at<R: System + AllocGlobal>(
    rt: &R,
    words: &[&str],
    (module, schedule, count): (Tape<'_>, Tape<'_>, usize),
    line: &[u8],
) -> bool {
    let acted = acts(rt, words, module, schedule, 16);
    acted.err.as_slice() == line && acted.status == 2 && acted.asked == count
}

fn is_same(acted: &Acted, whole: &Acted) -> bool {
    acted.out == whole.out && acted.err == whole.err && acted.status == whole.status
}

/// Returns a length of pieces of which the command reads something else, or 0.
fn misread_length<R: System + AllocGlobal>(rt: &R, module: &[u8], schedule: &[u8]) -> usize {
    let whole = acts(rt, STEP, (module, false), (schedule, false), WHOLE);
    let mut misread = 0;
    for length in 1..60 {
        let acted = acts(rt, STEP, (module, false), (schedule, false), length);
        if !is_same(&acted, &whole) {
            misread = length;
        }
    }
    misread
}

#[test]
fn reads_files_in_pieces(rt: HostRuntime) {
    for (words, files, line) in AT_FAULT {
        assert!(rt; stops_at(&rt, words, *files, line), "{words:?}");
    }
    for (module, schedule) in TEXTS {
        assert_eq!(rt;
            misread_length(&rt, module, schedule),
            0,
            "{module:?} {schedule:?}"
        );
    }
}
