//! The commands write all that an explanation says: what is on standard output is compared, byte by byte, with what
//! `brc_explain` and `brc_pages` write themselves.

use crate::acting::{FIRST, MISSPELT, NO_TEXT, WHOLE, acts};
use brc_check::{CheckCode, check, infer};
use brc_explain::{explain_accepted, explain_refused, explain_unreadable};
use brc_lang::{FaultCode, read};
use brc_pages::{Topic, write_page};
use brc_report::Paint;
use brc_run::System;
use std::alloc::Global;

/// `keep` steals the number, and puts it into the root.
const KEEP: &[u8] =
    b"module 2\nfunc keep steal num\nlock v0\nset v0 0 v1 else @2\nunlock v0\nfail\nend\n\
      func f\nnum v1 7 else @3\ncall v2 keep v1 else @3\ndrop v2\nfail\nend\n";

/// An item of the static list is fetched and given up.
const FETCHED: &[u8] =
    b"module 3\nstatic 5 6\nfunc f\ntake v1 0\nlock v1\nfetch v2 v1 1 else @6\nunlock v1\ndrop v2\ngoto @7\n\
      unlock v1\ndrop v1\nfail\nend\n";

/// A reference to a static list is left, though nothing counts it.
const KEPT: &[u8] =
    b"module 3\nstatic 5 6\nstatic 7\nfunc e\nfail\nend\nfunc f\ntake v1 1\nfail\nend\n";

/// There is one static list, of the number 0.
const NOT_THERE: &[u8] = b"module 3\nstatic 5 6\nfunc f\ntake v1 1\ndrop v1\nfail\nend\n";

/// A module whose explanation is long: two paths reach its last instruction, and only one of them owns.
const TWO_PATHS: &[u8] =
    b"module 1\nfunc f\nlist v1 8 else @9\nnewref v2 v1\nlock v1\nset v1 0 v2 else @5\nnone v2\nunlock v1\n\
      as v0 list else @8\ndrop v1\nnum v1 7 else @9\nfail\nend\n";

const MODULES: &[&[u8]] = &[
    FIRST, TWO_PATHS, KEEP, FETCHED, KEPT, NOT_THERE, MISSPELT, b"",
];

// Codes, and what they are codes of.
const TOPICS: &[(&str, Topic)] = &[
    ("C10", Topic::Check(CheckCode::StatesDiffer)),
    ("L4", Topic::Read(FaultCode::Target)),
];

/// Writes the explanation of the module of this text, if no memory is refused.
fn explain(alloc: Global, text: &[u8], out: &mut Vec<u8>) {
    let module = match read(alloc, text) {
        Ok(module) => module,
        Err(fault) => {
            let _ = explain_unreadable(text, &fault, Paint::Plain, out);
            return;
        }
    };
    if let Err(refused) = infer(alloc, &module) {
        let _ = explain_refused(alloc, &module, &refused, None, Paint::Plain, out);
        return;
    }
    if let Ok(checked) = check(alloc, module) {
        let _ = explain_accepted(alloc, &checked, None, Paint::Plain, out);
    }
}

/// Returns whether the command writes the explanation of the module, and nothing else.
fn explains_module<R: System + AllocGlobal>(rt: &R, module: &[u8]) -> bool {
    let words = ["brc", "explain", "m.brc"];
    let acted = acts(rt, words.as_slice(), (module, false), NO_TEXT, WHOLE);
    let mut text: Vec<u8> = Vec::new(rt.alloc());
    explain(rt.alloc(), module, &mut text);
    acted.out == text
}

/// Returns whether the command writes the page of the code, and nothing else.
fn explains_code<R: System + AllocGlobal>(rt: &R, code: &str, topic: Topic) -> bool {
    let words = ["brc", "explain", "--code", code];
    let acted = acts(rt, words.as_slice(), NO_TEXT, NO_TEXT, WHOLE);
    let mut page: Vec<u8> = Vec::new(rt.alloc());
    write_page(topic, Paint::Plain, &mut page).is_ok() && acted.out == page
}

#[test]
fn explanations_are_written_whole(rt: HostRuntime) {
    for module in MODULES {
        assert!(rt; explains_module(&rt, module), "{module:?}");
    }
    for (code, topic) in TOPICS {
        assert!(rt; explains_code(&rt, code, *topic), "{code}");
    }
}
