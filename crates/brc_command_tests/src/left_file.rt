//! A run over the real host leaves its file.

use crate::acting::{NO_TEXT, WHOLE, acts};
use std::test::Fail;
use std::{env, fs, process};

/// The report of a run that makes one number.
const NUMBER_REPORT: &[u8] =
    b"threads 1\nrunning 0\ncreated 2\nclosed 2\nalive 0\nhost faults 0\nclose faults 0\n";

// Opens the second path for writing, makes the file where it is absent, and closes it.
const MAKES: &[u8] = b"module 1\nfunc f\nopen v1 1 wc else @2\ndrop v1\nfail\nend\n";

// The report is that of a run which has reached the file by its number, and has left it there, empty.
#[test]
fn a_run_leaves_its_file(rt: HostRuntime) -> Result<(), Fail> {
    let name = format!(in rt.alloc(); "brc-act-{}", process::id(rt.process()))?;
    let path = env::temp_dir(&rt)?
        .join(rt.alloc(), name.as_str())?
        .into_string();
    let words = [
        "brc",
        "run",
        "m.brc",
        "--call",
        "f",
        "--path",
        "/",
        "--path",
        path.as_str(),
    ];
    let acted = acts(&rt, words.as_slice(), (MAKES, false), NO_TEXT, WHOLE);
    assert_eq!(rt;
        (acted.out.as_slice(), acted.err.is_empty(), acted.status),
        (NUMBER_REPORT, true, 0)
    );
    assert_eq!(rt; fs::read(&rt, path.as_str())?.as_slice(), b"".as_slice());
    fs::remove_file(&rt, path.as_str())?;
    Ok(())
}
