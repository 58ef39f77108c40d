//! Files of cases that can't be read: the line at fault, and why.

use brc_case_format::{Texts, Why, read_cases};
use std::alloc::Global;

const FAULTS: &[(&str, usize, Why)] = &[
    ("# A comment.\n\nabout\n", 3, Why::UnknownLine),
    ("case one\n$ brc\nrow\n", 3, Why::UnknownLine),
    ("case one\n$ brc\nstatus 0\nrows 1\n", 4, Why::UnknownLine),
    ("case one\n$ brc\nterminal 80\n", 3, Why::UnknownLine),
    ("$ brc\n", 1, Why::NoCase),
    ("text one\nstatus 0\n", 2, Why::NoCase),
    ("case one\ncase two\n", 2, Why::NoBlankLine),
    ("case one\n$ brc\ntext two\n", 3, Why::NoBlankLine),
    ("case one\nstatus 0\n", 2, Why::OutOfOrder),
    ("case one\n$ brc\nout\n", 3, Why::OutOfOrder),
    (
        "case one\n$ brc\nfile m.brc\nterminal\n",
        4,
        Why::OutOfOrder,
    ),
    (
        "case one\n$ brc\nstatus 0\nfile m.brc\n",
        4,
        Why::OutOfOrder,
    ),
    ("case one\n$ brc\nstatus 0\n- row\n", 4, Why::OutOfOrder),
    ("case one\n| line\n", 2, Why::NoPlace),
    ("\n| line\n", 2, Why::NoPlace),
    (
        "case one\n$ brc\nstatus 0\nout narrow\n| line\n",
        5,
        Why::NoPlace,
    ),
    (
        "case one\n$ brc\nstatus 0\nout has\nerr\n",
        5,
        Why::NoContent,
    ),
    (
        "case one\n$ brc\nstatus 0\nout ends\n\"\"\n\n",
        6,
        Why::NoContent,
    ),
    (
        "case one\n$ brc\nstatus 0\nout stops\nerr stops\n",
        5,
        Why::NoContent,
    ),
    (
        "case one\n$ brc\nstatus 0\nout has\n\"<answer>\"\nerr has\n\"no\"\nrows\n- row\n",
        9,
        Why::NoContent,
    ),
    ("text \n", 1, Why::NoName),
    ("case\n", 1, Why::NoName),
    ("text one\n\ntext one\n", 3, Why::NameTwice),
    ("text one\n= two\n", 2, Why::NoText),
    ("text one\n\"cut off\n", 2, Why::Quoted),
    ("text one\n\"\\q\"\n", 2, Why::Quoted),
    ("text one\n\"\\x4g\"\n", 2, Why::Quoted),
    ("text one\n\"more\" more\n", 2, Why::Quoted),
    ("text one\n\"x\" times many\n", 2, Why::Number),
    ("case one\n$ brc\nstatus 256\n", 3, Why::Number),
    ("case one\n$ check m.brc\n", 2, Why::NoCommand),
    ("case one\n$ brc\n\ncase two\n", 3, Why::NoStatus),
    ("case one\n$ brc\nfile m.brc\n", 3, Why::NoStatus),
    ("case one\n$ brc\nfile m.brc gone\n", 3, Why::WrongWords),
    ("case one\n$ brc\nstatus 0\nout about\n", 4, Why::WrongWords),
    (
        "case one\n$ brc\nstatus 0\nsaved p.svg\n",
        4,
        Why::WrongWords,
    ),
    (
        "case one\n$ brc\nstatus 0\nsaved p.svg stops\n",
        4,
        Why::WrongWords,
    ),
    ("case one\n$ brc\nstatus 0\nall stops\n", 4, Why::WrongWords),
    (
        "case one\n$ brc\nstatus 0\nout has\n| part\nor\n",
        6,
        Why::NoAlternative,
    ),
    (
        "case one\n$ brc\nstatus 0\nout stops\n| text\nor\n",
        6,
        Why::NoAlternative,
    ),
];

/// Returns the line at fault and why, with line 0 for a file that is read.
fn fault_of(alloc: Global, source: &str) -> (usize, Option<Why>) {
    let mut texts = Texts::new(alloc);
    match read_cases(alloc, &mut texts, source) {
        Ok(_) => (0, None),
        Err(fault) => (fault.line, Some(fault.why)),
    }
}

#[test]
fn files_of_cases_have_faults_by_line(rt: HostRuntime) {
    for (source, line, why) in FAULTS {
        assert_eq!(rt;
            fault_of(rt.alloc(), source),
            (*line, Some(*why)),
            "{source}"
        );
    }
}
