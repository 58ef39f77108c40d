//! Texts that are written: instructions, modules, as they were read and over writers that stop, numbers, and reports.

use crate::instructions::{INSTRUCTIONS, is_case};
use crate::modules::module_of;
use crate::schedules::read_schedules;
use brc_lang::{
    FaultCode, Kind, Module, ReadFault, Sequence, read, write, write_bytes, write_number,
};
use brc_report::{Left, Tally, write_entry, write_tally};
use std::alloc::{AllocError, Global};
use std::io;
use std::io::{ErrorKind, Write};
use std::test::*;

const SMALLEST: &[u8] = b"module 1\nfunc f\nfail\nend\n";

/// Texts of each version: with the longest name, with each word of parameters, with each number of arguments, and with
/// static lists.
const TEXTS: &[&[u8]] = &[
    SMALLEST,
    b"module 1\nfunc a23456789_bcdefg\nnewref v15 v10\ndrop v0\nret v9\nend\n",
    b"module 1\nfunc f\nnewref v15 v0\ndrop v15\nret v0\nend\nfunc g_2\nfail\nend\nfunc h\nnone v15\nmove v0 v15\n\
      goto @3\nfail\nend\n",
    b"module 2\nfunc keep borrow any steal num\ndrop v2\nfail\nend\nfunc h\nfail\nend\nfunc f\n\
      call v3 keep v0 v15 else @2\ncall v4 h else @2\nfail\nend\n",
    b"module 2\nfunc f\nfail\nend\n",
    b"module 2\nfunc four borrow none steal num borrow list steal file\nfail\nend\nfunc one borrow sock\nfail\nend\n\
      func two steal any borrow any\nret v1\nend\nfunc three borrow any borrow any borrow any\nfail\nend\n\
      func none_0\nfail\nend\nfunc f\ncall v1 four v15 v0 v9 v10 else @1\ncall v15 one v0 else @2\n\
      call v0 two v0 v0 else @5\ncall v10 three v1 v2 v3 else @4\ncall v9 none_0 else @5\nfail\nend\n",
    b"module 3\nfunc f\nfail\nend\n",
    b"module 3\nstatic 0\nstatic 5 6 4294967295\nfunc k borrow any\nfail\nend\nfunc f\ntake v1 1\ntake v15 0\n\
      list v2 64 else @4\ncall v3 k v1 else @4\nfail\nend\n",
];

/// The text of 64 functions of 256 instructions each, with the greatest numbers.
fn largest(alloc: Global) -> Result<Vec<u8>, AllocError> {
    let mut text = Vec::from_slice(alloc, b"module 1\n")?;
    for number in 0..64u8 {
        text.extend_from_slice(b"func f")?;
        text.extend_from_slice(&[b'0' + number / 10, b'0' + number % 10, b'\n'])?;
        text.extend_from_slice(b"num v15 4294967295 else @255\n")?;
        for _ in 0..255 {
            text.extend_from_slice(b"fail\n")?;
        }
        text.extend_from_slice(b"end\n")?;
    }
    Ok(text)
}

/// Whether the module that a text is read as is written as this text.
pub fn is_written_back(alloc: Global, text: &[u8]) -> Result<bool, Fail> {
    match read(alloc, text) {
        Ok(module) => is_written_as(alloc, &module, text),
        Err(_) => Ok(false),
    }
}

/// Whether the module is written as this text.
fn is_written_as(alloc: Global, module: &Module, text: &[u8]) -> Result<bool, Fail> {
    let mut out: Vec<u8> = Vec::new(alloc);
    write(module, &mut out)?;
    Ok(out.as_slice() == text)
}

/// Takes one byte a call, until none is left to take. Then it takes none, or is interrupted.
#[derive(Drop)]
struct Narrow {
    taken: Vec<u8>,
    left: usize,
    interrupts: bool,
}

impl Write for Narrow {
    fn write(&mut self, buf: &[u8]) -> io::Result<usize> {
        if self.left == 0 || buf.is_empty() {
            return if self.interrupts {
                Err(io::Error::from(ErrorKind::Interrupted))
            } else {
                Ok(0)
            };
        }
        self.taken.push(buf[0])?;
        self.left -= 1;
        Ok(1)
    }

    fn flush(&mut self) -> io::Result<()> {
        Ok(())
    }
}

/// Whether a writer that takes so many bytes gets the beginning of the smallest module, and no error only if it takes
/// all.
fn writes_beginning(alloc: Global, module: &Module, interrupts: bool, left: usize) -> bool {
    let mut writer = Narrow {
        taken: Vec::new(alloc),
        left,
        interrupts,
    };
    let is_whole = write(module, &mut writer).is_ok();
    is_whole == (left == SMALLEST.len())
        && writer.taken.len() == left
        && SMALLEST.starts_with(writer.taken.as_slice())
}

/// Whether two mebibytes are written as they are.
fn writes_two_mebibytes(alloc: Global) -> Result<bool, Fail> {
    let text = vec![in alloc; b'x'; 2 * 1024 * 1024]?;
    let mut out: Vec<u8> = Vec::new(alloc);
    write_bytes(&text, &mut out)?;
    Ok(out.as_slice() == text.as_slice())
}

/// The number of items of a list to which `count` items were appended.
fn pushed(alloc: Global, count: u32) -> Result<usize, AllocError> {
    let mut items = Sequence::new(alloc);
    for item in 0..count {
        items.push(item)?;
    }
    Ok(items.len())
}

/// Numbers and their digits.
const NUMBERS: &[(u64, &[u8])] = &[
    (0, b"0"),
    (15, b"15"),
    (4294967295, b"4294967295"),
    (u64::MAX, b"18446744073709551615"),
];

/// Whether a number is written as these digits, alone and in an entry of a report.
fn has_digits(alloc: Global, number: u64, digits: &[u8]) -> Result<bool, Fail> {
    let mut out: Vec<u8> = Vec::new(alloc);
    write_number(number, &mut out)?;
    let is_number = out.as_slice() == digits;
    let mut entry: Vec<u8> = Vec::new(alloc);
    write_entry(b"left", number, &mut entry)?;
    let is_entry = entry.starts_with(b"left ") && entry.ends_with(digits);
    Ok(is_number && is_entry && entry.len() == digits.len().saturating_add(5))
}

/// The numbers of a report, what is left, and the report.
type Report = ([u64; 7], &'static [Left], &'static [u8]);

/// The last report has the greatest numbers.
const REPORTS: &[Report] = &[
    (
        [32, 33, u64::MAX, 0, 2, 5, 6],
        &[
            Left {
                row: 1,
                kind: Kind::List,
            },
            Left {
                row: 1026,
                kind: Kind::Sock,
            },
        ],
        b"threads 32\nrunning 33\ncreated 18446744073709551615\nclosed 0\nalive 2\nhost faults 5\nclose faults 6\n\
          left 1 list\nleft 1026 sock\n",
    ),
    (
        [u64::MAX; 7],
        &[Left {
            row: u32::MAX,
            kind: Kind::Any,
        }],
        b"threads 18446744073709551615\nrunning 18446744073709551615\ncreated 18446744073709551615\n\
          closed 18446744073709551615\nalive 18446744073709551615\nhost faults 18446744073709551615\n\
          close faults 18446744073709551615\nleft 4294967295 any\n",
    ),
];

/// Whether the report of these numbers, in the order of its lines, and of what is left, is this text.
fn is_reported(alloc: Global, report: &Report) -> Result<bool, Fail> {
    let (numbers, lefts, text) = *report;
    let mut left = Sequence::new(alloc);
    for object in lefts {
        left.push(*object)?;
    }
    let [
        threads,
        running,
        created,
        closed,
        alive,
        host_faults,
        close_faults,
    ] = numbers;
    let tally = Tally {
        threads,
        running,
        created,
        closed,
        alive,
        host_faults,
        close_faults,
        left,
    };
    let mut out: Vec<u8> = Vec::new(alloc);
    write_tally(&tally, &mut out)?;
    Ok(out.as_slice() == text)
}

/// Whether a fault in the last line that there can be prints its number.
fn is_last_line_printed(alloc: Global) -> Result<bool, Fail> {
    let fault = ReadFault {
        line: u64::MAX,
        code: FaultCode::NoMemory,
    };
    let text = format!(in alloc; "{fault}")?;
    Ok(text.as_str() == "line 18446744073709551615 L8")
}

/// The stops of a writer that takes only some of the smallest module's bytes, after which the text isn't its beginning.
fn wrong_stops(alloc: Global, interrupts: bool) -> Result<usize, Fail> {
    let smallest = module_of(alloc, SMALLEST)?;
    let mut wrong: usize = 0;
    for left in 0..=SMALLEST.len() {
        if !writes_beginning(alloc, &smallest, interrupts, left) {
            wrong = wrong.saturating_add(1);
        }
    }
    Ok(wrong)
}

/// Whether the largest module is written back, two mebibytes are written as they are, and a fault in the last line
/// prints its number; and how many items of 100,000 are in a list to which they were appended.
fn written(alloc: Global) -> Result<([bool; 3], usize), Fail> {
    let are_written = [
        is_written_back(alloc, &largest(alloc)?)?,
        writes_two_mebibytes(alloc)?,
        is_last_line_printed(alloc)?,
    ];
    Ok((are_written, pushed(alloc, 100_000)?))
}

/// Instructions are read and written, and schedules are read.
#[test]
fn texts_are_read_and_written(rt: HostRuntime) -> Result<(), Fail> {
    let alloc = rt.alloc();
    for row in INSTRUCTIONS.lines() {
        assert!(rt; is_case(alloc, row)?, "{row}");
    }
    for text in TEXTS {
        assert!(rt; is_written_back(alloc, text)?, "{text:?}");
    }
    for (number, digits) in NUMBERS {
        assert!(rt; has_digits(alloc, *number, digits)?, "{number}");
    }
    for report in REPORTS {
        assert!(rt; is_reported(alloc, report)?, "{:?}", report.0);
    }
    for interrupts in [false, true] {
        assert_eq!(rt; wrong_stops(alloc, interrupts)?, 0, "{interrupts}");
    }
    assert_eq!(rt; written(alloc)?, ([true; 3], 100_000));
    let read = ([true; 2], Some((32, 20_000)));
    assert_eq!(rt; read_schedules(alloc)?, read);
    Ok(())
}
