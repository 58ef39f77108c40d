/// The macros of Python's that are statements.
#[derive(Clone, Copy, Debug)]
pub enum Known {
    BeginCriticalSection,
    EndCriticalSection,
    BeginCriticalSection2,
    EndCriticalSection2,
    BeginAllowThreads,
    EndAllowThreads,
    BlockThreads,
    UnblockThreads,
    ReturnNone,
    ReturnTrue,
    ReturnFalse,
    ReturnNotImplemented,
    ReturnRichCompare,
    /// `Py_RETURN_NAN` or `Py_RETURN_INF`
    ReturnNumber,
    Unreachable,
    Visit,
    TrashcanBegin,
    TrashcanEnd,
    /// `PyObject_HEAD`, which is no statement, and does nothing where one is.
    Head,
}

/// The name of each macro. The proof of a `match` over texts has a branch for each of their bytes, so they are a table.
const NAMES: &[(&[u8], Known)] = &[
    (b"Py_BEGIN_CRITICAL_SECTION", Known::BeginCriticalSection),
    (b"Py_END_CRITICAL_SECTION", Known::EndCriticalSection),
    (b"Py_BEGIN_CRITICAL_SECTION2", Known::BeginCriticalSection2),
    (b"Py_END_CRITICAL_SECTION2", Known::EndCriticalSection2),
    (b"Py_BEGIN_ALLOW_THREADS", Known::BeginAllowThreads),
    (b"Py_END_ALLOW_THREADS", Known::EndAllowThreads),
    (b"Py_BLOCK_THREADS", Known::BlockThreads),
    (b"Py_UNBLOCK_THREADS", Known::UnblockThreads),
    (b"Py_RETURN_NONE", Known::ReturnNone),
    (b"Py_RETURN_TRUE", Known::ReturnTrue),
    (b"Py_RETURN_FALSE", Known::ReturnFalse),
    (b"Py_RETURN_NOTIMPLEMENTED", Known::ReturnNotImplemented),
    (b"Py_RETURN_RICHCOMPARE", Known::ReturnRichCompare),
    (b"Py_RETURN_NAN", Known::ReturnNumber),
    (b"Py_RETURN_INF", Known::ReturnNumber),
    (b"Py_UNREACHABLE", Known::Unreachable),
    (b"Py_VISIT", Known::Visit),
    (b"Py_TRASHCAN_BEGIN", Known::TrashcanBegin),
    (b"Py_TRASHCAN_END", Known::TrashcanEnd),
    (b"PyObject_HEAD", Known::Head),
];

impl Known {
    /// Returns the macro of this name.
    pub fn of(name: &[u8]) -> Option<Known> {
        for (text, known) in NAMES {
            if *text == name {
                return Some(*known);
            }
        }
        None
    }
}
