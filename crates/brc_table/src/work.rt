//! Where a hand's work is.

/// Where a hand's work about a row is. A call that makes one try serves both: work that comes next, with other duties
/// after it, and work that was put aside.
#[derive(Clone, Copy)]
pub enum Work {
    /// It comes next, and other duties may come after it.
    Next,
    /// It comes next, or was put aside. The hand turns to it, and puts all other work aside.
    Aside,
}
