//! Functions, and the states that the checker keeps of their points.

use brc_check::Slot;
use brc_lang::Kind;

/// The states of v1 and v2 at a point, and the number of the locked variable, if one is; v0 is the caller's list, and
/// the others are empty. `None` is a point that no path reaches, or one past the last.
pub type Entry = Option<(Slot, Slot, Option<u8>)>;

pub const EMPTY: Slot = Slot::Empty;

pub const NUMBER: Slot = Slot::Owned(Kind::Num);

pub const NONE: Slot = Slot::Owned(Kind::None);

pub const LIST: Slot = Slot::Owned(Kind::List);

pub const FILE: Slot = Slot::Owned(Kind::File);

pub const SOCKET: Slot = Slot::Owned(Kind::Sock);

/// A fetched item, whose kind isn't known.
pub const FETCHED: Slot = Slot::Owned(Kind::Any);

/// A borrowed item, whose kind isn't known.
pub const BORROWED: Slot = Slot::Locked(Kind::Any);

/// The entry of the first point.
pub const FIRST: Entry = Some((EMPTY, EMPTY, None));

pub const TAKE_AND_DROP: &[u8] = b"newref v1 v0\ndrop v1\nfail\n";

/// Lines, the points that a table keeps of them, and the entry of each point.
pub type TableCase<'a> = (&'a [u8], &'a [usize], &'a [Entry]);

pub const TABLES: &[TableCase] = &[
    (
        TAKE_AND_DROP,
        &[0],
        &[FIRST, Some((LIST, EMPTY, None)), FIRST, None],
    ),
    // If no row is left for a number, the function goes on after the line that drops it.
    (
        b"num v1 1 else @4\nnum v2 2 else @3\ndrop v2\ndrop v1\nfail\n",
        &[0, 3, 4],
        &[
            FIRST,
            Some((NUMBER, EMPTY, None)),
            Some((NUMBER, NUMBER, None)),
            Some((NUMBER, EMPTY, None)),
            FIRST,
        ],
    ),
    // If no row is left for the list, the function goes on after the line that drops it.
    (
        b"list v1 2 else @4\nnewref v2 v1\ndrop v2\ndrop v1\nfail\n",
        &[0, 4],
        &[
            FIRST,
            Some((LIST, EMPTY, None)),
            Some((LIST, LIST, None)),
            Some((LIST, EMPTY, None)),
            FIRST,
            None,
        ],
    ),
    // A point that no path reaches has no entry.
    (b"goto @2\ndrop v5\nfail\n", &[0, 2], &[FIRST, None, FIRST]),
    // A reference to none is moved, doubled and returned.
    (
        b"none v1\nmove v2 v1\nnewref v1 v2\ndrop v2\nret v1\n",
        &[0],
        &[
            FIRST,
            Some((NONE, EMPTY, None)),
            Some((EMPTY, NONE, None)),
            Some((NONE, NONE, None)),
            Some((NONE, EMPTY, None)),
        ],
    ),
    // The kind asked for is known at both exits already.
    (
        b"num v1 1 else @4\nas v1 num else @3\ngoto @3\nret v1\nfail\n",
        &[0, 3, 4],
        &[
            FIRST,
            Some((NUMBER, EMPTY, None)),
            Some((NUMBER, EMPTY, None)),
            Some((NUMBER, EMPTY, None)),
            FIRST,
        ],
    ),
    // A path falls through to the target of another.
    (
        b"num v1 1 else @2\ndrop v1\nfail\n",
        &[0, 2],
        &[FIRST, Some((NUMBER, EMPTY, None)), FIRST],
    ),
    // A target behind a `goto` that isn't reached has none.
    (
        b"goto @3\nnum v5 1 else @2\nfail\nfail\n",
        &[0, 2, 3],
        &[FIRST, None, None, FIRST, None],
    ),
    // A borrowed item is gone once its list is unlocked, and a reference to it stays.
    (
        b"lock v0\nborrow v1 v0 0 else @6\nnewref v2 v1\nunlock v0\ndrop v2\nfail\nunlock v0\nfail\n",
        &[0, 6],
        &[
            FIRST,
            Some((EMPTY, EMPTY, Some(0))),
            Some((BORROWED, EMPTY, Some(0))),
            Some((BORROWED, FETCHED, Some(0))),
            Some((EMPTY, FETCHED, None)),
            FIRST,
            Some((EMPTY, EMPTY, Some(0))),
            FIRST,
        ],
    ),
    // `set` steals on both exits.
    (
        b"list v1 1 else @6\nnewref v2 v1\nlock v1\nset v1 0 v2 else @4\nunlock v1\ndrop v1\nfail\n",
        &[0, 4, 6],
        &[
            FIRST,
            Some((LIST, EMPTY, None)),
            Some((LIST, LIST, None)),
            Some((LIST, LIST, Some(1))),
            Some((LIST, EMPTY, Some(1))),
            Some((LIST, EMPTY, None)),
            FIRST,
        ],
    ),
    // A fetched item stays when its list is unlocked. It may be locked where `as` has found that it is a list.
    (
        b"lock v0\nfetch v1 v0 0 else @9\nunlock v0\nas v1 list else @7\nlock v1\nunlock v1\nret v1\n\
          drop v1\nfail\nunlock v0\nfail\n",
        &[0, 7, 9],
        &[
            FIRST,
            Some((EMPTY, EMPTY, Some(0))),
            Some((FETCHED, EMPTY, Some(0))),
            Some((FETCHED, EMPTY, None)),
            Some((LIST, EMPTY, None)),
            Some((LIST, EMPTY, Some(1))),
            Some((LIST, EMPTY, None)),
            Some((FETCHED, EMPTY, None)),
            FIRST,
            Some((EMPTY, EMPTY, Some(0))),
            FIRST,
        ],
    ),
    // `put` leaves its reference, and no borrowed item.
    (
        b"num v2 7 else @9\nlock v0\nborrow v1 v0 0 else @5\nas v1 num else @7\nput v0 1 v2 else @5\n\
          unlock v0\ngoto @8\nunlock v0\ndrop v2\nfail\n",
        &[0, 5, 7, 8, 9],
        &[
            FIRST,
            Some((EMPTY, NUMBER, None)),
            Some((EMPTY, NUMBER, Some(0))),
            Some((BORROWED, NUMBER, Some(0))),
            Some((Slot::Locked(Kind::Num), NUMBER, Some(0))),
            Some((EMPTY, NUMBER, Some(0))),
            Some((EMPTY, NUMBER, None)),
            Some((BORROWED, NUMBER, Some(0))),
            Some((EMPTY, NUMBER, None)),
            FIRST,
        ],
    ),
    // A number that is read is owned.
    (
        b"open v1 0 r else @6\nlock v1\nread v2 v1 8 else @4\ndrop v2\nunlock v1\ndrop v1\nfail\n",
        &[0, 4, 6],
        &[
            FIRST,
            Some((FILE, EMPTY, None)),
            Some((FILE, EMPTY, Some(1))),
            Some((FILE, NUMBER, Some(1))),
            Some((FILE, EMPTY, Some(1))),
            Some((FILE, EMPTY, None)),
            FIRST,
        ],
    ),
    // `write` changes no variable.
    (
        b"connect v1 0 else @7\nnum v2 5 else @6\nlock v1\nwrite v1 v2 else @4\nunlock v1\ndrop v2\n\
          drop v1\nfail\n",
        &[0, 4, 6, 7],
        &[
            FIRST,
            Some((SOCKET, EMPTY, None)),
            Some((SOCKET, NUMBER, None)),
            Some((SOCKET, NUMBER, Some(1))),
            Some((SOCKET, NUMBER, Some(1))),
            Some((SOCKET, NUMBER, None)),
            Some((SOCKET, EMPTY, None)),
            FIRST,
        ],
    ),
    // An index out of range: `set` has taken the number.
    (
        b"num v1 7 else @6\nlock v0\nset v0 200 v1 else @5\nunlock v0\nfail\nunlock v0\nfail\n",
        &[0, 5, 6],
        &[
            FIRST,
            Some((NUMBER, EMPTY, None)),
            Some((NUMBER, EMPTY, Some(0))),
            Some((EMPTY, EMPTY, Some(0))),
            FIRST,
            Some((EMPTY, EMPTY, Some(0))),
            FIRST,
        ],
    ),
    // Paths fall through to the targets of `else`, in the same state.
    (
        b"none v1\nlock v0\nput v0 0 v1 else @3\nfetch v2 v0 1 else @5\nset v0 0 v2 else @5\nunlock v0\nret v1\n",
        &[0, 3, 5],
        &[
            FIRST,
            Some((NONE, EMPTY, None)),
            Some((NONE, EMPTY, Some(0))),
            Some((NONE, EMPTY, Some(0))),
            Some((NONE, FETCHED, Some(0))),
            Some((NONE, EMPTY, Some(0))),
            Some((NONE, EMPTY, None)),
        ],
    ),
];

/// Tables of functions with loops. Both ways of `again` are open to a path, whatever its limit.
pub const LOOPS: &[TableCase] = &[
    (
        b"num v1 1 else @3\ndrop v1\nagain @0 3\nfail\n",
        &[0, 3],
        &[FIRST, Some((NUMBER, EMPTY, None)), FIRST, FIRST, None],
    ),
    (
        b"none v1\nnewref v2 v1\ndrop v2\nagain @1 9\nret v1\n",
        &[0, 1],
        &[
            FIRST,
            Some((NONE, EMPTY, None)),
            Some((NONE, NONE, None)),
            Some((NONE, EMPTY, None)),
            Some((NONE, EMPTY, None)),
        ],
    ),
    // A line that is reached only by going back has an entry, and one inside a loop that isn't reached has none.
    (
        b"none v1\ngoto @3\nret v1\nagain @2 1\nret v1\n",
        &[0, 2, 3],
        &[
            FIRST,
            Some((NONE, EMPTY, None)),
            Some((NONE, EMPTY, None)),
            Some((NONE, EMPTY, None)),
            Some((NONE, EMPTY, None)),
        ],
    ),
    (
        b"goto @2\ndrop v5\nagain @0 2\nfail\n",
        &[0, 2],
        &[FIRST, None, FIRST, FIRST],
    ),
    // An `again` that isn't reached finds nothing.
    (
        b"goto @2\nfail\nfail\nagain @1 2\nfail\n",
        &[0, 1, 2],
        &[FIRST, None, FIRST, None, None],
    ),
];

/// What overwrites the entries of kept points: the state of v1, that of v2, or `None` where it stays, and the locked
/// variable.
pub const OVERWRITTEN: &[(Slot, Option<Slot>, Option<u8>)] = &[
    (EMPTY, Some(EMPTY), None),
    (EMPTY, Some(NUMBER), None),
    (EMPTY, Some(Slot::Caller(Kind::Num)), None),
    (NUMBER, Some(EMPTY), None),
    (NUMBER, Some(NUMBER), None),
    (NUMBER, Some(Slot::Caller(Kind::Num)), None),
    (FETCHED, Some(EMPTY), None),
    (FETCHED, Some(NUMBER), None),
    (FETCHED, Some(Slot::Caller(Kind::Num)), None),
    (EMPTY, None, None),
    (EMPTY, None, Some(0)),
    (EMPTY, None, Some(1)),
    (BORROWED, None, None),
    (BORROWED, None, Some(0)),
    (BORROWED, None, Some(1)),
    (Slot::Locked(Kind::Num), None, Some(0)),
    (Slot::Caller(Kind::Any), None, Some(0)),
    (FILE, None, None),
    (FILE, None, Some(1)),
    (SOCKET, None, None),
    (SOCKET, None, Some(1)),
    (FETCHED, None, None),
    (FETCHED, None, Some(0)),
    (LIST, None, None),
    (LIST, None, Some(0)),
    (LIST, None, Some(1)),
    (Slot::Locked(Kind::List), None, Some(0)),
    (Slot::Caller(Kind::List), None, Some(1)),
    (NUMBER, None, Some(0)),
];
