ghost use Rattle.std.specs.Prelude.{◌≡◌};
ghost use Rattle.brc_c_store.specs.Stores.{contents_of, is_locked, owned_registers};
ghost use Rattle.brc_c_paths.specs.Registers.{items_of};

use brc_c_graph::NodeId;
use brc_c_paths::items_of;
use brc_c_store::{Choice, Register, RegisterSet, Rules, Store};
use brc_lang::CheckCode;

/// What the text's state has at a block: whether the lock is locked, and which registers own references, or have
/// borrowed items.
#[derive(Clone, Copy)]
pub(crate) struct Held {
    pub(crate) is_locked: bool,
    pub(crate) owned: RegisterSet,
    pub(crate) items: RegisterSet,
}

impl Held {
    /// What the state has where a call begins.
    pub(crate) const NOTHING: Held = Held {
        is_locked: false,
        owned: RegisterSet::EMPTY,
        items: RegisterSet::EMPTY,
    };

    /// What the state has in a store.
    pub(crate) fn of(rules: Rules, store: &Store) -> Held
        ensures locked { result.is_locked ≡ is_locked rules (contents_of store.now) }
        ensures owned { result.owned ≡ owned_registers (contents_of store.now) }
        ensures items { result.items ≡ items_of (contents_of store.now) }
    {
        Held {
            is_locked: store.is_locked(rules),
            owned: store.owned(),
            items: items_of(store),
        }
    }
}

/// The instruction of a block that has two exits.
#[derive(Clone, Copy, PartialEq, Eq)]
pub(crate) enum Branch {
    Nothing,
    Ask,
    Fetch(Register),
    Make(Register),
    Borrow(Register),
}

/// Where the first path to a block comes from.
#[derive(Clone, Copy)]
pub(crate) struct Origin {
    pub(crate) block: usize,
    /// The way after the event of that block, or `None` if the event comes only now.
    pub(crate) choice: Option<Choice>,
}

/// The rule that a block's event breaks, and the line that shows it, from the block's first one.
#[derive(Clone, Copy)]
pub(crate) struct Break {
    pub(crate) code: CheckCode,
    pub(crate) at: usize,
    /// The names whose references are left, a bit for each.
    pub(crate) left: u64,
}

/// A node in a store, and the lines that are written for it. Blocks name each other by their numbers.
#[derive(Clone, Copy)]
pub(crate) struct Block {
    pub(crate) node: NodeId,
    /// The number of its point. The function's entry and forks have none.
    pub(crate) point: Option<usize>,
    pub(crate) origin: Option<Origin>,
    pub(crate) held: Held,
    /// Whether it asks only which of the other ways of a block is taken.
    pub(crate) is_fork: bool,
    /// The lines without a target: their places among those of all blocks.
    pub(crate) first: usize,
    pub(crate) end: usize,
    pub(crate) branch: Branch,
    /// Where paths go on below these lines. Without it they give up, unless the block ends the call.
    pub(crate) next: Option<usize>,
    /// Where paths go on from the second exit of the branch.
    pub(crate) other: Option<usize>,
    /// Whether the last line ends the call.
    pub(crate) is_end: bool,
    pub(crate) broken: Option<Break>,
}

impl Block {
    /// Returns a block without lines, of which nothing more is known.
    pub(crate) fn new(node: NodeId, origin: Option<Origin>, held: Held) -> Block {
        Block {
            node,
            point: None,
            origin,
            held,
            is_fork: false,
            first: 0,
            end: 0,
            branch: Branch::Nothing,
            next: None,
            other: None,
            is_end: false,
            broken: None,
        }
    }

    /// Returns where paths go on if nothing is written for the block.
    pub(crate) fn passes_to(&self) -> Option<usize> {
        if self.first == self.end && self.branch == Branch::Nothing {
            self.next
        } else {
            None
        }
    }
}
