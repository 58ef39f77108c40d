//! How often threads have met at the counts of objects.

ghost use Rattle.std.specs.Prelude.{◌≡◌};
ghost use Rattle.brc_table.specs.Contention.{together};

/// How often threads have met at the counts of objects (PEP 703, Biased Reference Counting), as far as their shared
/// words and the queues show it. Each number stops at the greatest.
#[derive(Clone, Copy, PartialEq, Eq)]
pub struct Contention {
    /// The references that were handed to an owner's queue.
    pub queued: u64,
    /// The objects whose two counts were merged.
    pub merged: u64,
    /// The marks that were still set when a thread took them out of a queue.
    pub claimed: u64,
    /// The compare-exchanges of shared words that were lost to another thread.
    pub lost: u64,
}

impl Contention {
    /// No thread has met another one.
    pub const NONE: Contention = Contention {
        queued: 0,
        merged: 0,
        claimed: 0,
        lost: 0,
    };

    /// A reference was handed to an owner's queue.
    pub const QUEUED: Contention = Contention {
        queued: 1,
        merged: 0,
        claimed: 0,
        lost: 0,
    };

    /// An object was merged.
    pub const MERGED: Contention = Contention {
        queued: 0,
        merged: 1,
        claimed: 0,
        lost: 0,
    };

    /// A mark was taken out of a queue.
    pub const CLAIMED: Contention = Contention {
        queued: 0,
        merged: 0,
        claimed: 1,
        lost: 0,
    };

    /// An exchange was lost to another thread.
    pub const LOST: Contention = Contention {
        queued: 0,
        merged: 0,
        claimed: 0,
        lost: 1,
    };

    /// Returns both counted together.
    #[inline]
    pub fn plus(self, other: Contention) -> Contention
        ensures { result ≡ together self other }
    {
        Contention {
            queued: self.queued.saturating_add(other.queued),
            merged: self.merged.saturating_add(other.merged),
            claimed: self.claimed.saturating_add(other.claimed),
            lost: self.lost.saturating_add(other.lost),
        }
    }
}
