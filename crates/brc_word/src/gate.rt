//! The gate of an object: free, locked by a thread, dying in the chain of a thread, or closed.

ghost use Rattle.std.specs.Prelude.{◌≡◌, ◌≢◌, ◌==◌};
ghost use Rattle.brc_word.specs.Words.{free_word, locked_word, dying_word, next_part, closed_word};

/// The gate of a list that main has locked. Those of the workers' lists follow, in the order of the workers.
const LOCKED: u64 = 2;
/// In the gate of a dying object the thread is above the next object of its chain.
const CHAINED: u64 = 1 << 32;
/// The gate of a closed object.
const CLOSED: u64 = 1 << 63;

/// Returns the gate of a list that the thread has locked.
pub fn locked(thread: u8) -> u64
    ensures word { result ≡ locked_word thread }
    ensures unfree { result ≢ free_word }
    ensures unclosed { result ≢ closed_word }
{
    LOCKED + u64::from(thread)
}

/// Returns the gate of a dying object, in the chain of the thread that deallocates it. `next` is 1 more than the row of
/// the next object of the chain, or 0 at its end.
pub fn dying(thread: u8, next: u32) -> u64
    ensures word { result ≡ dying_word thread next }
    ensures chain { next_part result ≡ next }
    ensures unclosed { result ≢ closed_word }
{
    (u64::from(thread) + 1) * CHAINED + u64::from(next)
}

/// Returns the next object of the chain from the gate of a dying object: 1 more than its row, or 0 at the end.
pub fn next_of_dying(word: u64) -> u32
    ensures { result ≡ next_part word }
{
    (word % CHAINED) as u32
}

/// Returns the gate of a closed object.
pub fn closed() -> u64
    ensures { result ≡ closed_word }
{
    CLOSED
}

/// Returns whether the gate is that of a closed object.
pub fn is_closed(word: u64) -> bool
    ensures { result ≡ (word == closed_word) }
{
    word == CLOSED
}
