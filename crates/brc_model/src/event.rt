use crate::address::Address;

/// One step of a thread on one word. No value of it is made: traces exist in proofs alone.
pub struct WordEvent {
    /// The word's address.
    pub address: Address,
    /// The value that the step found.
    pub found: u64,
    /// The value that the step left.
    pub left: u64,
}
