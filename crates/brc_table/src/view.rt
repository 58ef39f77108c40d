//! What a hand knows of the table: plain data that exists in proofs alone.

use brc_model::{Actor, Layout, WordEvent};
use std::collections::LinkedList;

/// What one hand knows. No value of it is made: it is the ghost state that contracts speak of.
pub struct View {
    /// The table's size. It is the same for all hands of a table.
    pub layout: Layout,
    /// The hand's thread: main's is 0, and the workers' are 1, 2 and so on.
    pub thread: u8,
    /// The thread, as what it counts with. A hand lends no resource by a duty: it takes the resource out of a field
    /// that nobody else can see, so the thread's `lent` stays `None`.
    pub actor: Actor,
    /// The rows of the counted objects to which the hand holds references, each as often as it holds one.
    pub references: LinkedList<u32>,
    /// The rows whose fields the hand has taken out of the table, the last one first.
    pub taken: LinkedList<u32>,
    /// How many resources the field of the object that the hand has locked had, when the hand took it.
    pub in_field: u32,
    /// Of main's hand, the threads whose hands it has given out.
    pub given: LinkedList<u8>,
    /// The hands that this one has joined, the last one first. Their threads are gone.
    pub joined: LinkedList<Joined>,
    /// The hand's own steps so far, in order.
    pub trace: LinkedList<WordEvent>,
}

/// What is known of a hand that another has joined: its thread is gone.
pub struct Joined {
    /// The hand's thread.
    pub thread: u8,
    /// How many rows of its block the thread has used.
    pub used: u32,
}
