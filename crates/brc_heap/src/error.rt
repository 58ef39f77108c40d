//! The two refusals of a heap.

use thiserror::Error;

/// H1: there is no memory for a heap of this size. Ask for fewer workers or rows.
#[derive(Clone, Copy, Debug, Drop, Error)]
#[error("no memory")]
pub struct NoMemory;

/// H2: the thread's hand was given out already, or the heap has no worker of this number. Nothing has changed.
#[derive(Clone, Copy, Debug, Drop, Error)]
#[error("taken")]
pub struct Taken;
