//! The refusal of workers.

use std::alloc::AllocError;
use thiserror::Error;

/// K1: a worker's thread couldn't be started, or memory for the workers was refused. Ask for fewer workers, or try
/// again.
///
/// Workers that have no thread have left without a call.
#[derive(Clone, Copy, Debug, Drop, Error)]
#[error("no thread")]
pub struct NoThread;

impl From<AllocError> for NoThread {
    fn from(_refused: AllocError) -> NoThread {
        NoThread
    }
}
