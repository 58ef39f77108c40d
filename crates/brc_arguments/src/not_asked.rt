use clap::Error;
use std::alloc::AllocError;
use thiserror::Error as IsError;

/// Why the words of a command line make no request.
#[derive(Debug, Drop, IsError)]
pub enum NotAsked {
    /// They are wrong, or ask for help; or memory was refused.
    #[error("{0}")]
    Usage(Error),
    /// They give more than 16 paths, or more than 16 peers.
    #[error("too many")]
    TooMany,
}

impl From<AllocError> for NotAsked {
    fn from(error: AllocError) -> NotAsked {
        NotAsked::Usage(Error::from(error))
    }
}
