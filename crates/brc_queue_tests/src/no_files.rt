//! A host for a runtime that has neither files nor sockets.

ghost use Rattle.std.specs.Prelude.{◌≡◌};
ghost use Rattle.brc_host.specs.HostCounts.{no_counts};
ghost use Rattle.brc_host.specs.HostCalls.{after_call};

use brc_host::{Fault, Host, HostCounts};
use brc_lang::Mode;
use std::marker::Model;

/// A host that opens no file and reaches no peer, and closes whatever number it is given. It counts what fails.
#[derive(Drop)]
pub struct NoFiles {
    counts: HostCounts,
}

impl Model for NoFiles {
    ghost use Rattle.brc_host.specs.declared.counts.HostCounts.{HostCounts};

    ghost Value = { HostCounts };

    ghost view = { λ host. host.counts };
}

impl NoFiles {
    /// Returns a host that hasn't been called.
    pub fn new() -> NoFiles
        ensures { result ≡ no_counts }
    {
        NoFiles {
            counts: HostCounts::new(),
        }
    }
}

impl Host for NoFiles {
    type Res = u32;

    ghost counts = { λ host. host };

    ghost answers = { λ before call after. after ≡ after_call call before };

    fn open(&mut self, _path: u8, _mode: Mode) -> Result<u32, Fault> {
        let file = Err(Fault);
        self.counts.count_opening(&file);
        file
    }

    fn connect(&mut self, _peer: u8) -> Result<u32, Fault> {
        let connection = Err(Fault);
        self.counts.count_opening(&connection);
        connection
    }

    fn read(&mut self, _from: &mut u32, _most: u16) -> Result<u16, Fault> {
        let got = Err(Fault);
        self.counts.count_use(&got);
        got
    }

    fn write(&mut self, _to: &mut u32, _bytes: &[u8]) -> Result<(), Fault> {
        let written = Err(Fault);
        self.counts.count_use(&written);
        written
    }

    fn close(&mut self, _resource: u32) -> Result<(), Fault> {
        let closed = Ok(());
        self.counts.count_close(&closed);
        closed
    }

    fn failures(&self) -> u64 {
        self.counts.failures
    }

    fn opened(&self) -> u64 {
        self.counts.opened
    }

    fn closed(&self) -> u64 {
        self.counts.closed
    }
}
