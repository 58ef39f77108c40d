ghost use Rattle.std.specs.Prelude.{◌≡◌, ◌≤◌, ◌↔◌, IsErr, IfOk, is_err};
ghost use Rattle.std.specs.Result.{result_ok};
ghost use Rattle.brc_host.specs.HostCalls.{Open, Connect, Read, Write, Close};
ghost use Rattle.brc_host.specs.FakeHost.{IsPlanned, AnswersByPlan, called, first_fake};

use crate::counts::HostCounts;
use crate::host::{Fault, Host};
use brc_lang::Mode;
use std::marker::Model;

/// A file or a connection of a `FakeHost`.
#[derive(Drop)]
pub struct FakeResource(());

/// A host that fails in the calls of a plan, and in no others. It reaches no file and no peer.
///
/// Its calls are numbered from 0, each call of `open`, `connect`, `read`, `write` and `close`.
#[derive(Drop)]
pub struct FakeHost<'p> {
    plan: &'p [u64],
    // None after 2^64 calls: no plan has the number of a later one.
    next: Option<u64>,
    counts: HostCounts,
}

impl<'p> Model for FakeHost<'p> {
    ghost use Rattle.brc_host.specs.FakeHost.{Fake};

    ghost Value = { Fake };

    ghost view = { λ host. record { plan = host.plan.now; next = host.next; counts = host.counts } };
}

impl<'p> FakeHost<'p> {
    /// Returns a host that fails in the calls whose numbers the plan lists.
    pub fn new(plan: &'p [u64]) -> FakeHost<'p>
        ensures { result ≡ first_fake plan.now }
    {
        FakeHost {
            plan,
            next: Some(0),
            counts: HostCounts::new(),
        }
    }

    // Takes the next number, and returns what was given unless the plan has that number.
    fn answer<T: Drop>(&mut self, given: T) -> Result<T, Fault>
        ensures planned { IsErr result ↔ IsPlanned self.old }
        ensures given { IfOk result (λ answer. answer ≡ given) }
        ensures called { self.new ≡ called (λ counts. counts) self.old }
    {
        let Some(call) = self.next else {
            return Ok(given);
        };
        self.next = call.checked_add(1);
        if self.plan.contains(&call) {
            return Err(Fault);
        }
        Ok(given)
    }
}

impl Host for FakeHost<'_> {
    type Res = FakeResource;

    ghost counts = { λ host. host.counts };

    ghost answers = { AnswersByPlan };

    fn open(&mut self, _path: u8, _mode: Mode) -> Result<FakeResource, Fault>
        ensures answers { AnswersByPlan self.old (Open _path _mode (is_err result)) self.new }
    {
        let file = self.answer(FakeResource(()));
        self.counts.count_opening(&file);
        file
    }

    fn connect(&mut self, _peer: u8) -> Result<FakeResource, Fault>
        ensures answers { AnswersByPlan self.old (Connect _peer (is_err result)) self.new }
    {
        let connection = self.answer(FakeResource(()));
        self.counts.count_opening(&connection);
        connection
    }

    fn read(&mut self, _from: &mut FakeResource, most: u16) -> Result<u16, Fault>
        ensures at_most { IfOk result (λ got. got ≤ most) }
        ensures whole { IfOk result (λ got. got ≡ most) }
        ensures answers { AnswersByPlan self.old (Read most (result_ok result)) self.new }
    {
        let got = self.answer(most);
        self.counts.count_use(&got);
        got
    }

    fn write(&mut self, _to: &mut FakeResource, _bytes: &[u8]) -> Result<(), Fault>
        ensures answers { AnswersByPlan self.old (Write _bytes.now (is_err result)) self.new }
    {
        let written = self.answer(());
        self.counts.count_use(&written);
        written
    }

    fn close(&mut self, _resource: FakeResource) -> Result<(), Fault>
        ensures answers { AnswersByPlan self.old (Close (is_err result)) self.new }
    {
        let closed = self.answer(());
        self.counts.count_close(&closed);
        closed
    }

    fn failures(&self) -> u64 {
        self.counts.failures
    }

    fn opened(&self) -> u64 {
        self.counts.opened
    }

    fn closed(&self) -> u64 {
        self.counts.closed
    }
}
