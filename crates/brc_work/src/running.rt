//! A worker's calls, one after the other.

ghost use Rattle.std.specs.Prelude.{◌≡◌, ℕ, ◌<◌, ◌+◌, ◌*◌, true, [], length};
ghost use Rattle.brc_model.specs.Bounded.{call_limit};
ghost use Rattle.brc_model.specs.Threads.{function_at};
ghost use Rattle.brc_table.specs.Hands.{IsOf};
ghost use Rattle.brc_work.specs.Calls.{HasCalled};
ghost use Rattle.brc_work.specs.Fits.{IsReady, IsHeapOf};
ghost use Rattle.brc_work.specs.Runs.{RanBy, LooksAndCalls};
ghost use Rattle.brc_work.specs.Totals.{Asked, no_totals, totals_of, is_done};
ghost use Rattle.brc_work.specs.Traces.{program_of};

use crate::gate::Gate;
use crate::ran::Ran;
use crate::totals::Totals;
use crate::worker::Worker;
use brc_check::Checked;
use brc_heap::Hand;
use brc_host::Host;
use std::sync::Wait;

impl<'h, T: Drop> Worker<'h, T> {
    /// Makes the calls of the accepted module's function with this number, which has no parameters: `times` of them,
    /// and begins at most `steps` instructions in all of them together, those of the calls that they make too. Before
    /// each call it looks through the hand's queue. Returns whether it has made all calls, and what it has counted.
    ///
    /// The run stops where `steps` instructions have begun, and an instruction or a call is left to begin: it unlocks
    /// what is locked, gives up the references of the variables that own one, those of the innermost call first, by
    /// rising number, and finalises what dies. `gate` hears of each call that begins, and of its end unless the run
    /// stops in it. No run stops that may begin more instructions than its calls can.
    ///
    /// The host is asked for what the instructions say, and for the closes of what dies, and for nothing else.
    ///
    /// The hand runs, has nothing to do and nothing locked, and holds the root and fewer than 2^31 references in all.
    /// Afterwards it holds what it held before, and the caller lets it leave.
    pub fn run<R: Wait, H: Host<Res = T>, G: Gate>(
        &self,
        rt: &R,
        checked: &Checked,
        function: usize,
        times: u32,
        steps: u64,
        hand: &mut Hand<T>,
        host: &mut H,
        gate: &G,
    ) -> Ran
        requires of { IsOf self.now hand.old }
        requires ready { IsReady hand.old }
        requires function { function < length checked.now.module.functions }
        requires parameters { (function_at checked.now.module.functions function).parameters ≡ [] }
        requires heap { IsHeapOf checked.now.module self.now }
        ensures of { IsOf self.now hand.new }
        ensures called { HasCalled hand.old hand.new }
        ensures created { (totals_of result).created + hand.old.view.actor.used ≡ hand.new.view.actor.used }
        ensures asked { Asked H.answers H.counts host.old host.new no_totals (totals_of result)
            (λ calls. RanBy (program_of checked.now.module function) times steps (is_done result) calls hand.old.view
            hand.new.view) }
        ensures unbounded { times * call_limit checked.now.module.functions function < steps
            → is_done result ≡ true }
    {
        checked.states_are_true();
        let used = hand.used();
        let mut totals = Totals::new();
        let done = self.make_calls(
            rt,
            checked,
            function,
            times,
            steps,
            hand,
            host,
            gate,
            &mut totals,
        );
        totals.created = hand.used() - used;
        if done {
            Ran::Done(totals)
        } else {
            Ran::Stopped(totals)
        }
    }

    /// Makes the calls, or stops. Returns whether it has made all of them.
    fn make_calls<R: Wait, H: Host<Res = T>, G: Gate>(
        &self,
        rt: &R,
        checked: &Checked,
        function: usize,
        times: u32,
        steps: u64,
        hand: &mut Hand<T>,
        host: &mut H,
        gate: &G,
        totals: &mut Totals,
    ) -> bool
        requires of { IsOf self.now hand.old }
        requires ready { IsReady hand.old }
        requires function { function < length checked.now.module.functions }
        requires parameters { (function_at checked.now.module.functions function).parameters ≡ [] }
        requires heap { IsHeapOf checked.now.module self.now }
        ensures of { IsOf self.now hand.new }
        ensures called { HasCalled hand.old hand.new }
        ensures asked { Asked H.answers H.counts host.old host.new totals.old totals.new
            (λ calls. RanBy (program_of checked.now.module function) times steps result calls hand.old.view
            hand.new.view) }
    {
        let mut left = steps;
        for call in 0..times {
            if left == 0 {
                return false;
            }
            gate.before(hand.thread(), call);
            if !self.look_and_call(rt, checked, function, &mut left, hand, host, totals) {
                return false;
            }
            gate.after(hand.thread(), call);
        }
        true
    }

    /// Looks through the hand's queue, and makes a call of the function. Returns whether the call has ended; else the
    /// worker has stopped in it. `left` is how many instructions the worker may begin, at least one.
    fn look_and_call<R: Wait, H: Host<Res = T>>(
        &self,
        rt: &R,
        checked: &Checked,
        function: usize,
        left: &mut u64,
        hand: &mut Hand<T>,
        host: &mut H,
        totals: &mut Totals,
    ) -> bool
        requires function { function < length checked.now.module.functions }
        requires parameters { (function_at checked.now.module.functions function).parameters ≡ [] }
        requires heap { IsHeapOf checked.now.module self.now }
        requires some { 0 < left.old }
        requires of { IsOf self.now hand.old }
        requires ready { IsReady hand.old }
        ensures of { IsOf self.now hand.new }
        ensures called { HasCalled hand.old hand.new }
        ensures asked { Asked H.answers H.counts host.old host.new totals.old totals.new
            (λ calls. LooksAndCalls (program_of checked.now.module function) left.old left.new result calls
            hand.old.view hand.new.view) }
    {
        let failed = self.queue.merge_pending(rt, hand, host);
        totals.count_close_faults(failed);
        self.call_from_outside(rt, checked, function, left, hand, host, totals)
    }
}
