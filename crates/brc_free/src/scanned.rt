//! Merging the objects that an exit finds in its thread's queue.

ghost use Rattle.std.specs.Prelude.{◌≡◌, ◌≢◌, List};
ghost use Rattle.brc_host.specs.HostCounts.{raised};
ghost use Rattle.brc_host.specs.HostCalls.{HostCall, HasAnswered, close_faults};
ghost use Rattle.brc_model.specs.declared.actor.Status.TheVariants.{Gone};
ghost use Rattle.brc_table.specs.Hands.{IsOf};
ghost use Rattle.brc_free.specs.Works.{HasWorked, ClaimedNext, claimed_left};

use crate::finaliser::Finaliser;
use crate::waiting::Waits;
use brc_heap::{Hand, Marker};
use brc_host::Host;
use std::sync::Wait;

impl<'h, T: Drop, Q: Marker<T> + Waits> Finaliser<'h, T, Q> {
    /// Does what `merge_claimed` does, as a call: a scan merges few objects.
    #[inline(never)]
    pub fn merge_scanned<R: Wait, H: Host<Res = T>>(
        &self,
        rt: &R,
        hand: &mut Hand<T>,
        host: &mut H,
        row: u32,
    ) -> u64
        requires table { IsOf self.now hand.old }
        requires alive { hand.old.view.actor.status ≢ Gone }
        requires duty { ClaimedNext row hand.old.view.actor.agenda }
        ensures table { IsOf self.now hand.new }
        ensures carried { hand.new.carried ≡ hand.old.carried }
        ensures fields { hand.new.fields ≡ hand.old.fields }
        ensures chain { hand.new.view.actor.head ≡ 0 }
        ensures work { (closes : List HostCall)
            × HasWorked hand.old.view closes (claimed_left hand.old.view.actor.agenda) hand.new.view
            × (result ≡ raised (close_faults closes) 0)
            × HasAnswered H.answers H.counts host.old closes host.new }
    {
        self.merge_claimed(rt, hand, host, row)
    }
}
