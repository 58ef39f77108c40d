//! Laws of all runs.

ghost use Rattle.std.specs.Prelude.{◌≡◌, ℕ, List};
ghost use Rattle.brc_model.specs.declared.thread.Choice.{Choice};
ghost use Rattle.brc_lang.specs.declared.module.Module.{Module};
ghost use Rattle.brc_model.specs.StepMachine.{StepMachine, machine_after};
ghost use Rattle.brc_model.specs.Trace.{events_on};
ghost use Rattle.brc_model.specs.World.{world_of};
ghost use Rattle.brc_world.specs.Runs.{world_after};
ghost use Rattle.brc_world.specs.Sights.{words_seen};
ghost use Rattle.brc_world.specs.Tallies.{tally_of};
ghost use Rattle.brc_machine.specs.MachineTallies.{machine_tally};
ghost use Rattle.brc_world.specs.MachineTallies.{IsMachineOf};

use brc_model::{
    a_row_is_finalised_once, accepted_is_safe, an_object_is_born_once, born_rows_are_listed,
    born_rows_are_there, born_rows_are_used, closed_rows_were_born, gates_tell_what_is_closed,
    used_rows_are_born, worlds_are_small, worlds_follow_machines,
};

/// States that the world after some events is the world of the machine after the same events. So a module's safety,
/// which is a law of machines, holds along each run.
pub fn runs_follow_machines()
    ensures { (m : StepMachine) (events : List (ℕ × Choice)) → world_of (machine_after m events)
        ≡ world_after (world_of m) events }
{
    worlds_follow_machines();
}

/// States that the words that a thread's sights show, along any events, are the thread's trace: its word events, in
/// order, with what each step found and left.
pub fn sights_are_traces()
    ensures { (m : StepMachine) (t : ℕ) (events : List (ℕ × Choice)) → words_seen t (world_of m) events
        ≡ events_on t m events }
{
    worlds_follow_machines();
}

/// States that the tally of a world, which is read from words, is that of its machine: it counts the objects that were
/// born and closed in the abstract state, and lists those that are left there with their kinds.
pub fn tallies_follow_machines()
    ensures { (p : Module) (m : StepMachine) → IsMachineOf p m → tally_of (world_of m) ≡ machine_tally m }
{
    worlds_are_small();
    accepted_is_safe();
    born_rows_are_used();
    used_rows_are_born();
    born_rows_are_listed();
    born_rows_are_there();
    an_object_is_born_once();
    closed_rows_were_born();
    a_row_is_finalised_once();
    gates_tell_what_is_closed();
}
