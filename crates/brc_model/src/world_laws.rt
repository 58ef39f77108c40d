//! Laws of worlds. A world is what the threads of a machine see: how it follows the machine, which steps change it,
//! what a step can rely on, and how large it is.

ghost use Rattle.std.specs.Prelude.{ℕ, suc, ◌≡◌, ◌≢◌, ◌+◌, ◌<◌, ◌≤◌, true, false, List, length, Option, Some, slice_get};
ghost use Rattle.brc_word.specs.declared.values.TheConstants.{UNSET};
ghost use Rattle.brc_lang.specs.declared.module.Module.{Module};
ghost use Rattle.brc_lang.specs.Grammar.{IsModule};
ghost use Rattle.brc_model.specs.Paths.{IsAcceptable};
ghost use Rattle.brc_model.specs.Limits.{row_limit, thread_limit, total_limit, depth_limit};
ghost use Rattle.brc_model.specs.Safety.{AreCalls};
ghost use Rattle.brc_model.specs.Tables.{AreTrueWhereReached};
ghost use Rattle.brc_model.specs.declared.state.State.{State};
ghost use Rattle.brc_model.specs.declared.thread.Call.{Call};
ghost use Rattle.brc_model.specs.declared.thread.Choice.{Choice};
ghost use Rattle.brc_model.specs.declared.thread.Choice.TheVariants.{Ok, Fault, Claim, Stop};
ghost use Rattle.brc_model.specs.declared.actor.Status.TheVariants.{Gone};
ghost use Rattle.brc_model.specs.Actions.{StepActor};
ghost use Rattle.brc_model.specs.Dispatch.{may_claim, may_stop};
ghost use Rattle.brc_model.specs.StepMachine.{StepMachine, at_place, next_machine, machine_after};
ghost use Rattle.brc_model.specs.World.{World, world_of, first_world, step, waits_for_lock, IsReachable};
ghost use Rattle.brc_model.specs.Within.{StepsWithin};
ghost use Rattle.brc_model.specs.StopLaws.{GivesUpOwned};
ghost use Rattle.brc_model.specs.declared.actor.Context.{Context};
ghost use Rattle.brc_model.specs.declared.actor.Place.TheVariants.{Idle, InCall};
ghost use Rattle.brc_model.specs.Trace.{CanMake, events_on};
ghost use Rattle.brc_model.specs.Layout.{row_count};
ghost use Rattle.brc_model.specs.Threads.{outer_of};
ghost use Rattle.brc_model.specs.Machine.{mark_of};

/// States that a machine's step is a step of its world: a step depends on nothing else.
pub fn worlds_follow_machines()
    ensures { (m : StepMachine) (event : ℕ × Choice) → world_of (next_machine m event)
        ≡ step (world_of m) event.0 event.1 }
{}

/// States that the first world is reachable, and that reachability is closed under steps.
pub fn worlds_lead_on()
    ensures first { (p : Module) (states : ℕ → ℕ → Option State) (rows : ℕ) (calls : List Call) → IsModule p
        → IsAcceptable p → AreTrueWhereReached p states → 0 < rows → rows ≤ row_limit → AreCalls p calls
        → IsReachable p (first_world p states rows calls) }
    ensures step { (p : Module) (w : World) (t : ℕ) (choice : Choice) → IsReachable p w
        → IsReachable p (step w t choice) }
{}

/// States that each step of a thread that isn't gone changes the world, except a claim that the thread may not make or
/// that finds no mark, a lock that another thread holds, and a stop of a thread that isn't between two instructions.
pub fn steps_move()
    ensures goes_on { (p : Module) (w : World) (t : ℕ) (a : StepActor) → IsReachable p w → slice_get w.actors t ≡ Some a
        → a.actor.status ≢ Gone → waits_for_lock w t a ≡ false → (step w t Ok ≢ w) × (step w t Fault ≢ w) }
    ensures waits { (p : Module) (w : World) (t : ℕ) (a : StepActor) → IsReachable p w → slice_get w.actors t ≡ Some a
        → waits_for_lock w t a ≡ true → (step w t Ok ≡ w) × (step w t Fault ≡ w) }
    ensures claims { (w : World) (t : ℕ) (a : StepActor) (row : ℕ) → slice_get w.actors t ≡ Some a
        → may_claim w.layout t a row ≡ true → mark_of w.layout w.memory row ≢ UNSET → step w t (Claim row) ≢ w }
    ensures misses { (p : Module) (w : World) (t : ℕ) (a : StepActor) (row : ℕ) → IsReachable p w → slice_get w.actors t
        ≡ Some a → may_claim w.layout t a row ≡ true → mark_of w.layout w.memory row ≡ UNSET
        → step w t (Claim row) ≡ w }
    ensures stays { (w : World) (t : ℕ) (a : StepActor) (row : ℕ) → slice_get w.actors t ≡ Some a
        → may_claim w.layout t a row ≡ false → step w t (Claim row) ≡ w }
    ensures stops { (p : Module) (w : World) (t : ℕ) (a : StepActor) → IsReachable p w → slice_get w.actors t ≡ Some a
        → may_stop a ≡ true → step w t Stop ≢ w }
    ensures goes_past { (w : World) (t : ℕ) (a : StepActor) → slice_get w.actors t ≡ Some a → may_stop a ≡ false
        → step w t Stop ≡ w }
    ensures gone { (w : World) (t : ℕ) (a : StepActor) (row : ℕ) → slice_get w.actors t ≡ Some a → a.actor.status ≡ Gone
        → (step w t Ok ≡ w) × (step w t Fault ≡ w) × (step w t (Claim row) ≡ w) × (step w t Stop ≡ w) }
{}

/// States what a thread has to do that stops. In a call, before an instruction, it has to unlock what it has locked,
/// and to give up just what its variables own at the point, by the module's table, and what those of the calls further
/// out own at the fault exits of their instructions. Before its first call or between two calls it has nothing to give
/// up. In either case it makes no further call.
pub fn stops_give_up_what_is_owned()
    ensures in_call { (p : Module) (w : World) (t at : ℕ) (a : StepActor) (context : Context)
        (variables : List (Option ℕ)) → IsReachable p w → slice_get w.actors t ≡ Some a → may_stop a ≡ true
        → a.place ≡ InCall context at variables → GivesUpOwned w t at a context variables }
    ensures between { (p : Module) (w : World) (t left : ℕ) (a : StepActor) → IsReachable p w → slice_get w.actors t
        ≡ Some a → may_stop a ≡ true → a.place ≡ Idle (suc left) → slice_get (step w t Stop).actors t
        ≡ Some (at_place a (Idle 0)) }
{}

/// States what each step of a reachable world can rely on: its word is there, and the value that it finds suits what it
/// does with it.
pub fn steps_are_within()
    ensures { (p : Module) (w : World) (t : ℕ) (a : StepActor) → IsReachable p w → slice_get w.actors t ≡ Some a
        → StepsWithin w t a }
{}

/// States that a reachable world has the functions of its module, states that are true at each point that a path
/// reaches, main and 1 to 32 workers, 1 to 1024 rows for each worker, and so at most `total_limit` rows in all; and
/// that each thread has at most eight calls open.
pub fn worlds_are_small()
    ensures functions { (p : Module) (w : World) → IsReachable p w → w.functions ≡ p.functions }
    ensures states { (p : Module) (w : World) → IsReachable p w → AreTrueWhereReached p w.states }
    ensures some_threads { (p : Module) (w : World) → IsReachable p w → 1 < length w.actors }
    ensures few_threads { (p : Module) (w : World) → IsReachable p w → length w.actors ≤ thread_limit }
    ensures some_rows { (p : Module) (w : World) → IsReachable p w → 0 < w.layout.rows }
    ensures few_rows { (p : Module) (w : World) → IsReachable p w → w.layout.rows ≤ row_limit }
    ensures few_in_all { (p : Module) (w : World) → IsReachable p w → row_count w.layout ≤ total_limit }
    ensures workers { (p : Module) (w : World) → IsReachable p w → length w.actors ≡ 1 + w.layout.workers }
    ensures few_calls { (p : Module) (w : World) (t : ℕ) (a : StepActor) → IsReachable p w → slice_get w.actors t
        ≡ Some a → length (outer_of a.place) < depth_limit }
{}

/// States that a thread's word events, along any events, are a trace that its automaton can make: the thread's next
/// step depends on the values that it finds, and on nothing else that other threads do.
pub fn threads_make_their_traces()
    ensures { (m : StepMachine) (events : List (ℕ × Choice)) (t : ℕ) (a b : StepActor) → slice_get m.actors t ≡ Some a
        → slice_get (machine_after m events).actors t ≡ Some b
        → CanMake m.functions m.states m.layout t a (events_on t m events) b }
{}
