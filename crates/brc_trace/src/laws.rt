//! Laws of all traces.

ghost use Rattle.std.specs.Prelude.{◌≡◌, ◌≢◌, ℕ, Bool, List};
ghost use Rattle.brc_lang.specs.declared.module.Function.{Function};
ghost use Rattle.brc_word.specs.declared.values.TheConstants.{SET};
ghost use Rattle.brc_word.specs.Words.{mark_at, marked_word, unmarked_word};
ghost use Rattle.brc_model.specs.declared.address.Address.{Address};
ghost use Rattle.brc_model.specs.declared.duty.Duty.{Duty};
ghost use Rattle.brc_model.specs.declared.layout.Layout.{Layout};
ghost use Rattle.brc_model.specs.declared.thread.Choice.{Choice};
ghost use Rattle.brc_model.specs.AbstractState.{Move};
ghost use Rattle.brc_model.specs.Rules.{Goes};
ghost use Rattle.brc_model.specs.StepMachine.{StepMachine};
ghost use Rattle.brc_model.specs.Trace.{events_on};
ghost use Rattle.brc_model.specs.World.{world_of};
ghost use Rattle.brc_trace.specs.declared.past.Past.{Past};
ghost use Rattle.brc_trace.specs.Naming.{named};
ghost use Rattle.brc_trace.specs.Rules.{rule_of};
ghost use Rattle.brc_trace.specs.Shown.{words_in};
ghost use Rattle.brc_trace.specs.TraceText.{entries_on};

use brc_world::sights_are_traces;

/// States that the words that a trace shows are the threads' traces: of each thread, its word events in their order,
/// each with what the step found and what it left.
pub fn traces_show_words()
    ensures { (functions : List Function) (m : StepMachine) (past : Past) (t : ℕ) (events : List (ℕ × Choice))
        → words_in t (entries_on functions (world_of m) past events) ≡ events_on t m events }
{
    sights_are_traces();
}

/// States that each step that goes by a rule of the step relation has that rule's name in the trace.
pub fn rules_are_named()
    ensures { (memory : Address → ℕ) (layout : Layout) (t : ℕ) (running : Bool) (head : ℕ) (d : Duty)
        (found left : ℕ) (next : List Duty) (moves : List Move)
        (goes : Goes memory layout t running head d found left next moves)
        → rule_of t running d found left ≡ named memory layout t running head d found left next moves goes }
{}

/// States that a step that takes a mark changes its word just if the mark was set, and a step that sets a mark just if
/// it was clear. So the trace reads off the words what the mark was.
pub fn changes_show_marks()
    ensures set_taken { (word bit : ℕ) → mark_at word bit ≡ SET → unmarked_word word bit ≢ word }
    ensures clear_taken { (word bit : ℕ) → mark_at word bit ≢ SET → unmarked_word word bit ≡ word }
    ensures set_again { (word bit : ℕ) → mark_at word bit ≡ SET → marked_word word bit ≡ word }
    ensures clear_set { (word bit : ℕ) → mark_at word bit ≢ SET → marked_word word bit ≢ word }
{}
