//! The safety of accepted modules, and the states of their points.

ghost use Rattle.std.specs.Prelude.{ℕ, Option};
ghost use Rattle.brc_lang.specs.declared.module.Module.{Module};
ghost use Rattle.brc_lang.specs.Grammar.{IsModule};
ghost use Rattle.brc_model.specs.declared.state.State.{State};
ghost use Rattle.brc_model.specs.Paths.{IsAcceptable};
ghost use Rattle.brc_model.specs.Safety.{Safe};
ghost use Rattle.brc_model.specs.Tables.{AreTrueStates, AreTrueWhereReached};

/// States that an accepted module is safe: its points have states, and it is safe for all such states, for every number
/// of workers and rows, every list of calls, and every list of steps and choices, wherever the list stops.
pub fn accepted_is_safe()
    ensures { (m : Module) → IsModule m → IsAcceptable m → Safe m }
{}

/// States that each acceptable module has true states: each point that a path reaches has the path's state, and no
/// other point has one. True states are such as `Safe` speaks of (`serve`).
pub fn true_states_are_there()
    ensures there { (m : Module) → IsAcceptable m → (states : ℕ → ℕ → Option State) × AreTrueStates m states }
    ensures serve { (m : Module) (states : ℕ → ℕ → Option State) → AreTrueStates m states
        → AreTrueWhereReached m states }
{}
