//! The agreement of the step relation's rules with the steps that the model computes.

ghost use Rattle.std.specs.Prelude.{ℕ, Bool, List};
ghost use Rattle.brc_model.specs.declared.duty.Duty.{Duty};
ghost use Rattle.brc_model.specs.declared.address.Address.{Address};
ghost use Rattle.brc_model.specs.declared.layout.Layout.{Layout};
ghost use Rattle.brc_model.specs.AbstractState.{Move};
ghost use Rattle.brc_model.specs.Duties.{new_word, continuation};
ghost use Rattle.brc_model.specs.Moves.{reference_effects};
ghost use Rattle.brc_model.specs.Rules.{Goes, IsComputed};

/// States that each step of a duty is one of the named rules, and that a rule concludes exactly what the step computes:
/// the value that it leaves, the duties that follow, and the moves of references.
pub fn steps_go_by_rules()
    ensures each { (memory : Address → ℕ) (layout : Layout) (t : ℕ) (running : Bool) (head : ℕ) (d : Duty)
        (found : ℕ)
        → Goes memory layout t running head d found (new_word layout t head d found)
        (continuation layout t running head d found)
        (reference_effects memory t d found) }
    ensures only { (memory : Address → ℕ) (layout : Layout) (t : ℕ) (running : Bool) (head : ℕ) (d : Duty)
        (found left : ℕ) (next : List Duty) (moves : List Move)
        → Goes memory layout t running head d found left next moves
        → IsComputed memory layout t running head d found left next moves }
{}
