//! What a state knows of its variables, and how it forgets what was borrowed from the locked list.

ghost use Rattle.std.specs.Prelude.{◌≡◌, [], ◌∷◌, map};
ghost use Rattle.std.specs.List.{list_any};
ghost use Rattle.brc_lang.specs.declared.kind.Kind.TheVariants as kinds;
ghost use Rattle.brc_model.specs.SlotStates.{var_of, is_owned, kind_of, is_one_of, lockable, with_resource, names, may_be};
ghost use Rattle.brc_model.specs.SlotStates.{with_kind, put, without_item, without_items, without_stolen};

use brc_lang::{Argument, Kind, Passing, Variable};
use brc_model::{Slot, State};

pub fn var(state: &State, variable: Variable) -> Slot
    ensures { result ≡ var_of state.now variable }
{
    state.slots[variable.number() as usize]
}

/// Replaces the variable's state.
pub fn put(state: &mut State, variable: Variable, var: Slot)
    ensures { state.new ≡ put state.old variable var }
{
    state.slots[variable.number() as usize] = var;
}

pub fn kind_of(var: Slot) -> Kind
    ensures { result ≡ kind_of var }
{
    match var {
        Slot::Empty => Kind::Any,
        Slot::Owned(kind) | Slot::Caller(kind) | Slot::Locked(kind) => kind,
    }
}

/// Returns whether an object of the kind `known` may be of the kind `asked`.
pub fn may_be(known: Kind, asked: Kind) -> bool
    ensures { result ≡ may_be known asked }
{
    known == Kind::Any || known == asked
}

/// Returns whether the variable's state is known to name a list.
pub fn is_list(var: Slot) -> bool
    ensures { result ≡ is_one_of (kind_of var) (kinds.List ∷ []) }
{
    kind_of(var) == Kind::List
}

/// Returns whether the variable's state is known to name a number.
pub fn is_num(var: Slot) -> bool
    ensures { result ≡ is_one_of (kind_of var) (kinds.Num ∷ []) }
{
    kind_of(var) == Kind::Num
}

/// Returns whether the variable's state is known to name a file or a socket, which has a resource of the host.
pub fn has_resource(var: Slot) -> bool
    ensures { result ≡ is_one_of (kind_of var) with_resource }
{
    matches!(kind_of(var), Kind::File | Kind::Sock)
}

/// Returns whether objects of the kind can be locked.
pub fn is_lockable(kind: Kind) -> bool
    ensures { result ≡ is_one_of kind lockable }
{
    matches!(kind, Kind::List | Kind::File | Kind::Sock)
}

/// Returns the variable's state with another kind.
pub fn with_kind(var: Slot, kind: Kind) -> Slot
    ensures { result ≡ with_kind var kind }
{
    match var {
        Slot::Empty => Slot::Empty,
        Slot::Owned(_) => Slot::Owned(kind),
        Slot::Caller(_) => Slot::Caller(kind),
        Slot::Locked(_) => Slot::Locked(kind),
    }
}

pub fn is_locked(state: &State, variable: Variable) -> bool
    ensures { result ≡ names state.now.locked variable }
{
    match state.locked {
        None => false,
        Some(locked) => variable.number() == locked.number(),
    }
}

pub fn any_owned(slots: &[Slot; 16]) -> bool
    ensures { result ≡ list_any is_owned slots.now }
{
    slots.iter().any(|var| matches!(var, Slot::Owned(_)))
}

/// Returns the variable's state, or an empty one if it borrows from the locked list.
fn without_item(var: Slot) -> Slot
    ensures { result ≡ without_item var }
{
    match var {
        Slot::Locked(_) => Slot::Empty,
        Slot::Empty | Slot::Owned(_) | Slot::Caller(_) => var,
    }
}

fn slots_without_items(slots: [Slot; 16]) -> [Slot; 16]
    ensures { result ≡ map without_item slots }
{
    slots.map(without_item)
}

/// Empties each variable that borrows from the locked list.
pub fn forget_items(state: &mut State)
    ensures { state.new ≡ without_items state.old }
{
    state.slots = slots_without_items(state.slots);
}

/// Empties each variable whose reference the call of these arguments steals.
pub fn forget_stolen(state: &mut State, arguments: &[Argument])
    ensures { state.new ≡ without_stolen state.old arguments.now }
{
    for argument in arguments {
        if let Passing::Steal = argument.parameter.passing {
            put(state, argument.from, Slot::Empty);
        }
    }
}
