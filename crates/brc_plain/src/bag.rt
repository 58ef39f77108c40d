//! The abstract state of references: each reference with its holder and its object, and which objects were born and
//! closed.

ghost use Rattle.std.specs.Prelude.{◌≡◌, ◌<◌, ◌==◌, ◌&&◌, false, true, ◌∷◌, length, map, IfOk, MatchOption, OnOk};
ghost use Rattle.std.specs.List.{list_any, remove};
ghost use Rattle.brc_model.specs.AbstractState.{Born, PassOn, are_allowed, holds_by_cells, is_allowed, is_among, is_cell_of, move, moved, references_to, same, same_holder, same_holding, without};
ghost use Rattle.brc_model.specs.Kinds.{is_counted_kind};
ghost use Rattle.brc_plain.specs.Bags.{bag_in, holder_in, move_in, reference_in};
ghost use Rattle.brc_plain.specs.Lost.{is_lost, is_open_cell, keeps};

use crate::refused::Refused;
use brc_effect::rows::is_immortal_row;
use brc_lang::Kind;
use brc_model::{Holding, Layout};
use std::alloc::Global;

/// The holder of a reference.
#[derive(Clone, Copy)]
pub enum Holder {
    /// The thread, in one of its ways.
    ByThread { thread: u8, holding: Holding },
    /// A cell of a list, by the list's row and the cell's number.
    ByCell { list: u32, cell: u32 },
}

/// A reference to the object of a row.
#[derive(Clone, Copy)]
pub struct Reference {
    pub holder: Holder,
    pub object: u32,
}

/// A change of the abstract state.
#[derive(Clone, Copy)]
pub enum Move {
    /// The object of the reference is born, with this first reference.
    Born {
        reference: Reference,
        kind: Kind,
    },
    /// There is a further reference.
    Gain(Reference),
    /// The reference is given up.
    Lose(Reference),
    /// The reference goes to another holder.
    PassOn {
        reference: Reference,
        holder: Holder,
    },
    /// The object is closed.
    Finalise(u32),
}

/// The abstract state of references.
#[derive(Drop)]
pub struct Bag {
    /// The latest first.
    pub references: Vec<Reference>,
    /// The rows of the objects that were born, in the order of their births.
    pub born: Vec<u32>,
    pub closed: Vec<u32>,
    /// The kind of each row's object.
    pub kinds: Vec<Kind>,
}

fn same_holding(one: &Holding, other: &Holding) -> bool
    ensures { result ≡ same_holding one.now other.now }
{
    match one {
        Holding::ByVariable { depth, variable } => match other {
            Holding::ByVariable {
                depth: other_depth,
                variable: other_variable,
            } => *depth == *other_depth && variable.number() == other_variable.number(),
            Holding::AsCaller | Holding::InFlight => false,
        },
        Holding::AsCaller => matches!(other, Holding::AsCaller),
        Holding::InFlight => matches!(other, Holding::InFlight),
    }
}

fn same_holder(one: &Holder, other: &Holder) -> bool
    ensures { result ≡ same_holder (holder_in one.now) (holder_in other.now) }
{
    match one {
        Holder::ByThread { thread, holding } => match other {
            Holder::ByThread {
                thread: other_thread,
                holding: other_holding,
            } => *thread == *other_thread && same_holding(holding, other_holding),
            Holder::ByCell { .. } => false,
        },
        Holder::ByCell { list, cell } => match other {
            Holder::ByThread { .. } => false,
            Holder::ByCell {
                list: other_list,
                cell: other_cell,
            } => *list == *other_list && *cell == *other_cell,
        },
    }
}

fn same(one: &Reference, other: &Reference) -> bool
    ensures { result ≡ same (reference_in one.now) (reference_in other.now) }
{
    same_holder(&one.holder, &other.holder) && one.object == other.object
}

fn is_cell_of(row: u32, holder: &Holder) -> bool
    ensures { result ≡ is_cell_of row (holder_in holder.now) }
{
    match holder {
        Holder::ByThread { .. } => false,
        Holder::ByCell { list, .. } => *list == row,
    }
}

/// Returns whether the holder is a cell of a list that isn't among the closed ones.
fn is_open_cell(closed: &[u32], holder: &Holder) -> bool
    ensures { result ≡ is_open_cell closed.now (holder_in holder.now) }
{
    match holder {
        Holder::ByThread { .. } => false,
        Holder::ByCell { list, .. } => !is_among(*list, closed),
    }
}

/// Returns whether the reference is one to the row's object, and a cell of a list that isn't closed holds it.
fn is_kept(closed: &[u32], row: u32, reference: &Reference) -> bool
    ensures { result ≡ ((reference.now.object == row) && is_open_cell closed.now (holder_in reference.now.holder)) }
{
    reference.object == row && is_open_cell(closed, &reference.holder)
}

fn is_counted_kind(kind: Kind) -> bool
    ensures { result ≡ is_counted_kind kind }
{
    match kind {
        Kind::Any | Kind::None => false,
        Kind::Num | Kind::List | Kind::File | Kind::Sock => true,
    }
}

/// Returns whether the row is among the rows.
pub fn is_among(row: u32, rows: &[u32]) -> bool
    ensures { result ≡ is_among row rows.now }
{
    rows.iter().any(|x| *x == row)
}

/// Returns the place of the first reference that is the same, if there is one.
fn place_of(references: &[Reference], reference: &Reference) -> Option<usize>
    ensures { MatchOption result
        (without (reference_in reference.now) (map reference_in references.now) ≡ map reference_in references.now)
        (λ at. (at < length references.now)
        × (map reference_in (remove references.now at)
        ≡ without (reference_in reference.now) (map reference_in references.now))) }
{
    for at in 0..references.len() {
        if same(reference, &references[at]) {
            return Some(at);
        }
    }
    None
}

/// Takes the first reference that is the same out of the references, if there is one.
fn take_out(references: &mut Vec<Reference>, reference: &Reference)
    ensures { map reference_in references.new.items
        ≡ without (reference_in reference.now) (map reference_in references.old.items) }
{
    let Some(at) = place_of(references.as_slice(), reference) else {
        return;
    };
    references.remove(at);
}

/// Adds the reference of the holder to the object.
fn add(references: &mut Vec<Reference>, holder: Holder, object: u32) -> Result<(), Refused>
    ensures { OnOk result (map reference_in references.new.items
        ≡ (record { holder = holder_in holder; object = object }) ∷ map reference_in references.old.items) }
{
    references.insert(0, Reference { holder, object })?;
    Ok(())
}

impl Bag {
    /// Returns a copy.
    pub fn copy(&self, alloc: Global) -> Result<Bag, Refused>
        ensures { IfOk result (λ copy. bag_in copy ≡ bag_in self.now) }
    {
        Ok(Bag {
            references: Vec::from_slice(alloc, self.references.as_slice())?,
            born: Vec::from_slice(alloc, self.born.as_slice())?,
            closed: Vec::from_slice(alloc, self.closed.as_slice())?,
            kinds: Vec::from_slice(alloc, self.kinds.as_slice())?,
        })
    }

    /// Returns the number of references to the row's object.
    pub fn references_to(&self, row: u32) -> usize
        ensures { result ≡ references_to row (bag_in self.now).references }
    {
        self.references.iter().filter(|r| r.object == row).count()
    }

    /// Returns whether the bag has the reference.
    fn has(&self, reference: &Reference) -> bool
        ensures { result ≡ list_any (same (reference_in reference.now)) (bag_in self.now).references }
    {
        self.references.iter().any(|r| same(reference, r))
    }

    /// Returns whether a cell of the row's list holds a reference.
    fn holds_by_cells(&self, row: u32) -> bool
        ensures { result ≡ holds_by_cells row (bag_in self.now).references }
    {
        self.references.iter().any(|r| is_cell_of(row, &r.holder))
    }

    /// Returns whether a cell of a list that isn't closed holds a reference to the row's object.
    fn keeps(&self, row: u32) -> bool
        ensures { result ≡ list_any (keeps (bag_in self.now) row) (bag_in self.now).references }
    {
        let closed = self.closed.as_slice();
        self.references.iter().any(|r| is_kept(closed, row, r))
    }

    /// Returns whether the row's object is born and isn't closed, and no cell of an open list holds a reference to it.
    pub fn is_lost(&self, row: u32) -> bool
        ensures { result ≡ is_lost (bag_in self.now) row }
    {
        is_among(row, self.born.as_slice())
            && !is_among(row, self.closed.as_slice())
            && !self.keeps(row)
    }

    /// Returns whether the move is allowed.
    fn is_allowed(&self, layout: Layout, change: &Move) -> bool
        ensures { result ≡ is_allowed layout (bag_in self.now) (move_in change.now) }
    {
        match change {
            Move::Born { reference, kind } => {
                !is_immortal_row(layout, reference.object)
                    && is_counted_kind(*kind)
                    && !is_among(reference.object, self.born.as_slice())
            }
            Move::Gain(reference) => {
                is_immortal_row(layout, reference.object)
                    || 0 < self.references_to(reference.object)
            }
            Move::Lose(reference) | Move::PassOn { reference, .. } => self.has(reference),
            Move::Finalise(row) => {
                !is_immortal_row(layout, *row)
                    && self.references_to(*row) == 0
                    && !is_among(*row, self.closed.as_slice())
                    && !self.holds_by_cells(*row)
            }
        }
    }

    /// The object of the reference, which is of the kind, is born.
    fn bear(&mut self, reference: &Reference, kind: Kind) -> Result<(), Refused>
        ensures { OnOk result (bag_in self.new
            ≡ move (bag_in self.old) (Born (reference_in reference.now) kind)) }
    {
        let row = reference.object as usize;
        if row >= self.kinds.len() {
            return Err(Refused::OutOfBounds);
        }
        add(&mut self.references, reference.holder, reference.object)?;
        self.born.push(reference.object)?;
        self.kinds[row] = kind;
        Ok(())
    }

    /// The reference goes to the holder.
    fn pass_on(&mut self, reference: &Reference, holder: Holder) -> Result<(), Refused>
        ensures { OnOk result (bag_in self.new
            ≡ move (bag_in self.old) (PassOn (reference_in reference.now) (holder_in holder))) }
    {
        take_out(&mut self.references, reference);
        add(&mut self.references, holder, reference.object)
    }

    /// Makes the move. After an `Err` the state is neither the old nor the new one.
    fn make(&mut self, change: &Move) -> Result<(), Refused>
        ensures { OnOk result (bag_in self.new ≡ move (bag_in self.old) (move_in change.now)) }
    {
        match change {
            Move::Born { reference, kind } => self.bear(reference, *kind)?,
            Move::Gain(reference) => {
                add(&mut self.references, reference.holder, reference.object)?;
            }
            Move::Lose(reference) => take_out(&mut self.references, reference),
            Move::PassOn { reference, holder } => self.pass_on(reference, *holder)?,
            Move::Finalise(row) => self.closed.push(*row)?,
        }
        Ok(())
    }

    /// Returns whether each of the moves is allowed in the state that the moves before it leave.
    pub fn are_allowed(
        &self,
        alloc: Global,
        layout: Layout,
        changes: &[Move],
    ) -> Result<bool, Refused>
        ensures { IfOk result (λ allowed. allowed ≡ are_allowed layout (bag_in self.now) (map move_in changes.now)) }
    {
        let mut state = self.copy(alloc)?;
        for change in changes {
            if !state.is_allowed(layout, change) {
                return Ok(false);
            }
            state.make(change)?;
        }
        Ok(true)
    }

    /// Returns the first of the moves that isn't allowed in the state that the moves before it leave.
    pub fn first_refused(
        &self,
        alloc: Global,
        layout: Layout,
        changes: &[Move],
    ) -> Result<Option<Move>, Refused> {
        let mut state = self.copy(alloc)?;
        for change in changes {
            if !state.is_allowed(layout, change) {
                return Ok(Some(*change));
            }
            state.make(change)?;
        }
        Ok(None)
    }

    /// Makes the moves in order. After an `Err` the state is neither the old nor the new one.
    pub fn make_all(&mut self, changes: &[Move]) -> Result<(), Refused>
        ensures { OnOk result (bag_in self.new ≡ moved (bag_in self.old) (map move_in changes.now)) }
    {
        for change in changes {
            self.make(change)?;
        }
        Ok(())
    }
}
