//! The visits of a search for a path: the points and states that paths reach, each pair once.

ghost use Rattle.std.specs.Prelude.{◌≡◌, ◌↔◌, ◌<◌, ◌-◌, [], ◌∷◌, ◌++◌, length, replicate, IfOk, None, Some, IsTrue};
ghost use Rattle.brc_check.specs.Searching.{first_visit, first_visits, added, IsVisit, IsVisited, AreFirsts};

use crate::state::same_state;
use brc_lang::Sequence;
use brc_model::{Exit, State};
use std::alloc::{AllocError, Global};

/// A point, a state in which a path reaches it, and the last exit of that path.
#[derive(Clone, Copy)]
pub struct Visit {
    pub at: usize,
    pub state: State,
    /// The number of the visit before this one on the path. The first visit, which no exit leads to, names itself.
    pub before: usize,
    pub exit: Exit,
}

/// The visits so far.
#[derive(Drop)]
pub struct Visits {
    /// The visits in the order in which they were made.
    pub list: Sequence<Visit>,
    /// For each point the number of the first visit there, if there is one.
    pub firsts: Sequence<Option<usize>>,
}

fn first_numbers(alloc: Global, count: usize) -> Result<Sequence<Option<usize>>, AllocError>
    requires { 0 < count }
    ensures { IfOk result (λ numbers. numbers ≡ Some 0 ∷ replicate (count - 1) None) }
{
    let mut numbers = Sequence::new(alloc);
    numbers.push(Some(0))?;
    for _at in 1..count {
        numbers.push(None)?;
    }
    Ok(numbers)
}

fn first_visit(entry: &State) -> Visit
    ensures { result ≡ first_visit entry.now }
{
    Visit {
        at: 0,
        state: *entry,
        before: 0,
        exit: Exit::Success,
    }
}

fn push_visit(list: &mut Sequence<Visit>, visit: Visit) -> Result<(), AllocError>
    ensures { IfOk result (λ done. list.new ≡ list.old ++ visit ∷ []) }
{
    // The state is taken apart so that the borrow checker sees each type that the push moves.
    let State { slots, locked } = visit.state;
    list.push(Visit {
        at: visit.at,
        state: State { slots, locked },
        before: visit.before,
        exit: visit.exit,
    })
}

/// Returns the visits of a search through a function of `count` instructions at first: only that of the function's
/// entry.
pub fn first_visits(alloc: Global, entry: &State, count: usize) -> Result<Visits, AllocError>
    requires { 0 < count }
    ensures { IfOk result (λ visits. visits ≡ first_visits entry.now count) }
{
    let firsts = first_numbers(alloc, count)?;
    let mut list = Sequence::new(alloc);
    push_visit(&mut list, first_visit(entry))?;
    Ok(Visits { list, firsts })
}

fn is_visit(visit: &Visit, at: usize, state: &State) -> bool
    ensures { IsTrue result ↔ IsVisit visit.now at state.now }
{
    visit.at == at && same_state(&visit.state, state)
}

fn any_visit(list: &[Visit], at: usize, state: &State) -> bool
    ensures { IsTrue result ↔ IsVisited list.now at state.now }
{
    for visit in list {
        if is_visit(visit, at, state) {
            return true;
        }
    }
    false
}

/// Returns whether there is a visit to the point in the state.
pub fn is_visited(visits: &Visits, at: usize, state: &State) -> bool
    requires within { at < length visits.now.firsts }
    requires firsts { AreFirsts visits.now }
    ensures { IsTrue result ↔ IsVisited visits.now.list at state.now }
{
    let Some(first) = visits.firsts.as_slice()[at] else {
        return false;
    };
    // Until two paths reach a point in different states, each point has one visit, and there is no need to look on.
    let list = visits.list.as_slice();
    is_visit(&list[first], at, state) || any_visit(list, at, state)
}

/// Adds the visit.
pub fn add(visits: &mut Visits, visit: Visit) -> Result<(), AllocError>
    requires { visit.at < length visits.old.firsts }
    ensures { IfOk result (λ done. visits.new ≡ added visits.old visit) }
{
    let at = visit.at;
    let number = visits.list.len();
    push_visit(&mut visits.list, visit)?;
    if visits.firsts.as_slice()[at].is_none() {
        visits.firsts.set(at, Some(number));
    }
    Ok(())
}
