//! The machine before any step.

ghost use Rattle.std.specs.Prelude.{◌≡◌, ◌+◌, ◌<◌, ◌≤◌, ◌^◌, ◌∷◌, ◌++◌, map, IfOk, OnOk};
ghost use Rattle.brc_model.specs.declared.actor.Place.TheVariants.{Idle};
ghost use Rattle.brc_model.specs.FirstRows.{HasLines, first_kinds, first_life, line_references, list_references, rows_from};
ghost use Rattle.brc_model.specs.Layout.{first_immortal_list, first_number, root_row, row_count};
ghost use Rattle.brc_model.specs.Limits.{total_limit};
ghost use Rattle.brc_model.specs.Machine.{idle_actor};
ghost use Rattle.brc_model.specs.StepMachine.{callers_below, first_abstract, main_actor, worker_actor};
ghost use Rattle.brc_plain.specs.Bags.{bag_in, reference_in, AreKinds};
ghost use Rattle.brc_plain.specs.Lives.{life_at, life_in};
ghost use Rattle.brc_plain.specs.Threads.{actor_of};

use crate::bag::{Bag, Holder, Reference};
use crate::lives::Life;
use crate::place::Place;
use crate::refused::Refused;
use crate::thread::Thread;
use brc_effect::rows::{NONE_ROW, ROOT, block_size, first_immortal_list, first_number, row_count};
use brc_lang::{Kind, Sequence};
use brc_model::{Call, Holding, Layout, Status};
use std::alloc::Global;

/// Returns the kind that the row's object has at the start.
fn first_kind(layout: Layout, row: u32) -> Kind
    ensures { result ≡ first_kinds layout row }
{
    if row == NONE_ROW {
        Kind::None
    } else if row == ROOT {
        Kind::List
    } else if row < first_immortal_list(layout) {
        Kind::Any
    } else if row < first_number(layout) {
        Kind::List
    } else if (row as usize) < row_count(layout) {
        Kind::Num
    } else {
        Kind::Any
    }
}

/// Returns the life that the row's object has at the start.
fn first_life(layout: Layout, row: u32) -> Life
    ensures { life_in result ≡ first_life layout row }
{
    if row == NONE_ROW || row == ROOT {
        Life::Live
    } else if row < first_immortal_list(layout) {
        Life::Unborn
    } else if (row as usize) < row_count(layout) {
        Life::Live
    } else {
        Life::Unborn
    }
}

/// Returns the lives of all rows at the start.
pub fn first_lives(alloc: Global, layout: Layout) -> Result<Vec<Life>, Refused>
    requires { row_count layout ≤ total_limit }
    ensures { IfOk result (λ lives. life_at lives.items ≡ first_life layout) }
{
    let mut lives = Vec::new(alloc);
    for row in 0..row_count(layout) as u32 {
        lives.push(first_life(layout, row))?;
    }
    Ok(lives)
}

/// Returns the kinds of all rows at the start.
fn first_kinds(alloc: Global, layout: Layout) -> Result<Vec<Kind>, Refused>
    requires { row_count layout ≤ total_limit }
    ensures { IfOk result (λ kinds. AreKinds kinds.items (first_kinds layout)) }
{
    let mut kinds = Vec::new(alloc);
    for row in 0..row_count(layout) as u32 {
        kinds.push(first_kind(layout, row))?;
    }
    Ok(kinds)
}

/// Adds the references of the first `count` cells of the list, of which the first names the row `first`.
fn add_line(
    references: &mut Vec<Reference>,
    list: u32,
    first: u32,
    count: u32,
) -> Result<(), Refused>
    requires { first + count < 2 ^ 32 }
    ensures { OnOk result (map reference_in references.new.items
        ≡ map reference_in references.old.items ++ line_references list first count) }
{
    let mut left = count;
    while left > 0 {
        left -= 1;
        references.push(Reference {
            holder: Holder::ByCell { list, cell: left },
            object: first + left,
        })?;
    }
    Ok(())
}

/// Adds the references to the root that the threads below `callers` hold as callers.
fn add_callers(references: &mut Vec<Reference>, callers: u8) -> Result<(), Refused>
    ensures { OnOk result (map reference_in references.new.items
        ≡ map reference_in references.old.items ++ callers_below callers) }
{
    let mut left = callers;
    while left > 0 {
        left -= 1;
        references.push(Reference {
            holder: Holder::ByThread {
                thread: left,
                holding: Holding::AsCaller,
            },
            object: ROOT,
        })?;
    }
    Ok(())
}

/// Returns the references before any step.
fn first_references(
    alloc: Global,
    layout: Layout,
    callers: u8,
    statics: &[Sequence<u32>],
) -> Result<Vec<Reference>, Refused>
    requires lines { HasLines statics.now layout }
    requires small { row_count layout ≤ total_limit }
    ensures { IfOk result (λ references. map reference_in references.items
        ≡ list_references (first_immortal_list layout) (first_number layout) statics.now ++ callers_below callers) }
{
    let mut references = Vec::new(alloc);
    let mut list = first_immortal_list(layout);
    let mut first = first_number(layout);
    for line in statics {
        let count = line.len() as u32;
        add_line(&mut references, list, first, count)?;
        list += 1;
        first += count;
    }
    add_callers(&mut references, callers)?;
    Ok(references)
}

/// Returns the rows of the objects that are born before any step and are counted.
fn first_born(alloc: Global, layout: Layout) -> Result<Vec<u32>, Refused>
    requires { row_count layout ≤ total_limit }
    ensures { IfOk result (λ born. born.items ≡ root_row ∷ rows_from (first_number layout) layout.numbers) }
{
    let mut born = Vec::new(alloc);
    born.push(ROOT)?;
    let first = first_number(layout);
    for number in 0..u32::from(layout.numbers) {
        born.push(first + number)?;
    }
    Ok(born)
}

/// Returns the abstract state before any step.
pub fn first_bag(
    alloc: Global,
    layout: Layout,
    callers: u8,
    statics: &[Sequence<u32>],
) -> Result<Bag, Refused>
    requires lines { HasLines statics.now layout }
    requires small { row_count layout ≤ total_limit }
    ensures { IfOk result (λ bag. bag_in bag ≡ first_abstract statics.now layout callers) }
{
    Ok(Bag {
        references: first_references(alloc, layout, callers, statics)?,
        born: first_born(alloc, layout)?,
        closed: Vec::new(alloc),
        kinds: first_kinds(alloc, layout)?,
    })
}

/// Returns main and one worker for each call. Main has used all rows of its block.
pub fn first_threads(alloc: Global, layout: Layout, calls: &[Call]) -> Result<Vec<Thread>, Refused>
    ensures { IfOk result (λ threads. map actor_of threads.items ≡ main_actor layout ∷ map worker_actor calls.now) }
{
    let mut threads = Vec::with_capacity(alloc, 1 + calls.len())?;
    threads.push(idle(alloc, 0, 0, block_size(layout, 0)))?;
    for call in calls {
        threads.push(idle(alloc, call.function, call.times, 0))?;
    }
    Ok(threads)
}

/// Returns a running thread with nothing to do, which has this number of calls of the function to make and has used
/// this number of rows.
fn idle(alloc: Global, function: usize, left: u32, used: u32) -> Thread
    ensures { actor_of result ≡ record {
      function = function;
      place = Idle left;
      actor = idle_actor used;
    } }
{
    Thread {
        function,
        place: Place::Idle { left },
        status: Status::Running,
        agenda: Vec::new(alloc),
        head: 0,
        used,
        locked: None,
        lent: None,
    }
}
