ghost use Rattle.std.specs.Prelude.{◌≡◌, true, IfOk};
ghost use Rattle.brc_model.specs.Safety.{IsCall};
ghost use Rattle.brc_check_tests.specs.Callable.{HasCallableEnds};

use crate::modules::module_of;
use brc_check::{Checked, check};
use brc_world::{Call, Choice, Did, NoMemory, Tally, World};
use std::alloc::Global;
use std::test::*;

/// Reads and checks the module of this text, whose first and last functions have no parameters.
pub fn accepted_text(alloc: Global, text: &[u8]) -> Result<Checked, Fail>
    ensures { IfOk result (λ checked. HasCallableEnds checked.module) }
{
    let module = module_of(alloc, text)?;
    match check(alloc, module) {
        Ok(checked) => callable(checked),
        Err(_) => Err("the module is accepted")?,
    }
}

/// Returns the module if its first and last functions have no parameters.
fn callable(checked: Checked) -> Result<Checked, Fail>
    ensures { IfOk result (λ it. HasCallableEnds it.module) }
{
    if has_callable_ends(&checked) {
        Ok(checked)
    } else {
        Err("the first and the last function have no parameters")?
    }
}

/// Returns whether the module's first function and its last one have no parameters, as those that workers call.
#[tactic(auto, using(crate::proofs::Callable::has_no_parameters))]
fn has_callable_ends(checked: &Checked) -> bool
    ensures { result ≡ true → HasCallableEnds checked.now.module }
{
    // The accepted module has a first function.
    let functions = checked.module().functions.as_slice();
    let last = functions.len() - 1;
    functions[0].parameters.len() == 0 && functions[last].parameters.len() == 0
}

/// Returns the call of the module's last function, made once.
pub fn last_call(checked: &Checked) -> Call
    requires { HasCallableEnds checked.now.module }
    ensures { IsCall checked.now.module result }
{
    Call {
        function: checked.module().functions.len() - 1,
        times: 1,
    }
}

/// Takes one step, if there is such a thread.
pub fn step(world: &mut World<'_>, thread: usize, choice: Choice) -> Result<Option<Did>, NoMemory> {
    if thread < world.threads() {
        Ok(Some(world.step(thread, choice)?))
    } else {
        Ok(None)
    }
}

fn is_gone(world: &World<'_>, thread: usize) -> bool {
    thread < world.threads() && world.is_gone(thread)
}

/// Returns the numbers of the world's tally, in the order of a report, and how many objects it lists as left.
pub fn counted(world: &World<'_>) -> Result<([u64; 7], usize), NoMemory> {
    let tally = tally(world)?;
    let numbers = [
        tally.threads,
        tally.running,
        tally.created,
        tally.closed,
        tally.alive,
        tally.host_faults,
        tally.close_faults,
    ];
    Ok((numbers, tally.left.len()))
}

/// Returns the tally. This function has no contract, because `World::tally`'s would make each later line slow to prove.
fn tally(world: &World<'_>) -> Result<Tally, NoMemory> {
    world.tally()
}

/// A function that makes a reference to the root and gives it up.
pub const TAKE_AND_DROP: &[u8] = b"module 1\nfunc f\nnewref v1 v0\ndrop v1\nfail\nend\n";

/// More steps than each thread takes.
const ENOUGH: usize = 200;

/// What a run says of itself: the number of its threads, what its first step does, whether worker 1 is gone once each
/// thread has taken its steps, and what one more step of it does.
type Said = (usize, Option<Did>, bool, Option<Did>);

/// A first step moves, and a thread that is gone stays so.
pub const SAID: Said = (3, Some(Did::Moved), true, Some(Did::Gone));

/// Returns what a world with two workers says.
pub fn said(alloc: Global) -> Result<Said, Fail> {
    let checked = accepted_text(alloc, TAKE_AND_DROP)?;
    said_of(alloc, &checked)
}

fn said_of(alloc: Global, checked: &Checked) -> Result<Said, Fail>
    requires { HasCallableEnds checked.now.module }
{
    let call = last_call(checked);
    let mut world = World::new(alloc, checked, 2, 1024, &[call, call])?;
    said_by(&mut world)
}

fn said_by(world: &mut World<'_>) -> Result<Said, Fail> {
    let threads = world.threads();
    let first = step(world, 1, Choice::Ok)?;
    for thread in [1, 2, 0] {
        for _ in 0..ENOUGH {
            step(world, thread, Choice::Ok)?;
        }
    }
    let gone = is_gone(world, 1);
    let last = step(world, 1, Choice::Ok)?;
    Ok((threads, first, gone, last))
}
