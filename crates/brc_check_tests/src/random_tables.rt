//! The tables of accepted functions, made up and random ones, compared with full ones that are filled by a plain walk
//! over all exits.

ghost use Rattle.std.specs.Prelude.{◌<◌};

use crate::accepted::{CALLS, FUNCTIONS as ACCEPTED, STATICS};
use crate::modules::module_of;
use crate::states::{CASES, first_other_state, takes_two_steps};
use brc_check::{Checked, Exit, State, Step, check, entry_of, follow};
use brc_lang::{Function, Instr, write_number, write_pieces};
use std::alloc::Global;
use std::test::*;

/// How many functions are made.
const FUNCTIONS: u64 = 2000;

/// The functions that a random one may call, and its heading.
const HEAD: &[u8] =
    b"module 2\nfunc show borrow any\nnewref v2 v1\nret v2\nend\nfunc give steal any\nret v1\nend\nfunc f\n";

/// From this point on a function gives up what it still owns.
const END: usize = 24;

/// The last point, a `fail`, before which nothing is owned. Lines that can fail lead there.
const LAST: usize = 29;

/// What v1, v2 and v3 own while a function is written: nothing (0), none (1), the list (2), a number (3), or what
/// another function has returned (4).
type Owned = [u8; 3];

const NAMES: [&[u8]; 3] = [b"v1", b"v2", b"v3"];

/// A function while it is written.
#[derive(Drop)]
struct Draft {
    lines: Vec<u8>,
    /// What is owned before each of its lines; `None` where no path comes.
    before: Vec<Option<Owned>>,
    owned: Owned,
    seed: u64,
}

/// Returns the next number of a linear congruential sequence (Knuth's MMIX), below the bound.
fn next(draft: &mut Draft, bound: u64) -> u64
    requires { 0 < bound }
    ensures { result < bound }
{
    draft.seed = draft
        .seed
        .wrapping_mul(6_364_136_223_846_793_005)
        .wrapping_add(1_442_695_040_888_963_407);
    (draft.seed >> 33) % bound
}

/// Adds the line of a form, in which `A` and `B` are the places of two variables.
fn put(draft: &mut Draft, form: &[u8], one: usize, other: usize) -> Result<(), Fail>
    requires one { one < 3 }
    requires other { other < 3 }
{
    draft.before.push(Some(draft.owned))?;
    for byte in form {
        match *byte {
            b'A' => draft.lines.extend_from_slice(NAMES[one])?,
            b'B' => draft.lines.extend_from_slice(NAMES[other])?,
            letter => draft.lines.push(letter)?,
        }
    }
    draft.lines.push(b'\n')?;
    Ok(())
}

/// Adds a line with a target behind its first words.
fn put_target(draft: &mut Draft, words: &[&[u8]], target: usize, rest: &[u8]) -> Result<(), Fail> {
    draft.before.push(Some(draft.owned))?;
    write_pieces(words, &mut draft.lines)?;
    write_number(target as u64, &mut draft.lines)?;
    draft.lines.extend_from_slice(rest)?;
    Ok(())
}

/// Adds a line whose two exits lead to the next one in the same state.
fn put_plain(draft: &mut Draft) -> Result<(), Fail> {
    let at = draft.before.len();
    put_target(draft, &[b"as v0 list else @"], at.saturating_add(1), b"\n")
}

/// Adds a line that goes back to a point with the same state, if this number is of one, and else a plain line.
fn put_again(draft: &mut Draft, to: usize) -> Result<(), Fail> {
    if draft.before.get(to) == Some(&Some(draft.owned)) {
        put_target(draft, &[b"again @"], to, b" 2\n")
    } else {
        put_plain(draft)
    }
}

/// Adds a `goto` over a line that no path reaches.
fn put_goto(draft: &mut Draft) -> Result<(), Fail> {
    let at = draft.before.len();
    put_target(draft, &[b"goto @"], at.saturating_add(2), b"\ndrop v5\n")?;
    draft.before.push(None)?;
    Ok(())
}

/// What is owned, but for this variable, which has this now.
fn with(owned: Owned, at: usize, value: u8) -> Owned
    requires { at < 3 }
{
    let mut made = owned;
    made[at] = value;
    made
}

/// The form of a line that makes, moves or gives up references, and what is owned behind it, or `None` where the
/// number is of no such line or the line would be refused. A call lends the list to `show`, if nothing is owned, or
/// `give` steals all that is; only what the call returns is owned behind it.
fn form_of(number: u64, one: usize, other: usize, owned: Owned) -> Option<(&'static [u8], Owned)>
    requires one { one < 3 }
    requires other { other < 3 }
{
    let is_empty = owned[one] == 0;
    let owns_nothing = owned == [0, 0, 0];
    let owns_other = with(owned, other, 0) == [0, 0, 0] && one != other;
    let returned = with([0, 0, 0], one, 4);
    let moved = with(with(owned, one, 0), other, owned[one]);
    let is_other_empty = owned[other] == 0;
    match number {
        0 if is_empty => Some((b"none A", with(owned, one, 1))),
        1 if is_empty => Some((b"newref A v0", with(owned, one, 2))),
        2 | 3 if owns_nothing => Some((b"num A 1 else @29", with(owned, one, 3))),
        2 if !is_empty => Some((b"drop A", with(owned, one, 0))),
        3 if !is_empty && is_other_empty => Some((b"move B A", moved)),
        8 | 9 if owns_nothing => Some((b"call A show v0 else @29", returned)),
        8 | 9 if owns_other => Some((b"call A give B else @29", returned)),
        _ => None,
    }
}

/// Adds a line at random.
fn put_random(draft: &mut Draft) -> Result<(), Fail> {
    let one = next(draft, 3) as usize;
    let other = next(draft, 3) as usize;
    let to = next(draft, 24) as usize;
    let number = next(draft, 10);
    let owned = draft.owned;
    match number {
        4 | 5 => put_again(draft, to),
        6 => put_goto(draft),
        _ => match form_of(number, one, other, owned) {
            Some(made) => {
                let form = made.0;
                let after = made.1;
                put(draft, form, one, other)?;
                draft.owned = after;
                Ok(())
            }
            None => put_plain(draft),
        },
    }
}

/// Returns the text of a module whose last function is a random one that is accepted.
fn text_of(alloc: Global, seed: u64) -> Result<Vec<u8>, Fail> {
    let mut draft = Draft {
        lines: Vec::from_slice(alloc, HEAD)?,
        before: Vec::new(alloc),
        owned: [0; 3],
        seed,
    };
    fill(&mut draft)?;
    let Draft { lines, .. } = draft;
    Ok(lines)
}

/// Writes a random function that is accepted.
fn fill(draft: &mut Draft) -> Result<(), Fail> {
    for _ in 0..END {
        if draft.before.len() < END {
            put_random(draft)?;
        }
    }
    for one in 0..3 {
        if draft.owned[one] != 0 {
            put(draft, b"drop A", one, one)?;
            draft.owned[one] = 0;
        }
    }
    for _ in 0..LAST {
        if draft.before.len() < LAST {
            put_plain(draft)?;
        }
    }
    put(draft, b"fail", 0, 0)?;
    put(draft, b"end", 0, 0)
}

/// Fills a full table: what each exit leaves becomes the state of its target, round after round.
fn walked(alloc: Global, function: &Function) -> Result<Vec<Option<State>>, Fail> {
    let code = function.code.as_slice();
    let mut states = Vec::new(alloc);
    states.push(Some(entry_of(function.parameters.as_slice())))?;
    for _ in 0..code.len() {
        states.push(None)?;
    }
    for _ in 0..code.len() {
        walk(code, &mut states);
    }
    Ok(states)
}

/// Makes one round.
fn walk(code: &[Instr], states: &mut Vec<Option<State>>) {
    for at in 0..code.len() {
        for exit in [Exit::Success, Exit::Fault] {
            let Some(Some(state)) = states.get(at).copied() else {
                continue;
            };
            if let Step::To(next, arriving) = follow(code, at, &state, exit) {
                if let Some(target) = states.get_mut(next) {
                    *target = Some(arriving);
                }
            }
        }
    }
}

/// A function of a module and a point of it, both counted from 0.
type Point = (usize, usize);

/// The first point of this function at which the table of an accepted module has another state than the walk.
fn first_other_in(
    alloc: Global,
    checked: &Checked,
    number: usize,
    function: &Function,
) -> Result<Option<usize>, Fail> {
    let states = walked(alloc, function)?;
    for (at, state) in states.iter().enumerate() {
        let other = checked.table().at(checked.module(), number, at) != *state;
        if other || checked.entry(number, at) != *state {
            return Ok(Some(at));
        }
    }
    Ok(None)
}

/// The first point at which the table of an accepted module has another state than the walk.
fn first_other_point(alloc: Global, checked: &Checked) -> Result<Option<Point>, Fail> {
    for (number, function) in checked.module().functions.as_slice().iter().enumerate() {
        if let Some(at) = first_other_in(alloc, checked, number, function)? {
            return Ok(Some((number, at)));
        }
    }
    Ok(None)
}

/// Whether the table of this accepted module has the states of the walk.
fn has_states_of_a_walk(alloc: Global, text: &[u8]) -> Result<bool, Fail> {
    match check(alloc, module_of(alloc, text)?) {
        Ok(checked) => Ok(first_other_point(alloc, &checked)?.is_none()),
        Err(_) => Err("the module is accepted, and memory is ample")?,
    }
}

/// The text of these lines below the front and above the back.
fn between(alloc: Global, front: &[u8], lines: &[u8], back: &[u8]) -> Result<Vec<u8>, Fail> {
    let mut text = Vec::from_slice(alloc, front)?;
    text.extend_from_slice(lines)?;
    text.extend_from_slice(back)?;
    Ok(text)
}

/// Fails unless the tables of these lines between the front and the back have the states of a walk.
fn have_states_of_walks(
    alloc: Global,
    front: &[u8],
    texts: &[&[u8]],
    back: &[u8],
) -> Result<(), Fail> {
    for lines in texts {
        let text = between(alloc, front, lines, back)?;
        if !has_states_of_a_walk(alloc, &text)? {
            return Err(Fail::new(format_args!("{lines:?}")));
        }
    }
    Ok(())
}

/// Whether the table of the random function has the states of a walk.
fn has_random_states(alloc: Global, seed: u64) -> Result<bool, Fail> {
    let text = text_of(alloc, seed)?;
    has_states_of_a_walk(alloc, &text)
}

/// Paths have the states that they should have, and so have tables.
#[test]
fn tables_have_the_states_of_a_walk(rt: HostRuntime) -> Result<(), Fail> {
    let alloc = rt.alloc();
    assert!(rt; takes_two_steps(alloc)?);
    for (lines, slots) in CASES {
        let other = first_other_state(alloc, lines, slots)?;
        assert_eq!(rt; other, None, "{lines:?}");
    }
    have_states_of_walks(alloc, b"module 1\nfunc f\n", ACCEPTED, b"end\n")?;
    have_states_of_walks(alloc, b"module 2\n", CALLS, b"")?;
    have_states_of_walks(alloc, b"module 3\nstatic 5 6\nfunc f\n", STATICS, b"end\n")?;
    for seed in 0..FUNCTIONS {
        assert!(rt; has_random_states(alloc, seed)?, "{seed}");
    }
    Ok(())
}
