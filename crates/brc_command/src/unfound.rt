//! What is said of a search that has found no run: why it has ended, and what its runs may have lacked.

use brc_explore::ItemRead;
use brc_lang::{Function, Module, write_bytes, write_instruction, write_pieces};
use brc_world::NoMemory;
use std::alloc::Global;
use std::io;
use std::io::Write;

/// A search for a run that goes wrong.
#[derive(Drop)]
pub struct Search {
    /// The number of the function that is refused.
    pub function: usize,
    /// Among how many states it has looked.
    pub states: u64,
    pub end: SearchEnd,
    /// How items were read in its runs.
    pub reads: Vec<ItemRead>,
}

/// Why a search has ended.
#[derive(Clone, Copy, PartialEq, Eq)]
pub enum SearchEnd {
    /// It has seen all states to which the calls that it tried lead.
    Whole,
    /// It had room for no further state.
    Bound,
    /// Its seconds have passed.
    Clock,
    /// It had no calls to try: no function that a worker can call calls the one that is refused.
    Uncalled,
}

/// Returns why the search has ended, and which instruction never found an item.
pub fn text_of_search(
    alloc: Global,
    module: &Module,
    search: &Search,
) -> Result<Vec<u8>, NoMemory> {
    let mut text = Vec::new(alloc);
    match write_search(module, search, &mut text) {
        Ok(()) => Ok(text),
        // A vector refuses bytes only for want of memory.
        Err(_) => Err(NoMemory),
    }
}

fn write_search<W: Write>(module: &Module, search: &Search, out: &mut W) -> io::Result<()> {
    let functions = module.functions.as_slice();
    if let Some(function) = functions.get(search.function) {
        write_end(search.end, function, out)?;
    }
    match first_missing(search) {
        Some(read) => write_missing(functions, read, out),
        None => Ok(()),
    }
}

fn write_end<W: Write>(end: SearchEnd, function: &Function, out: &mut W) -> io::Result<()> {
    match end {
        SearchEnd::Whole => write_bytes(b"All states of the calls tried were seen.\n", out),
        SearchEnd::Bound => write_bytes(
            b"Not all states were seen: the search ended at their bound (--states).\n",
            out,
        ),
        SearchEnd::Clock => write_bytes(
            b"Not all states were seen: the search ended with its time (--seconds).\n",
            out,
        ),
        SearchEnd::Uncalled => write_pieces(
            &[
                b"No state was seen: no function without parameters calls ",
                function.name.as_bytes(),
                b".\n",
            ],
            out,
        ),
    }
}

/// Returns the first instruction in the refused function that was tried and never found an item, or if there is none,
/// the first one in another function.
fn first_missing(search: &Search) -> Option<ItemRead> {
    let mut first: Option<ItemRead> = None;
    for read in search.reads.as_slice() {
        if is_missing(search.reads.as_slice(), *read) && is_before(*read, first, search.function) {
            first = Some(*read);
        }
    }
    first
}

/// Returns whether the instruction never found an item.
fn is_missing(reads: &[ItemRead], read: ItemRead) -> bool {
    !read.found
        && !reads.contains(&ItemRead {
            found: true,
            ..read
        })
}

/// Returns whether the instruction comes before the other one, if there is one: those of this function come first.
fn is_before(read: ItemRead, other: Option<ItemRead>, function: usize) -> bool {
    let Some(other) = other else {
        return true;
    };
    if read.function != other.function {
        return read.function == function;
    }
    read.at < other.at
}

/// Writes that the instruction never found an item.
fn write_missing<W: Write>(functions: &[Function], read: ItemRead, out: &mut W) -> io::Result<()> {
    let Some(function) = functions.get(read.function) else {
        return Ok(());
    };
    let Some(instr) = function.code.as_slice().get(read.at) else {
        return Ok(());
    };
    write_pieces(&[b"At ", function.name.as_bytes()], out)?;
    let at = read.at;
    write!(out, " @{at}, ")?;
    write_instruction(functions, *instr, out)?;
    write_bytes(
        b": there was no item in any of these runs.\n\
        Functions that put one there (set, put) are called too, by --workers 2 or more.\n",
        out,
    )
}
