//! The exits of a path, read back from the visits of a search.

ghost use Rattle.std.specs.Prelude.{◌≡◌, ◌<◌, length, reverse, slice_get, Some, IfOk};
ghost use Rattle.brc_lang.specs.declared.module.Function.{Function};
ghost use Rattle.brc_model.specs.Paths.{At, follow, path_end};
ghost use Rattle.brc_check.specs.declared.visits.Visit.{Visit};
ghost use Rattle.brc_check.specs.Searching.{IsChained, AreLinked};

use crate::visits::Visit;
use brc_lang::Sequence;
use brc_model::Exit;
use std::alloc::{AllocError, Global};

fn turned_round(alloc: Global, exits: &[Exit]) -> Result<Sequence<Exit>, AllocError>
    ensures { IfOk result (λ turned. turned ≡ reverse exits.now) }
{
    let mut turned = Sequence::new(alloc);
    for k in (0..exits.len()).rev() {
        turned.push(exits[k])?;
    }
    Ok(turned)
}

/// Returns the exits of the visit's path.
pub fn exits_to(alloc: Global, list: &[Visit], number: usize) -> Result<Sequence<Exit>, AllocError>
    requires within { number < length list.now }
    requires chained { IsChained list.now }
    ensures { (f : Function) (v : Visit) → AreLinked f list.now → slice_get list.now number ≡ Some v
        → IfOk result (λ exits. path_end f exits ≡ At v.at v.state) }
{
    let mut back = Vec::new(alloc);
    let mut at = number;
    while at > 0 {
        let visit = list[at];
        back.push(visit.exit)?;
        at = visit.before;
    }
    turned_round(alloc, back.as_slice())
}

/// Returns the exits of the visit's path, and then one more.
pub fn exits_by(
    alloc: Global,
    list: &[Visit],
    number: usize,
    exit: Exit,
) -> Result<Sequence<Exit>, AllocError>
    requires within { number < length list.now }
    requires chained { IsChained list.now }
    ensures { (f : Function) (v : Visit) → AreLinked f list.now → slice_get list.now number ≡ Some v
        → IfOk result (λ exits. path_end f exits ≡ follow f.code (At v.at v.state) exit) }
{
    let mut exits = exits_to(alloc, list, number)?;
    exits.push(exit)?;
    Ok(exits)
}
