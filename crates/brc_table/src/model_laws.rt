//! The laws of the counting machine on which each step of a hand rests.

ghost use Rattle.brc_table.specs.ModelLaws.{ModelLaws};

use brc_model::{
    accounts_are_there, chains_are_there, duties_are_kept, duties_are_within, fields_are_free,
    fields_are_known, given_fields_are_unlocked, guarded_cells_stay, handed_merges_live,
    locked_fields_are_full,
};

/// States these laws.
#[inline(always)]
pub(crate) fn model_laws()
    ensures { ModelLaws }
{
    duties_are_kept();
    duties_are_within();
    accounts_are_there();
    chains_are_there();
    guarded_cells_stay();
    handed_merges_live();
    locked_fields_are_full();
    fields_are_free();
    fields_are_known();
    given_fields_are_unlocked();
}
