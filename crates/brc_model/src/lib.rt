//! The model of accepted modules: variables' states, paths, the abstract state of references, the step world, and the
//! laws about them.
//!
//! The crate runs nothing. It has the types that the definitions in specs/ use, and public functions with empty bodies,
//! whose contracts are the laws.
#![tactic(auto)]

mod actor;
mod address;
mod call_laws;
mod cell_laws;
mod counting_laws;
mod duty;
mod event;
mod field_laws;
mod guard_laws;
mod hand_laws;
mod host_laws;
mod laws;
mod layout;
mod resource_laws;
mod row_laws;
mod rule_laws;
mod sizes;
mod state;
mod thread;
mod work_laws;
mod world_laws;

pub use actor::{Actor, Context, OpenCall, Place, Stage, Status};
pub use address::Address;
pub use call_laws::calls_are_bounded;
pub use cell_laws::{cells_are_swapped, items_are_there};
pub use counting_laws::{
    accounts_are_there, chains_are_there, counts_agree, duties_are_kept, duties_are_within,
    handed_merges_live,
};
pub use duty::{Duty, Holding, Reason};
pub use event::WordEvent;
pub use field_laws::{
    fields_are_free, fields_are_known, fields_end, given_fields_are_unlocked,
    locked_fields_are_full, needed_fields_are_unlocked,
};
pub use guard_laws::{
    cells_are_guarded, fields_are_guarded, gone_threads_hold_nothing, guarded_cells_stay,
    owners_count_alone, queued_marks_are_watched,
};
pub use hand_laws::{
    cells_hold, hands_begin, references_are_handed_over, references_are_the_threads, rows_end,
};
pub use host_laws::{calls_use_what_is_lent, faults_are_counted};
pub use laws::{accepted_is_safe, true_states_are_there};
pub use layout::Layout;
pub use resource_laws::{lent_resources_are_used_alone, resources_close_once};
pub use row_laws::{
    a_row_is_finalised_once, an_event_closes_one_row_anew, an_object_is_born_once,
    born_rows_are_listed, born_rows_are_there, born_rows_are_used, borrowed_items_stay,
    cells_change_under_lock, closed_rows_stay_closed, closed_rows_were_born,
    gates_tell_what_is_closed, handed_merges_leave_a_count, immortal_words_stay, kinds_stay,
    marks_are_watched, nobody_takes_a_row_over, only_a_running_owner_counts, states_only_rise,
    used_rows_are_born, variables_have_their_kinds,
};
pub use rule_laws::steps_go_by_rules;
pub use sizes::{MOST_ROWS, MOST_TIMES, MOST_WORKERS};
pub use state::{Exit, Slot, State};
pub use thread::{Call, Choice};
pub use work_laws::{
    births_begin, cell_loads_begin, claims_begin, exits_begin, immortals_are_free, kinds_are_asked,
    locks_begin, mark_loads_begin, releases_begin, retains_begin, settles_begin, unlocks_begin,
    work_is_put_aside, work_is_taken_back,
};
pub use world_laws::{
    steps_are_within, steps_move, stops_give_up_what_is_owned, threads_make_their_traces,
    worlds_are_small, worlds_follow_machines, worlds_lead_on,
};
