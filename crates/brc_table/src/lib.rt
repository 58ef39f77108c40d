//! The words of all objects in one table that threads share (PEP 703, Biased Reference Counting), and the hands by
//! which threads change them, one atomic step at a time.
#![tactic(auto)]

mod after;
mod births;
mod carried;
mod cells;
mod closed;
mod contention;
mod dying;
mod exits;
mod fields;
mod first_words;
mod hand;
mod join;
mod kinds;
mod laws;
mod locks;
mod model_laws;
mod peeks;
mod place;
mod plan;
mod references;
mod rule;
mod size;
mod split;
mod step;
mod view;
mod words;
mod work;

pub use closed::Closed;
pub use contention::Contention;
pub use hand::Hand;
pub use laws::{
    counts_agree_in_every_table, fields_end_in_every_table, first_kinds_stay,
    gone_hands_hold_nothing, gone_words_tell, hands_are_started, joined_hands_are_gone,
    only_holders_change_cells, only_running_owners_count, root_is_a_list, rows_end_in_every_table,
    seen_ends_are_so, set_marks_are_watched, taken_fields_are_alone, views_keep_the_layout,
};
pub use plan::Plan;
pub use rule::Counting;
pub use view::{Joined, View};
pub use words::Words;
pub use work::Work;
