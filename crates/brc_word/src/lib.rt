//! The two words of a biased reference count (PEP 703, Biased Reference Counting), and how retains, releases and merges
//! change them.
//!
//! The local word has the object's owner, a thread or nobody, and the local count, which only the owner changes. Every
//! thread may change the shared word, which has the shared count and the state: default, queued or merged. The sum of
//! the two counts is the number of references; the shared count alone may be negative.
#![tactic(auto)]

mod choice;
mod gate;
mod kind;
mod laws;
mod local;
mod mark;
mod shared;
mod shared_word;
pub mod values;

pub use choice::{LocalChoice, release_choice_local, retain_choice};
pub use gate::{closed, dying, is_closed, locked, next_of_dying};
pub use kind::{kind_argument, kind_number, kind_word};
pub use laws::{header_words, local_words_are_headers, pack_and_unpack, shared_words_are_headers};
pub use local::{
    is_immortal, local_count, local_with_one_less, local_with_one_more, local_word, read_local,
};
pub use mark::{
    MARKS_OF_WORD, first_marks, lowest_mark, mark_at, mark_mask, other_marks, without_mark,
};
pub use shared::{Phase, Shared, SharedChoice, merge_word, pack, release_choice, unpack};
pub use shared_word::{is_dead, is_fresh, merged, released, shared_with_one_more};
