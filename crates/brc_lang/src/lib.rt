//! The text of a native extension module: its types, its one spelling, and the functions that read and write it.
#![tactic(auto)]

mod above;
mod arguments;
mod calling;
mod check_code;
mod cursor;
mod fault;
mod heading;
mod instruction;
mod instruction_text;
mod kind;
mod laws;
mod lexing;
mod mode;
mod module;
mod name;
mod operands;
mod output;
mod parameter;
mod reading;
mod sequence;
mod static_lines;
mod targets;
mod variable;
mod version;
mod writing;

pub use arguments::Arguments;
pub use check_code::CheckCode;
pub use cursor::Cursor;
pub use fault::{FaultCode, ReadFault};
pub use instruction_text::write_instruction;
pub use kind::Kind;
pub use laws::{each_text_reads, fault_stays, one_reading, one_text, texts_round_trip};
pub use lexing::{
    four_words, is_name, is_word, number, number_between, one_word, split_line, split_word,
    three_words, two_words,
};
pub use mode::Mode;
pub use module::{Function, Instr, Module};
pub use name::Name;
pub use output::{write_bytes, write_number, write_pieces};
pub use parameter::{Argument, Parameter, Passing};
pub use reading::read;
pub use sequence::Sequence;
pub use variable::Variable;
pub use version::{MOST_CELLS, Version};
pub use writing::write;
