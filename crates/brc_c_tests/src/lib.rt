//! Tests of what no command shows: tokens, macros, the trees of C functions, types, the table of the C API; what is said
//! of functions that are made at random, or so long that they are cut; and the check of an outline. What `brc c` shows is
//! in the cases of brc_cases.
#![tactic(auto)]

#[cfg(test)]
mod bodies;
#[cfg(test)]
mod judged;
#[cfg(test)]
mod macros;
#[cfg(test)]
mod outlines;
#[cfg(test)]
mod outside;
#[cfg(test)]
mod parts;
#[cfg(test)]
mod random;
#[cfg(test)]
mod random_functions;
#[cfg(test)]
mod reading;
#[cfg(test)]
mod rendering;
#[cfg(test)]
mod statement_texts;
#[cfg(test)]
mod table;
#[cfg(test)]
mod tokens;
#[cfg(test)]
mod types;
