//! Tests of what no command shows: texts as values, and what is written of them; the tables of the checker; the words
//! of objects; what a step answers, and all interleavings of two workers. What a command shows is in the cases of
//! `brc_cases`.
#![tactic(auto)]

#[cfg(test)]
mod accepted;
#[cfg(test)]
mod instructions;
#[cfg(test)]
mod interleavings;
#[cfg(test)]
mod modules;
#[cfg(test)]
mod random_tables;
#[cfg(test)]
mod schedules;
#[cfg(test)]
mod states;
#[cfg(test)]
mod steps;
#[cfg(test)]
mod table_rows;
#[cfg(test)]
mod tables;
#[cfg(test)]
mod words;
#[cfg(test)]
mod writing;
