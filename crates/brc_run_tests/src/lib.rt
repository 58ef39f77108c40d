//! Tests of runs. On real threads, what is born and closed and which faults are counted have to be what
//! docs/LANGUAGE.md says, whatever the threads' order; runs reach files and peers of the system; and a run or a
//! schedule that is refused memory says so. No accepted example has a run that goes wrong among 200,000 states; and on
//! accepted modules the plain machine takes the same steps as the step world. Runs that commands show whole are in the
//! cases of brc_cases.
#![tactic(auto)]

#[cfg(test)]
mod accepted_examples;
#[cfg(test)]
mod agreeing;
#[cfg(test)]
mod bounds;
#[cfg(test)]
mod faults;
#[cfg(test)]
mod meeting;
#[cfg(test)]
mod mended_examples;
#[cfg(test)]
mod refused;
#[cfg(test)]
mod repeating;
#[cfg(test)]
mod runs;
#[cfg(test)]
mod searches;
#[cfg(test)]
mod seeds;
#[cfg(test)]
mod shelf;
#[cfg(test)]
mod stepped;
#[cfg(test)]
mod system;
