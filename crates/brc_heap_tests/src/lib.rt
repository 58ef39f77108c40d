//! Tests of headers, births, lists and queues under real threads.
#![tactic(auto)]

#[cfg(test)]
mod births;
#[cfg(test)]
mod calls;
#[cfg(test)]
mod files;
#[cfg(test)]
mod hands;
#[cfg(test)]
mod kinds;
#[cfg(test)]
mod lists;
#[cfg(test)]
mod queue;
#[cfg(test)]
mod scenarios;
#[cfg(test)]
mod threads;
