//! Tests of whole lives of heaps: a worker makes objects and leaves, main leaves, and the heap ends. And a soak: eight
//! workers make random calls in threads of their own, and the end of the heap is counted again from what they have noted.
#![tactic(auto)]

#[cfg(test)]
mod calls;
#[cfg(test)]
mod chain;
#[cfg(test)]
mod dying;
#[cfg(test)]
mod ends;
#[cfg(test)]
mod files;
#[cfg(test)]
mod in_itself;
#[cfg(test)]
mod ledger;
#[cfg(test)]
mod log;
#[cfg(test)]
mod posts;
#[cfg(test)]
mod recount;
#[cfg(test)]
mod second_word;
#[cfg(test)]
mod seeds;
#[cfg(test)]
mod soak;
#[cfg(test)]
mod swaps;
#[cfg(test)]
mod worker;
