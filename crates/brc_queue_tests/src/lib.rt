//! Tests of queues and of static lists; and an example, a runtime of its own threads and its own host, as
//! `docs/EMBED.md` explains it.
#![tactic(auto)]

#[cfg(test)]
mod borrowed;
#[cfg(test)]
mod embedded;
#[cfg(test)]
mod held_post;
#[cfg(test)]
mod meeting;
#[cfg(test)]
mod modules;
#[cfg(test)]
mod no_files;
#[cfg(test)]
mod posting;
#[cfg(test)]
mod sharing;
#[cfg(test)]
mod statics;
