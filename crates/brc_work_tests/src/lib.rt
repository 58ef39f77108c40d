//! Tests of workers: each lets a worker run a module over a heap and a host. What is born and closed, which faults are
//! counted, and what the host is asked for have to be what docs/LANGUAGE.md says. A host that fails by plan, and the
//! system's, which reaches files and peers, answer and count as they have to.
#![tactic(auto)]

#[cfg(test)]
mod asked;
#[cfg(test)]
mod beside;
#[cfg(test)]
mod bounds;
#[cfg(test)]
mod calls;
#[cfg(test)]
mod fake_host;
#[cfg(test)]
mod faults;
#[cfg(test)]
mod hearing;
#[cfg(test)]
mod instructions;
#[cfg(test)]
mod os_host;
#[cfg(test)]
mod rounds;
#[cfg(test)]
mod runs;
#[cfg(test)]
mod worked;
