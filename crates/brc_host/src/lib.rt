//! What a module's host calls ask of the system, and a host for tests.
#![tactic(auto)]

mod counts;
mod fake_host;
mod host;

pub use counts::HostCounts;
pub use fake_host::{FakeHost, FakeResource};
pub use host::{Fault, Host};
