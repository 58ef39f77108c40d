//! The files and the peers of the system, as a host.
#![tactic(auto)]

mod devices;
mod ending;
mod os_host;
mod os_resource;
mod repeating;

pub use devices::Devices;
pub use ending::{Connected, Written};
pub use os_host::OsHost;
pub use os_resource::OsResource;
pub use repeating::{read_some, write_some, write_whole};
