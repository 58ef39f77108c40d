//! Hosts that never fail.

ghost use Rattle.std.specs.Prelude.{◌≡◌, length, IfOk};

use brc_host::FakeHost;
use std::alloc::{AllocError, Global};

/// Returns `count` hosts, which never fail.
pub fn hosts_of(alloc: Global, count: u8) -> Result<Vec<FakeHost<'static>>, AllocError>
    ensures { IfOk result (λ hosts. length hosts.items ≡ count) }
{
    let mut hosts = Vec::new(alloc);
    for _ in 0..count {
        hosts.push(FakeHost::new(&[]))?;
    }
    Ok(hosts)
}
