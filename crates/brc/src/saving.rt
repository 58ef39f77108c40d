//! How a picture is saved: whole, or not at all.

use std::fs::{OpenOptions, Permissions};
use std::rt::Files;
use std::{fs, io};

/// Writes the bytes into a file beside the path's, and then gives it that name. The number of the process is part of
/// the name that it has until then.
///
/// What is no file, as a device or a pipe, takes the bytes itself. A link stays, and what it leads to is replaced.
pub fn replace<R: Files + AllocGlobal>(
    rt: &R,
    process: u32,
    path: &str,
    bytes: &[u8],
) -> io::Result<()> {
    let whole = fs::canonicalize(rt, path);
    let target = match &whole {
        Ok(whole) => whole.as_str(),
        Err(_) => path,
    };
    let mut mode = None;
    if let Ok(old) = fs::symlink_metadata(rt, target) {
        if !old.is_file() {
            return fs::write(rt, path, bytes);
        }
        // One that may not be written isn't replaced either.
        OpenOptions::new().write(true).open(rt, target)?;
        mode = Some(old.permissions());
    }
    let beside = format!(in rt.alloc(); "{target}.{process}.part")?;
    let replaced = write_beside(rt, beside.as_str(), target, mode, bytes);
    if replaced.is_err() {
        let _ = fs::remove_file(rt, beside.as_str());
    }
    replaced
}

fn write_beside<R: Files>(
    rt: &R,
    beside: &str,
    target: &str,
    mode: Option<Permissions>,
    bytes: &[u8],
) -> io::Result<()> {
    fs::write(rt, beside, bytes)?;
    if let Some(mode) = mode {
        fs::set_permissions(rt, beside, mode)?;
    }
    fs::rename(rt, beside, target)
}
