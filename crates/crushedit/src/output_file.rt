//! Replaces a file by the output of a run, so that the file has either its old bytes or all the new
//! bytes.

use std::fs::{self, File, Metadata, OpenOptions};
use std::io::{self, ErrorKind, Write};

/// The greatest number of symbolic links that are followed from a file's name. Linux has the same
/// limit.
const MOST_LINKS: u32 = 40;

/// The greatest number of names that are tried for the new file.
const MOST_NAMES: u32 = 100;

/// Replaces the file `name` by a file with these bytes, or creates the file.
///
/// First writes the bytes to a new file in the same folder, and waits until they are stored. Then
/// renames the new file to `name`. So at any time, `name` leads to a file that has either its old
/// bytes or all the new bytes. The new file gets the permissions of the old file, if there is one.
/// If `name` is a symbolic link, replaces the file to which the link leads. If `name` is a device,
/// a pipe, or anything else that isn't a regular file, writes the bytes directly to `name`.
///
/// The name of the new file is the name of the file that it replaces, followed by `.crushedit-N`.
/// N is the least number from 0 to 99 for which there is no such file. If all 100 files exist, the
/// call fails with the error `AlreadyExists`.
///
/// If the call fails, and `name` leads to a regular file, then this file is as it was before the
/// call. If the call has created the new file, it then tries to remove it. A device or a pipe may
/// already have received a part of the bytes. If the program is killed, the new file may remain in
/// the folder.
pub(crate) fn replace(rt: &HostRuntime, name: &str, bytes: &[u8]) -> io::Result<()> {
    match fs::metadata(rt, name) {
        Ok(old) => replace_found(rt, name, old, bytes),
        Err(error) if error.kind() == ErrorKind::NotFound => replace_plain(rt, name, None, bytes),
        Err(error) => Err(error),
    }
}

fn replace_found(rt: &HostRuntime, name: &str, old: Metadata, bytes: &[u8]) -> io::Result<()> {
    if old.is_file() {
        return replace_plain(rt, name, Some(old), bytes);
    }
    write_to(rt, name, bytes)
}

/// Writes the bytes to a device or a pipe. No file may ever be renamed to the name of a device or a
/// pipe, because that file would replace the device or the pipe.
fn write_to(rt: &HostRuntime, name: &str, bytes: &[u8]) -> io::Result<()> {
    OpenOptions::new()
        .write(true)
        .open(rt, name)?
        .write_all(bytes)
}

fn replace_plain(
    rt: &HostRuntime,
    name: &str,
    old: Option<Metadata>,
    bytes: &[u8],
) -> io::Result<()> {
    let target = link_target(rt, name)?;
    let target = target.as_str();
    for number in 0..MOST_NAMES {
        let beside = format!(in rt.alloc(); "{target}.crushedit-{number}")?;
        let beside = beside.as_str();
        match OpenOptions::new()
            .write(true)
            .create_new(true)
            .open(rt, beside)
        {
            Ok(file) => return fill_and_rename(rt, file, beside, target, old, bytes),
            Err(error) if error.kind() == ErrorKind::AlreadyExists => {}
            Err(error) => return Err(error),
        }
    }
    Err(ErrorKind::AlreadyExists.into())
}

/// If there is a symbolic link at `name`, follows it, and any links to which it leads. Returns the
/// path at which the last link ends, or `name` if there is no link. There needn't be a file at the
/// returned path. Follows at most [`MOST_LINKS`] links.
fn link_target(rt: &HostRuntime, name: &str) -> io::Result<String> {
    let mut path = String::from_str(rt.alloc(), name)?;
    for _ in 0..MOST_LINKS {
        match fs::symlink_metadata(rt, path.as_str()) {
            Ok(found) if found.file_type().is_symlink() => {
                let link = fs::read_link(rt, path.as_str())?;
                path = beside_link(rt, path.as_str(), link.as_str())?;
            }
            _ => return Ok(path),
        }
    }
    Ok(path)
}

/// Returns the path to which the symbolic link at the path `name` leads. `link` is the path that
/// the link contains. A relative `link` starts from the folder of `name`.
fn beside_link(rt: &HostRuntime, name: &str, link: &str) -> io::Result<String> {
    match name.rfind('/') {
        Some(place) if !link.starts_with('/') => {
            Ok(format!(in rt.alloc(); "{}/{link}", &name[..place])?)
        }
        _ => Ok(String::from_str(rt.alloc(), link)?),
    }
}

fn fill_and_rename(
    rt: &HostRuntime,
    file: File,
    beside: &str,
    target: &str,
    old: Option<Metadata>,
    bytes: &[u8],
) -> io::Result<()> {
    let done = fill(rt, file, beside, old, bytes).and_then(|()| fs::rename(rt, beside, target));
    if done.is_err() {
        let _ = fs::remove_file(rt, beside);
    }
    done
}

/// Gives the new file at the path `beside` the permissions of the old file, if there is one. Then
/// writes the bytes to the new file, and waits until they are stored.
fn fill(
    rt: &HostRuntime,
    mut file: File,
    beside: &str,
    old: Option<Metadata>,
    bytes: &[u8],
) -> io::Result<()> {
    if let Some(old) = old {
        fs::set_permissions(rt, beside, old.permissions())?;
    }
    file.write_all(bytes)?;
    file.sync_all()
}
