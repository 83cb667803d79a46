//! Files that stay open for reading and writing, and their names: another program may give a name to another
//! file at any time.
//!
//! A file gets none of the descriptors of the standard streams, of which some may be closed. What is written
//! to such a stream would else get into the file.
use std::fs::{self, File, OpenOptions};
use std::io;
use std::os::fd::AsRawFd;
use std::os::unix::fs::{MetadataExt, OpenOptionsExt};

/// Opens the file at a path.
pub fn open(rt: &HostRuntime, path: &str) -> io::Result<File> {
    open_as(rt, OpenOptions::new().read(true).write(true), path)
}

/// What becomes of a file that is not there.
#[derive(Clone, Copy, Debug, PartialEq, Eq)]
pub enum Missing {
    /// It is made.
    Made,
    /// It is an error.
    Refused,
}

/// Opens the file at a path. One that is made has the rights that the system gives new files.
pub fn open_or(rt: &HostRuntime, path: &str, missing: Missing) -> io::Result<File> {
    match missing {
        Missing::Made => open_as(
            rt,
            OpenOptions::new().read(true).write(true).create(true),
            path,
        ),
        Missing::Refused => open(rt, path),
    }
}

/// Makes a file with these rights, less those that the system withholds. What is at the path already is an
/// error.
pub fn make(rt: &HostRuntime, path: &str, mode: u32) -> io::Result<File> {
    let mut options = OpenOptions::new();
    options.read(true).write(true).create_new(true).mode(mode);
    open_as(rt, &options, path)
}

fn open_as(rt: &HostRuntime, options: &OpenOptions, path: &str) -> io::Result<File> {
    let file = options.open(rt, path)?;
    if file.as_raw_fd() > 2 {
        return Ok(file);
    }
    file.try_clone()
}

/// Whether a path leads to the file that is open here, by its device and its inode.
pub fn is_at(rt: &HostRuntime, path: &str, file: &File) -> io::Result<bool> {
    let open = file.metadata()?;
    match fs::metadata(rt, path) {
        Ok(named) => Ok(named.dev() == open.dev() && named.ino() == open.ino()),
        Err(error) if error.kind() == io::ErrorKind::NotFound => Ok(false),
        Err(error) => Err(error),
    }
}

/// Removes the file that is open here from a path. If another file has the name, that one stays.
///
/// The system removes by names alone, and the name may change its file at any time. So what has it is first
/// moved to a name of its own, and put back if it is another file. If its place is taken by then, it keeps the
/// name of its own, and the call fails.
pub fn remove(rt: &HostRuntime, path: &str, file: &File) -> io::Result<()> {
    if !is_at(rt, path, file)? {
        return Ok(());
    }
    let aside = format!(in rt.alloc(); "{path}-{}", file.metadata()?.ino())?;
    let _ = make(rt, &aside, 0o600)?;
    let moved = fs::rename(rt, path, &aside);
    if moved.is_ok() && !is_at(rt, &aside, file)? {
        fs::hard_link(rt, &aside, path)?;
    }
    fs::remove_file(rt, &aside)?;
    moved
}
