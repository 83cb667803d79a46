//! A log that this process has made.

use crate::fault::StoreFault;
use sqlite::{Connection, File as StoreDisk, FileStore, Files, Leftover};
use std::fs::{File, Permissions};
use std::io::{self, ErrorKind};
use std::os::unix::fs::{MetadataExt, PermissionsExt, fchown};

/// A log of this length holds nothing.
pub(crate) const EMPTY_LOG: u64 = 41;

/// The lock of a store, by what holds it. As long as it is held no other process reads or writes the log.
#[derive(Drop)]
pub(crate) enum HeldLock<'a> {
    Files(&'a Files<StoreDisk>),
    Leftover(&'a Leftover<StoreDisk>),
    Database(&'a Connection<FileStore<StoreDisk>>),
    Store(&'a FileStore<StoreDisk>),
}

/// A log that this process has made beside the file of a store. It is open, so that no other file can get
/// its inode.
#[derive(Drop)]
pub(crate) struct NewLog {
    file: File,
    path: String,
}

impl NewLog {
    /// Makes a log, with the rights of the file beside which it is. There is none if another program has
    /// made one meanwhile, or if none can be made. One that would be on another device than the file is
    /// taken away again, and refused.
    pub(crate) fn make(
        rt: &HostRuntime,
        path: &str,
        beside: &File,
    ) -> Result<Option<NewLog>, StoreFault> {
        let path = String::from_str(rt.alloc(), path)?;
        match muni_host::file::make(rt, &path, 0o600) {
            Ok(file) if file.metadata()?.dev() != beside.metadata()?.dev() => {
                muni_host::file::remove(rt, &path, &file)?;
                Err(StoreFault::Failed)
            }
            Ok(file) => {
                give_rights(beside, &file)?;
                Ok(Some(NewLog { file, path }))
            }
            Err(error) if error.kind() == ErrorKind::OutOfMemory => Err(StoreFault::NoMemory),
            Err(_) => Ok(None),
        }
    }

    /// Removes the log if nothing is in it and its name still leads to it.
    pub(crate) fn remove(&self, rt: &HostRuntime, _lock: HeldLock<'_>) -> io::Result<()> {
        if self.file.metadata()?.len() > EMPTY_LOG {
            return Ok(());
        }
        muni_host::file::remove(rt, &self.path, &self.file)
    }
}

/// Gives a file the mode of another, and its group and owner as far as this process may.
fn give_rights(from: &File, to: &File) -> io::Result<()> {
    let rights = from.metadata()?;
    if_allowed(fchown(to, None, Some(rights.gid())))?;
    if_allowed(fchown(to, Some(rights.uid()), None))?;
    to.set_permissions(Permissions::from_mode(rights.mode() & 0o777))
}

fn if_allowed(change: io::Result<()>) -> io::Result<()> {
    match change {
        Err(error) if error.kind() == ErrorKind::PermissionDenied => Ok(()),
        other => other,
    }
}
