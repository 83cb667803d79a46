//! What is at the path of a store, before it is opened. Nothing is written to a file that is there.

ghost use Rattle.std.specs.Prelude.{◌≡◌};
ghost use Rattle.muni_store.specs.Kinds as spec;

use crate::catalog::{is_store, without_roots};
use crate::fault::StoreFault;
use crate::marks::Seen;
use crate::new_log::{EMPTY_LOG, NewLog};
use muni_host::file::Missing;
use sqlite_disk::{Disk, Files, Memory};
use sqlite_pager::{Options, Pager};
use sqlite_store::{OpenError, Unopened};
use sqlite_value::row::Row;
use sqlite_wal::{Error as LogError, probe_first_page, probe_page_size};
use std::alloc::Global;
use std::fs::{self, File};
use std::io::{self, ErrorKind, Read, Seek, SeekFrom};
use std::os::unix::fs::{FileExt, MetadataExt};
use std::path::PathBuf;

/// What the file of a store is.
#[derive(Clone, Copy)]
pub(crate) enum Found {
    /// Empty, or its making was cut off.
    Unmade,
    /// A store that has a log.
    Logged,
    /// A store that has none.
    Unlogged,
}

/// What kind of file begins so.
#[derive(Clone, Copy)]
enum Kind {
    Unmade,
    Database,
    Other,
}

/// The file at the path of a store. It is open, and may not be locked yet.
#[derive(Drop)]
pub(crate) struct Place {
    file: File,
    path: PathBuf,
    log: String,
}

impl Place {
    /// Opens the file at a path, and makes it if it is missing and may be made. What is no file is refused, and so
    /// is a name by which sqlite would open another database, and a file whose log is on another device.
    pub(crate) fn open(
        rt: &HostRuntime,
        path: &str,
        missing: Missing,
    ) -> Result<Place, StoreFault> {
        if path == ":memory:" || path.starts_with("file:") {
            return Err(StoreFault::Failed);
        }
        let file = open_or(rt, path, missing)?;
        if !file.metadata()?.is_file() {
            return Err(StoreFault::Failed);
        }
        let path = fs::canonicalize(rt, path)?;
        let log = format!(in rt.alloc(); "{}-wal", path.as_str())?;
        if !is_log_of(rt, &log, &file)? {
            return Err(StoreFault::Failed);
        }
        Ok(Place { file, path, log })
    }

    /// The path with no link in it.
    pub(crate) fn path(&self) -> &str {
        self.path.as_str()
    }

    /// Looks what the file is. One of another kind is refused, and so is a database that lists something and
    /// no table of a store, or what must not be on one.
    pub(crate) fn look(&self, rt: &HostRuntime) -> Result<Found, StoreFault> {
        let log = read_log(rt, &self.log)?;
        let is_log_begun = log.as_ref().is_some_and(|bytes| !bytes.is_empty());
        let found = match &log {
            Some(_) => Found::Logged,
            None => Found::Unlogged,
        };
        match kind_of_file(&self.file, is_log_begun)? {
            Kind::Unmade => Ok(Found::Unmade),
            Kind::Database if is_store_file(rt, &self.file, log)? => Ok(found),
            _ => Err(StoreFault::Failed),
        }
    }

    /// Looks once more, under the lock of the file that has this name. It has to be the file that was opened
    /// before, and to pass the same look.
    pub(crate) fn look_again(&self, rt: &HostRuntime) -> Result<(), StoreFault> {
        if !self.is_there(rt)? {
            return Err(StoreFault::Failed);
        }
        let _ = self.look(rt)?;
        Ok(())
    }

    /// The file, which is open.
    pub(crate) fn file(&self) -> &File {
        &self.file
    }

    /// Whether the path leads to the file that is open.
    pub(crate) fn is_there(&self, rt: &HostRuntime) -> Result<bool, StoreFault> {
        Ok(muni_host::file::is_at(rt, self.path(), &self.file)?)
    }

    /// What the system says of the file, and of its log if that may hold something.
    pub(crate) fn seen(&self, rt: &HostRuntime) -> Result<Seen, StoreFault> {
        match muni_host::file::open(rt, &self.log) {
            Ok(log) if log.metadata()?.len() > EMPTY_LOG => Seen::of(&self.file, Some(&log)),
            Ok(_) => Seen::of(&self.file, None),
            Err(error) if error.kind() == ErrorKind::NotFound => Seen::of(&self.file, None),
            Err(error) => Err(error.into()),
        }
    }

    /// Makes the log of a store that has none.
    pub(crate) fn make_log(&self, rt: &HostRuntime) -> Result<Option<NewLog>, StoreFault> {
        NewLog::make(rt, &self.log, &self.file)
    }
}

// A log on another device than its file goes with that: the file of a store was mounted without its folder.
fn is_log_of(rt: &HostRuntime, log: &str, file: &File) -> io::Result<bool> {
    match fs::metadata(rt, log) {
        Ok(about) => Ok(about.dev() == file.metadata()?.dev()),
        Err(error) if error.kind() == ErrorKind::NotFound => Ok(true),
        Err(error) => Err(error),
    }
}

// A link that leads nowhere is refused.
fn open_or(rt: &HostRuntime, path: &str, missing: Missing) -> Result<File, StoreFault> {
    match fs::metadata(rt, path) {
        Ok(about) if about.is_file() => Ok(muni_host::file::open(rt, path)?),
        Err(error) if error.kind() == ErrorKind::NotFound && missing == Missing::Made => {
            match muni_host::file::make(rt, path, 0o644) {
                // Another program has made it meanwhile.
                Err(error) if error.kind() == ErrorKind::AlreadyExists => {
                    Ok(muni_host::file::open(rt, path)?)
                }
                made => Ok(made?),
            }
        }
        _ => Err(StoreFault::Failed),
    }
}

/// What a log holds, if there is one.
fn read_log(rt: &HostRuntime, path: &str) -> Result<Option<Vec<u8>>, StoreFault> {
    match muni_host::file::open(rt, path) {
        Ok(log) if log.metadata()?.is_file() => Ok(Some(read_all(rt.alloc(), &log)?)),
        Ok(_) => Err(StoreFault::Failed),
        Err(error) if error.kind() == ErrorKind::NotFound => Ok(None),
        Err(error) => Err(error.into()),
    }
}

fn read_all(alloc: Global, mut file: &File) -> io::Result<Vec<u8>> {
    let mut bytes = Vec::new(alloc);
    let _ = file.seek(SeekFrom::Start(0))?;
    let _ = file.read_to_end(&mut bytes)?;
    Ok(bytes)
}

fn kind_of_file(file: &File, is_log_begun: bool) -> Result<Kind, StoreFault> {
    let mut head = [0u8; 16];
    let got = file.read_at(&mut head, 0)?;
    Ok(kind_of(&head[..got.min(16)], is_log_begun))
}

/// The kind of a file by its first 16 bytes. The first byte of a database is written last when it is
/// made, beside a log that is begun before.
fn kind_of(head: &[u8], is_log_begun: bool) -> Kind
    // promise 8: a file by its first 16 bytes is a database, not made yet, or of another kind
    ensures { result ≡ spec.kind_of head.now is_log_begun }
{
    if head.is_empty() || (head[0] == 0 && is_log_begun) {
        return Kind::Unmade;
    }
    if head == b"SQLite format 3\0".as_slice() {
        return Kind::Database;
    }
    Kind::Other
}

fn is_store_file(rt: &HostRuntime, file: &File, log: Option<Vec<u8>>) -> Result<bool, StoreFault> {
    let db = in_memory(rt.alloc(), &read_all(rt.alloc(), file)?)?;
    let log = match log {
        Some(bytes) => in_memory(rt.alloc(), &bytes)?,
        None => Memory::new(rt.alloc()),
    };
    let listed = read_catalog(rt.alloc(), Files { log, db })?;
    let rows = without_roots(rt.alloc(), listed.as_slice())?;
    Ok(is_store(rows.as_slice()))
}

/// A copy of a file, to which alone is written what an open writes.
fn in_memory(alloc: Global, bytes: &[u8]) -> Result<Memory, StoreFault> {
    let mut copy = Memory::new(alloc);
    copy.write_at(0, bytes)?;
    Ok(copy)
}

/// The rows in which a database lists its tables.
fn read_catalog<D: Disk + Drop>(
    alloc: Global,
    mut files: Files<D>,
) -> Result<Vec<Row>, StoreFault> {
    if !files.may_be_used() {
        return Err(StoreFault::Failed);
    }
    let Some(size) = probe_page_size(&mut files)? else {
        return Err(StoreFault::Failed);
    };
    let reserved = match probe_first_page(alloc, &mut files, size) {
        Ok((_, reserved)) => reserved,
        Err(LogError::OutOfMemory) => return Err(StoreFault::NoMemory),
        Err(_) => return Err(StoreFault::Failed),
    };
    // A list of some tables is on few pages.
    let options = Options {
        cache_pages: 16,
        ..Options::new(0)
    };
    let Ok(pager) = Pager::new(alloc, files, size, options) else {
        return Err(StoreFault::NoMemory);
    };
    // Pages end in sums if eight bytes of each are reserved.
    let Ok(mut unopened) = Unopened::with_sums(alloc, pager, &[], reserved == 0x0840_2020) else {
        return Err(StoreFault::NoMemory);
    };
    // The copy is in memory, so reading it fails only if that runs out.
    match unopened.read_catalog() {
        Ok(rows) => Ok(rows),
        Err(OpenError::OutOfMemory | OpenError::Io) => Err(StoreFault::NoMemory),
        Err(_) => Err(StoreFault::Failed),
    }
}
