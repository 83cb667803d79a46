//! What the system says of the files of a store, by which a change of them shows.

ghost use Rattle.std.specs.Prelude.{◌≡◌, ◌↔◌, IsTrue, IsSome, IfOk};
ghost use Rattle.muni_store.specs.Seal.{IsBefore, IsUntouchedSince, AreUntouchedSince};

use crate::fault::StoreFault;
use std::fs::{File, Metadata};
use std::io;
use std::os::unix::fs::{FileExt, MetadataExt};

/// A time that the system gives a file, since 1970.
#[derive(Clone, Copy)]
pub(crate) struct FileTime {
    pub(crate) seconds: i64,
    pub(crate) nanoseconds: i64,
}

impl FileTime {
    fn is_before(self, other: FileTime) -> bool
        ensures { IsTrue result ↔ IsBefore self other }
    {
        self.seconds < other.seconds
            || (self.seconds == other.seconds && self.nanoseconds < other.nanoseconds)
    }
}

/// What the system says of a file, and its first bytes. Where the file is shorter they are 0.
#[derive(Clone, Copy)]
pub(crate) struct FileMarks<const HEAD: usize> {
    pub(crate) device: u64,
    pub(crate) inode: u64,
    pub(crate) size: u64,
    pub(crate) modified: FileTime,
    pub(crate) changed: FileTime,
    pub(crate) head: [u8; HEAD],
}

impl<const HEAD: usize> FileMarks<HEAD> {
    fn of(file: &File) -> io::Result<FileMarks<HEAD>> {
        let about = file.metadata()?;
        let mut head = [0u8; HEAD];
        let _ = file.read_at(&mut head, 0)?;
        Ok(FileMarks {
            device: about.dev(),
            inode: about.ino(),
            size: about.size(),
            modified: modified(&about),
            changed: FileTime {
                seconds: about.ctime(),
                nanoseconds: about.ctime_nsec(),
            },
            head,
        })
    }

    fn is_untouched_since(&self, time: FileTime) -> bool
        ensures { IsTrue result ↔ IsUntouchedSince time self.now }
    {
        self.modified.is_before(time) && self.changed.is_before(time)
    }
}

/// When a file was last written.
pub(crate) fn modified(about: &Metadata) -> FileTime {
    FileTime {
        seconds: about.mtime(),
        nanoseconds: about.mtime_nsec(),
    }
}

/// What was seen of a store: its file with the header of a database, and its log, if that may hold something,
/// with the header of a log.
#[derive(Clone, Copy)]
pub(crate) struct Seen {
    pub(crate) store: FileMarks<100>,
    pub(crate) log: Option<FileMarks<32>>,
}

impl Seen {
    /// Looks at the files that are open here.
    pub(crate) fn of(store: &File, log: Option<&File>) -> Result<Seen, StoreFault>
        ensures log { IfOk result (λ seen. IsSome seen.log ↔ IsSome log.entry) }
    {
        let log = match log {
            Some(log) => Some(FileMarks::of(log)?),
            None => None,
        };
        Ok(Seen {
            store: FileMarks::of(store)?,
            log,
        })
    }

    /// Whether neither file was written or changed at this time or after it.
    pub(crate) fn is_untouched_since(&self, time: FileTime) -> bool
        ensures { IsTrue result ↔ AreUntouchedSince time self.now }
    {
        let is_log_untouched = match &self.log {
            Some(log) => log.is_untouched_since(time),
            None => true,
        };
        self.store.is_untouched_since(time) && is_log_untouched
    }
}
