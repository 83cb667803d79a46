//! The seal of a store: a file beside it that says how its files were when they were known to be sound.

ghost use Rattle.std.specs.Prelude.{◌≡◌, ◌↔◌, IsTrue, IfErr};
ghost use Rattle.muni_store.specs.Seal.{AreUntouchedSince};
ghost use Rattle.muni_store.specs.SealText.{text, IsSeen};
ghost use Rattle.muni_store.specs.declared.marks.Seen.{Seen};

use crate::fault::StoreFault;
use crate::marks::{FileTime, Seen, modified};
use crate::new_log::NewLog;
use crate::seal_text::{MOST, text_of};
use std::alloc::AllocError;
use std::fs::{self, File, Metadata};
use std::io::{self, ErrorKind};
use std::os::unix::fs::{FileExt, MetadataExt};
use std::time::Instant;

/// How long a seal is written again until the clock of the system has moved on.
const LONGEST_MILLISECONDS: u128 = 50;

/// What a seal says was seen, and when it was written.
#[derive(Drop)]
pub(crate) struct Seal {
    text: Vec<u8>,
    made: FileTime,
}

impl Seal {
    /// The seal of the store at a path, if there is one.
    pub(crate) fn read(rt: &HostRuntime, store: &str) -> Result<Option<Seal>, StoreFault>
        ensures fault { IfErr result (λ fault. fault ≡ StoreFault.NoMemory) }
    {
        let path = path_of(rt, store)?;
        match find(rt, &path) {
            Ok(seal) => Ok(seal),
            Err(error) if error.kind() == ErrorKind::OutOfMemory => Err(StoreFault::NoMemory),
            Err(_) => Ok(None),
        }
    }

    /// Whether the files are now as the seal says, and were last changed before it was written. The system
    /// gives all these times by one clock, so what changes a file later gives it other times. A text that is
    /// no seal is of nothing.
    pub(crate) fn is_of(&self, seen: &Seen) -> bool
        // promise 8: a seal fits if it has the text of what is seen of the files, and is younger than both
        ensures text { IsTrue result
            ↔ ((self.now.text.items ≡ text seen.now) × AreUntouchedSince self.now.made seen.now) }
        // If the seal was written for what is recorded.
        // promise 8: two texts are equal only if all that they tell is
        ensures recorded { (recorded : Seen) → IsSeen recorded → IsSeen seen.now
            → self.now.text.items ≡ text recorded
            → (IsTrue result ↔ ((recorded ≡ seen.now) × AreUntouchedSince self.now.made recorded)) }
    {
        self.agrees(seen)
    }

    fn agrees(&self, seen: &Seen) -> bool
        ensures { IsTrue result
            ↔ ((self.now.text.items ≡ text seen.now) × AreUntouchedSince self.now.made seen.now) }
    {
        text_of(seen).as_slice() == self.text.as_slice() && seen.is_untouched_since(self.made)
    }

    /// Writes the seal of the store at a path, for what was seen of it under its lock. There is none if it
    /// cannot be written, or if the clock of the system does not move on.
    pub(crate) fn write(rt: &HostRuntime, store: &str, file: &File, seen: &Seen) {
        let _ = try_write(rt, store, file, seen);
    }

    /// Removes the seal of the store at a path, if there is one.
    pub(crate) fn remove(rt: &HostRuntime, store: &str) {
        let _ = try_remove(rt, store);
    }
}

fn path_of(rt: &HostRuntime, store: &str) -> Result<String, AllocError> {
    format!(in rt.alloc(); "{store}-seal")
}

fn find(rt: &HostRuntime, path: &str) -> io::Result<Option<Seal>> {
    match SealFile::open(rt, path)? {
        Some(place) => Ok(Some(place.seal)),
        None => Ok(None),
    }
}

fn try_write(rt: &HostRuntime, store: &str, beside: &File, seen: &Seen) -> Result<(), StoreFault> {
    let path = path_of(rt, store)?;
    if let Some(place) = SealFile::open_or_make(rt, &path, beside)? {
        if !matches!(place.write(rt, seen), Ok(true)) {
            place.remove(rt, &path)?;
        }
    }
    Ok(())
}

fn try_remove(rt: &HostRuntime, store: &str) -> io::Result<()> {
    let path = path_of(rt, store)?;
    match SealFile::open(rt, &path)? {
        Some(place) => place.remove(rt, &path),
        None => Ok(()),
    }
}

/// The file of a seal, or of one whose writing was cut off.
#[derive(Drop)]
struct SealFile {
    file: File,
    seal: Seal,
}

impl SealFile {
    /// Opens the file at a path. A link is not followed, and what holds no seal is left alone.
    fn open(rt: &HostRuntime, path: &str) -> io::Result<Option<SealFile>> {
        let named = fs::symlink_metadata(rt, path)?;
        if !named.is_file() || named.len() > MOST as u64 {
            return Ok(None);
        }
        let file = muni_host::file::open(rt, path)?;
        let about = file.metadata()?;
        // Another file may have been given the name meanwhile.
        if !is_same_file(&named, &about) || about.len() > MOST as u64 {
            return Ok(None);
        }
        let mut text = vec![in rt.alloc(); 0u8; about.len() as usize]?;
        file.read_exact_at(&mut text, 0)?;
        if !is_seal(&text) {
            return Ok(None);
        }
        let made = modified(&about);
        let seal = Seal { text, made };
        Ok(Some(SealFile { file, seal }))
    }

    /// Opens the file at a path, and makes it if there is none, with the rights of the file beside it.
    fn open_or_make(
        rt: &HostRuntime,
        path: &str,
        beside: &File,
    ) -> Result<Option<SealFile>, StoreFault> {
        if fs::symlink_metadata(rt, path).is_err() {
            // A seal is made as a log is.
            let _ = NewLog::make(rt, path, beside)?;
        }
        Ok(SealFile::open(rt, path)?)
    }

    /// Writes a seal until its time is after all times that it holds, and says whether it is. On another
    /// device than that of the store it may have another clock.
    fn write(&self, rt: &HostRuntime, seen: &Seen) -> io::Result<bool> {
        if self.file.metadata()?.dev() != seen.store.device {
            return Ok(false);
        }
        let text = text_of(seen);
        let start = Instant::now(rt)?;
        self.file.set_len(0)?;
        for _ in 0..u64::MAX {
            self.file.write_all_at(&text, 0)?;
            if seen.is_untouched_since(modified(&self.file.metadata()?)) {
                return Ok(true);
            }
            if start.elapsed(rt)?.as_millis() > LONGEST_MILLISECONDS {
                break;
            }
        }
        Ok(false)
    }

    /// Removes the file. If it cannot be removed it is left empty.
    fn remove(&self, rt: &HostRuntime, path: &str) -> io::Result<()> {
        let emptied = self.file.set_len(0);
        muni_host::file::remove(rt, path, &self.file)?;
        emptied
    }
}

fn is_same_file(named: &Metadata, opened: &Metadata) -> bool {
    named.dev() == opened.dev() && named.ino() == opened.ino()
}

/// Whether a file holds a seal, of any version, or what is left of one if its writing was cut off.
fn is_seal(text: &[u8]) -> bool {
    text.starts_with(b"muni seal ") || text.iter().all(|byte| *byte == 0)
}
