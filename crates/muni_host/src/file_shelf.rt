//! A shelf over files.

ghost use Rattle.std.specs.Prelude.{◌≡◌, None};
ghost use Rattle.std.specs.Option.{option_map};

use crate::file::Missing;
use crate::file_disk::{AHEAD, FileDisk};
use muni_edge::Faults;
use muni_journal_disk::{DiskFault, Shelf};
use std::fs::{self, File};
use std::io::{self, ErrorKind};
use std::os::unix::fs::FileExt;

/// A shelf over files: the journal of a name is the file of that name with `.journal` added.
///
/// A file is locked while its disk is out, and one that another process has is refused at once. So is one
/// that is not empty and begins with another byte than 0 or 1, which no journal does, and one that was
/// renamed or replaced before it was locked. A file that is not there is made or refused.
#[derive(Drop)]
pub struct FileShelf<'a> {
    rt: &'a HostRuntime,
    missing: Missing,
    out: Option<Vec<u8>>,
    faults: Faults,
}

/// The folder of a path.
fn folder(path: &str) -> &str {
    match path.rsplit_once('/') {
        Some(("", _)) => "/",
        Some((folder, _)) => folder,
        None => ".",
    }
}

/// Looks whether a file may be a journal: it is empty, or it begins with a gate.
///
/// An empty file may be a new one. The folder in which it is, wherever a link leads, is synced then, since a
/// power cut could else take its name and all that was put into it.
fn look_at(rt: &HostRuntime, path: &str, file: &File) -> io::Result<()> {
    let mut gate = [0u8];
    if file.read_at(&mut gate, 0)? == 0 {
        let real = fs::canonicalize(rt, path)?;
        return File::open(rt, folder(real.as_str()))?.sync_all();
    }
    if gate[0] > 1 {
        return Err(io::Error::from(ErrorKind::InvalidData));
    }
    Ok(())
}

impl<'a> FileShelf<'a> {
    /// A shelf with no disk out.
    pub fn new(rt: &'a HostRuntime, missing: Missing) -> FileShelf<'a>
        ensures none_out { result.out ≡ None }
        ensures uncounted { result.faults ≡ 0 }
    {
        FileShelf {
            rt,
            missing,
            out: None,
            faults: Faults::none(),
        }
    }

    fn open(&self, name: &[u8]) -> io::Result<File> {
        let Ok(name) = str::from_utf8(name) else {
            return Err(io::Error::from(ErrorKind::InvalidInput));
        };
        let path = format!(in self.rt.alloc(); "{name}.journal")?;
        let file = crate::file::open_or(self.rt, &path, self.missing)?;
        if file.try_lock().is_err() {
            return Err(io::Error::from(ErrorKind::WouldBlock));
        }
        look_at(self.rt, &path, &file)?;
        // Before it was locked another program may have given its name to another file.
        if !crate::file::is_at(self.rt, &path, &file)? {
            return Err(io::Error::from(ErrorKind::NotFound));
        }
        Ok(file)
    }
}

impl<'a> Shelf for FileShelf<'a> {
    ghost use Rattle.std.specs.Prelude.{None};
    ghost use Rattle.std.specs.Option.{option_map};

    type D = FileDisk;

    ghost told = { λ _ _. None };

    ghost disk_faults = { λ _ _. 0 };

    ghost clock = { λ _ _. 0 };

    ghost since = { λ _ _ _ _. ⊥ };

    ghost out = { λ shelf. option_map (λ name. name.items) shelf.out };

    ghost faults = { λ shelf. shelf.faults };

    fn take(&mut self, name: &[u8]) -> Result<FileDisk, DiskFault> {
        let out = name.to_vec(self.rt.alloc())?;
        let room = vec![in self.rt.alloc(); 0u8; AHEAD]?;
        match self.open(name) {
            Ok(file) => {
                self.out = Some(out);
                Ok(FileDisk::new(file, room))
            }
            Err(error) if error.kind() == ErrorKind::OutOfMemory => Err(DiskFault::NoMemory),
            Err(_) => Err(DiskFault::from(self.faults.fail())),
        }
    }

    fn put_back(&mut self, _name: &[u8], _disk: FileDisk) {
        self.out = None;
    }
}
