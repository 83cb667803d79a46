//! A disk over a file.

ghost use Rattle.std.specs.Prelude.{◌≡◌, None};

use muni_edge::Faults;
use muni_journal_disk::{Disk, DiskFault};
use std::fs::File;
use std::os::unix::fs::FileExt;

/// How many bytes a read takes from the file at once.
pub(crate) const AHEAD: usize = 65_536;

/// A disk over a file. It does not expose what the file holds.
///
/// A read of more than 65,536 bytes fails. What one took beyond its end is kept for the reads after it, up to the
/// next write. No other program writes to the file meanwhile, since it is locked.
#[derive(Drop)]
pub struct FileDisk {
    file: File,
    faults: Faults,
    ahead: Vec<u8>,
    // The place of the first byte ahead in the file, and how many there are.
    place: u64,
    count: usize,
}

impl FileDisk {
    /// The disk of a file that is open for reading and writing, with room for what is read ahead.
    pub fn new(file: File, room: Vec<u8>) -> FileDisk
        ensures { result.faults ≡ 0 }
    {
        FileDisk {
            file,
            faults: Faults::none(),
            ahead: room,
            place: 0,
            count: 0,
        }
    }

    // Copies bytes that were read ahead, if all of them were. Else it copies none.
    fn copy_ahead(&self, place: u64, room: &mut [u8]) -> bool {
        let Some(first) = place.checked_sub(self.place) else {
            return false;
        };
        if first > self.count as u64 {
            return false;
        }
        let first = first as usize;
        let Some(bytes) = self.ahead.get(first..self.count) else {
            return false;
        };
        let Some(bytes) = bytes.get(..room.len()) else {
            return false;
        };
        room.copy_from_slice(bytes);
        true
    }
}

impl Disk for FileDisk {
    ghost bytes = { λ _. None };

    ghost image = { λ _ _. ⊥ };

    ghost clock = { λ _. 0 };

    ghost since = { λ _ _ _. ⊥ };

    ghost faults = { λ disk. disk.faults };

    ghost is_image = { λ _ _ reads. reads };

    ghost now = { λ _ _. ((λ left. left), (λ now. now)) };

    fn read(&mut self, place: u64, room: &mut [u8]) -> Result<(), DiskFault> {
        if self.copy_ahead(place, room) {
            return Ok(());
        }
        room.fill(0);
        self.count = 0;
        let Ok(count) = self.file.read_at(&mut self.ahead, place) else {
            return Err(DiskFault::from(self.faults.fail()));
        };
        self.place = place;
        self.count = count;
        // What the file does not have is 0. A file that ends within what is read was cut off.
        if count == 0 || self.copy_ahead(place, room) {
            return Ok(());
        }
        Err(DiskFault::from(self.faults.fail()))
    }

    fn write(&mut self, place: u64, piece: &[u8]) -> Result<(), DiskFault> {
        self.count = 0;
        match self.file.write_all_at(piece, place) {
            Ok(()) => Ok(()),
            Err(_) => Err(DiskFault::from(self.faults.fail())),
        }
    }

    fn sync(&mut self) -> Result<(), DiskFault> {
        match self.file.sync_data() {
            Ok(()) => Ok(()),
            Err(_) => Err(DiskFault::from(self.faults.fail())),
        }
    }
}
