//! A shelf in memory.

ghost use Rattle.std.specs.Prelude.{◌≡◌, ◌≢◌, ◌↔◌, IsErrOf, ℕ, List, true, false, map, Some, None, Err, IfOk, OnOk, OnErr};
ghost use Rattle.std.specs.Option.{ForSome};
ghost use Rattle.muni_edge.specs.Calls.{none_made};
ghost use Rattle.muni_journal_disk.specs.Exchange.{AreExchanged, HasNone};
ghost use Rattle.muni_journal_disk.specs.Places.{has_place, disk_under};

use crate::disk::Disk;
use crate::fault::DiskFault;
use crate::mem_disk::MemDisk;
use crate::shelf::Shelf;
use muni_edge::Calls;
use std::alloc::{AllocError, Global};

/// The place of a disk, which is empty while the disk is out.
#[derive(Drop)]
pub(crate) struct Place {
    name: Vec<u8>,
    disk: Option<MemDisk>,
}

/// A shelf in memory. The calls of `take` with the listed numbers fail, counted from 0.
#[derive(Drop)]
pub struct MemShelf {
    alloc: Global,
    places: Vec<Place>,
    out: Option<Vec<u8>>,
    calls: Calls,
    ghost placed: { ForSome out (λ name. has_place places.items name.items ≡ true) },
}

/// Exchanges a disk with the one in the place of a name, and says whether the name has a place.
fn exchange(places: &mut [Place], name: &[u8], disk: &mut Option<MemDisk>) -> bool
    ensures there { result ≡ has_place places.old name.now }
    ensures places { (other : List ℕ) → has_place places.new other ≡ has_place places.old other }
    ensures exchanged { result ≡ true → AreExchanged name.now disk.old disk.new places.old places.new }
    ensures kept { result ≡ false → HasNone name.now disk.old disk.new places.old places.new }
    ensures others { (other : List ℕ) → other ≢ name.now
        → disk_under places.new other ≡ disk_under places.old other }
{
    let Some((first, rest)) = places.split_first_mut() else {
        return false;
    };
    if first.name.as_slice() == name {
        std::mem::swap(&mut first.disk, disk);
        return true;
    }
    exchange(rest, name, disk)
}

/// Takes the disk out of the place of a name, which is made if the name has none yet.
fn take_out(
    alloc: Global,
    places: &mut Vec<Place>,
    name: &[u8],
) -> Result<Option<MemDisk>, AllocError>
    ensures there { OnOk result (has_place places.new.items name.now ≡ true) }
    ensures disk { IfOk result (λ disk. disk ≡ disk_under places.old.items name.now) }
    ensures others { OnOk result ((other : List ℕ) → other ≢ name.now
        → disk_under places.new.items other ≡ disk_under places.old.items other) }
    ensures unchanged { OnErr result (places.new.items ≡ places.old.items) }
{
    let mut disk = None;
    if exchange(places, name, &mut disk) {
        return Ok(disk);
    }
    let name = name.to_vec(alloc)?;
    places.push(Place { name, disk: None })?;
    Ok(None)
}

impl MemShelf {
    /// A shelf with these disks under their names. Of two of one name it has the first.
    pub fn new(
        alloc: Global,
        disks: Vec<(Vec<u8>, MemDisk)>,
        failing: &[u64],
    ) -> Result<MemShelf, DiskFault>
        ensures disks { IfOk result (λ shelf. shelf.places.items
            ≡ map (λ named. record { name = named.0; disk = Some named.1 }) disks.items) }
        ensures none_out { IfOk result (λ shelf. shelf.out ≡ None) }
        ensures calls { IfOk result (λ shelf. shelf.calls ≡ none_made failing.now) }
        ensures memory { OnErr result (result ≡ Err DiskFault.NoMemory) }
    {
        let mut places = Vec::new(alloc);
        for (name, disk) in disks {
            places.push(Place {
                name,
                disk: Some(disk),
            })?;
        }
        let Ok(calls) = Calls::new(alloc, failing) else {
            return Err(DiskFault::NoMemory);
        };
        Ok(MemShelf {
            alloc,
            places,
            out: None,
            calls,
        })
    }
}

impl Shelf for MemShelf {
    ghost use Rattle.std.specs.Option.{option_map};
    ghost use Rattle.muni_edge.specs.Calls.{none_made, is_listed, after_call};
    ghost use Rattle.muni_journal_disk.specs.Places.{disk_under, bytes_of, faults_of, clock_of, since_of};
    ghost use Rattle.muni_journal_disk.specs.Takes.{Takes};

    type D = MemDisk;

    ghost told = { λ shelf name. Some (bytes_of (disk_under shelf.places.items name)) };

    ghost disk_faults = { λ shelf name. faults_of (disk_under shelf.places.items name) };

    ghost clock = { λ shelf name. clock_of (disk_under shelf.places.items name) };

    ghost since = { λ shelf name. since_of (disk_under shelf.places.items name) };

    ghost out = { λ shelf. option_map (λ name. name.items) shelf.out };

    ghost faults = { λ shelf. shelf.calls.faults };

    fn take(&mut self, name: &[u8]) -> Result<MemDisk, DiskFault>
        requires { self.old.out ≡ None }

        ensures taken { Takes ⟦<MemShelf as Shelf>⟧ ⟦<MemDisk as Disk>⟧ name.now result self.old self.new }

        // It fails exactly at the listed calls.
        // promise 9: a shelf in memory fails exactly at the listed calls
        ensures failed { IsErrOf result DiskFault.Failed ↔ (is_listed self.old.calls ≡ true) }
        // promise 9: and counts exactly that
        ensures counted { self.new.calls ≡ after_call self.old.calls }
    {
        if self.calls.make().is_err() {
            return Err(DiskFault::Failed);
        }
        let out = name.to_vec(self.alloc)?;
        let new_disk = MemDisk::new(self.alloc, &[])?;
        let disk = take_out(self.alloc, &mut self.places, name)?;
        self.out = Some(out);
        Ok(disk.unwrap_or(new_disk))
    }

    fn put_back(&mut self, name: &[u8], disk: MemDisk) {
        let mut disk = Some(disk);
        exchange(&mut self.places, name, &mut disk);
        self.out = None;
    }
}
