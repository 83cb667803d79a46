//! The keeper over a journal.

ghost use Rattle.std.specs.Prelude.{◌≡◌, ◌≤◌, ◌+◌, ◌^◌, Some, None, Ok, true, List, ℕ, length, IsSome, OnOk, OnErr};
ghost use Rattle.std.specs.Option.{ForSome, ForNone};
ghost use Rattle.std.specs.Result.{result_map_both};
ghost use Rattle.muni_keep.specs.History.{next_number};
ghost use Rattle.muni_keep.specs.Tables.{issue_at, issue_numbered, issue_history, last_issue, trade_at, version_at, last_at, trade_count, page_at, before_latest, issue_past, desk_past};
ghost use Rattle.muni_journal_disk.specs.Calls.{SameDisk};
ghost use Rattle.muni_journal_disk.specs.Disk.{StopsLeave};
ghost use Rattle.muni_journal_disk.specs.Slots.{AllImages};
ghost use Rattle.muni_journal_record.specs.Body.{body_of};
ghost use Rattle.muni_journal_record.specs.declared.put.Put.TheVariants as put;
ghost use Rattle.muni_journal.specs.Puts.{is_next, after};
ghost use Rattle.muni_journal.specs.Journal.{journal_of};
ghost use Rattle.muni_journal.specs.Piece.{IsPieceOf};
ghost use Rattle.muni_journal.specs.Stops.{IsInDoubt, StandsFor};
ghost use Rattle.muni_journal.specs.Told.{lent_as_of};

use crate::faults::counted;
use crate::fetching::LIMIT;
use crate::kept::put_on;
use crate::piece::piece_of;
use arrayvec::ArrayVec;
use muni_edge::Faults;
use muni_journal_disk::{Disk, DiskFault, SlotFault, put_slot, take_back};
use muni_journal_record::Put;
use muni_keep::{KeepFault, Keeper, MemTables};
use muni_msg::{DeskName, Key, Line, Reference, Version};
use muni_terms::Issue;

/// The tables in memory, and each put in a journal on a disk.
#[derive(Drop)]
pub struct JournalKeeper<D: Disk> {
    pub(crate) disk: D,
    pub(crate) gate: u64,
    pub(crate) kept: MemTables,
    pub(crate) in_doubt: Option<Put>,
    pub(crate) faults: Faults,
    ghost room: { gate ≤ 2 ^ 40 },
    // Between two calls every image of the disk stands for the tables, or for them after a put in doubt.
    ghost at_rest: { ForNone in_doubt (AllImages (D.image disk) (λ c. journal_of c ≡ Some (record { gate = gate; tables = kept }))) },
    ghost doubtful: { ForSome in_doubt (λ put. AllImages (D.image disk) (IsInDoubt (record { gate = gate; tables = kept }) put)) },
}

impl<D: Disk> JournalKeeper<D> {
    ghost use Rattle.muni_journal.specs.Keeper.{EditsJournal, SettlesDoubt};

    /// Takes back a put that is in doubt.
    pub(crate) fn settle(&mut self) -> Result<(), DiskFault>
        ensures gate { self.new.gate ≡ self.old.gate }
        ensures tables { self.new.kept ≡ self.old.kept }
        ensures faults { self.new.faults ≡ self.old.faults }
        ensures settled { OnOk result (self.new.in_doubt ≡ None) }
        ensures kept { OnErr result (self.new.in_doubt ≡ self.old.in_doubt) }
        ensures doubted { OnErr result (IsSome self.old.in_doubt) }
        ensures stops { StopsLeave D.clock D.since self.old.disk self.new.disk
            (StandsFor self.old.kept self.old.in_doubt None) }
        ensures same { SameDisk D.Disk DiskFault.Failed result self.old.disk self.new.disk }
    {
        if self.in_doubt.is_some() {
            take_back(&mut self.disk, self.gate)?;
            self.in_doubt = None;
        }
        Ok(())
    }

    /// Puts while nothing is in doubt. If the tables find no memory the put is in doubt too, though the
    /// disk has it.
    fn add(&mut self, put: &Put, piece: &[u8]) -> Result<(), DiskFault>
        requires at_rest { self.old.in_doubt ≡ None }
        requires next { is_next self.old.kept put.now ≡ true }
        requires piece { IsPieceOf put.now piece.now }
        requires room { self.old.gate + 5 + length (body_of put.now) ≤ 2 ^ 40 }

        ensures put { OnOk result (self.new.kept ≡ after self.old.kept put.now) }
        ensures unchanged { OnErr result (self.new.kept ≡ self.old.kept) }
        ensures faults { self.new.faults ≡ self.old.faults }
        ensures doubt { SettlesDoubt D.Disk put.now result self.old self.new }
        ensures stops { StopsLeave D.clock D.since self.old.disk self.new.disk
            (StandsFor self.old.kept None (Some put.now)) }
        ensures same { SameDisk D.Disk DiskFault.Failed result self.old.disk self.new.disk }
    {
        match put_slot(&mut self.disk, self.gate, piece) {
            Ok(()) => match put_on(&mut self.kept, put) {
                Ok(()) => {
                    self.gate += piece.len() as u64;
                    Ok(())
                }
                Err(_) => {
                    self.in_doubt = Some(put.copy());
                    Err(DiskFault::NoMemory)
                }
            },
            Err(SlotFault::Unopened(fault)) => Err(fault),
            Err(SlotFault::InDoubt(fault)) => {
                self.in_doubt = Some(put.copy());
                Err(fault)
            }
        }
    }

    /// Puts what meets its condition.
    fn put(&mut self, put: &Put) -> Result<(), KeepFault>
        requires { is_next self.old.kept put.now ≡ true }

        ensures edits { EditsJournal D.Disk ⟦<JournalKeeper<D> as Keeper>⟧ put.now result self.old self.new }
    {
        if let Err(fault) = self.settle() {
            return Err(counted(&mut self.faults, fault));
        }
        let piece = piece_of(put);
        if self.gate + piece.len() as u64 > LIMIT {
            return Err(self.faults.fail().into());
        }
        if let Err(fault) = self.add(put, &piece) {
            return Err(counted(&mut self.faults, fault));
        }
        Ok(())
    }

    /// Between two calls every image of its disk stands for its tables, or for them after the put that
    /// is in doubt.
    pub fn images_stand(&self)
        // promise 8: between two calls a stop leaves the tables, or those after the one put in doubt
        ensures { (c : List ℕ) → D.image self.now.disk c
            → StandsFor self.now.kept self.now.in_doubt None c }
    {}
}

impl<D: Disk> Keeper for JournalKeeper<D> {
    ghost use Rattle.muni_journal.specs.Keeper.{EditsJournal};
    ghost use Rattle.muni_journal.specs.Told.{lent_as_of};

    ghost tables = { λ keeper. Some keeper.kept };

    ghost faults = { λ keeper. keeper.faults };

    ghost lent_as = { λ keeper. lent_as_of (D.bytes keeper.disk) };

    fn issue(&mut self, cusip: &[u8; 9]) -> Result<Option<Issue>, KeepFault>
        // promise 6: it finds what the tables hold
        ensures found { result ≡ Ok (issue_at self.old.kept cusip.now) }
        // promise 8, 9: it touches no disk and cannot fail
        ensures same { self.new ≡ self.old }
    {
        Ok(self.kept.issue(cusip))
    }

    fn issue_numbered(&mut self, cusip: &[u8; 9], number: u32) -> Result<Option<Issue>, KeepFault>
        // promise 6: it finds what the tables hold
        ensures found { result ≡ Ok (issue_numbered self.old.kept cusip.now number) }
        // promise 8, 9: it touches no disk and cannot fail
        ensures same { self.new ≡ self.old }
    {
        Ok(self.kept.issue_numbered(cusip, number))
    }

    fn last_issue(&mut self, cusip: &[u8; 9]) -> Result<Option<(u32, Issue)>, KeepFault>
        // promise 6: it finds what the tables hold
        ensures found { result ≡ Ok (last_issue self.old.kept cusip.now) }
        // promise 8, 9: it touches no disk and cannot fail
        ensures same { self.new ≡ self.old }
    {
        Ok(self.kept.last_issue(cusip))
    }

    fn put_issue(&mut self, number: u32, issue: &Issue) -> Result<(), KeepFault>
        requires { number ≡ next_number (issue_history self.old.kept issue.now.cusip) }

        // promise 8, 9: a stop keeps all that was answered and at most this put; only a disk counts, or a full file
        ensures edits { EditsJournal D.Disk ⟦<JournalKeeper<D> as Keeper>⟧ (put.Issue number issue.now) result
            self.old self.new }
    {
        let put = Put::Issue {
            number,
            issue: issue.copy(),
        };
        self.put(&put)
    }

    fn version(&mut self, key: &Key, number: u32) -> Result<Option<Version>, KeepFault>
        // promise 6: it finds what the tables hold
        ensures found { result ≡ Ok (version_at self.old.kept key.now number) }
        // promise 8, 9: it touches no disk and cannot fail
        ensures same { self.new ≡ self.old }
    {
        Ok(self.kept.version(key, number))
    }

    fn last(&mut self, key: &Key) -> Result<Option<(u32, Version)>, KeepFault>
        // promise 6: it finds what the tables hold
        ensures found { result ≡ Ok (last_at self.old.kept key.now) }
        // promise 8, 9: it touches no disk and cannot fail
        ensures same { self.new ≡ self.old }
    {
        Ok(self.kept.last(key))
    }

    fn put_version(&mut self, key: &Key, number: u32, version: &Version) -> Result<(), KeepFault>
        requires { number ≡ next_number (trade_at self.old.kept key.now) }

        // promise 8, 9: a stop keeps all that was answered and at most this put; only a disk counts, or a full file
        ensures edits { EditsJournal D.Disk ⟦<JournalKeeper<D> as Keeper>⟧ (put.Version key.now number version.now) result
            self.old self.new }
    {
        let put = Put::Version {
            key: key.copy(),
            number,
            version: *version,
        };
        self.put(&put)
    }

    fn trades(&mut self, desk: &DeskName) -> Result<u32, KeepFault>
        // promise 6: it finds what the tables hold
        ensures found { result ≡ Ok (trade_count self.old.kept desk.now) }
        // promise 8, 9: it touches no disk and cannot fail
        ensures same { self.new ≡ self.old }
    {
        Ok(self.kept.trades(desk))
    }

    fn page(
        &mut self,
        desk: &DeskName,
        after: &Option<Reference>,
    ) -> Result<ArrayVec<Line, 50>, KeepFault>
        // promise 6: it finds what the tables hold
        ensures found { result_map_both (λ lines. lines.items) (λ fault. fault) result
            ≡ Ok (page_at self.old.kept desk.now after.now) }
        // promise 8, 9: it touches no disk and cannot fail
        ensures same { self.new ≡ self.old }
    {
        Ok(self.kept.page(desk, after))
    }

    fn before_latest(&mut self, desk: &DeskName) -> Result<Option<Reference>, KeepFault>
        // promise 6: it finds what the tables hold
        ensures found { result ≡ Ok (before_latest self.old.kept desk.now) }
        // promise 8, 9: it touches no disk and cannot fail
        ensures same { self.new ≡ self.old }
    {
        Ok(self.kept.before_latest(desk))
    }

    fn issue_past(&mut self, after: &Option<[u8; 9]>) -> Result<Option<([u8; 9], Issue)>, KeepFault>
        // promise 6: it finds what the tables hold
        ensures found { result ≡ Ok (issue_past self.old.kept after.now) }
        // promise 8, 9: it touches no disk and cannot fail
        ensures same { self.new ≡ self.old }
    {
        Ok(self.kept.issue_past(after))
    }

    fn desk_past(&mut self, after: &Option<DeskName>) -> Result<Option<DeskName>, KeepFault>
        // promise 6: it finds what the tables hold
        ensures found { result ≡ Ok (desk_past self.old.kept after.now) }
        // promise 8, 9: it touches no disk and cannot fail
        ensures same { self.new ≡ self.old }
    {
        Ok(self.kept.desk_past(after))
    }
}
