//! A cabinet of files.

ghost use Rattle.std.specs.Prelude.{◌≡◌, None, option_map};

use crate::faults::counted;
use crate::keeper::SqlKeeper;
use crate::store_file::{StoreFile, Trust};
use muni_edge::Faults;
use muni_host::file::Missing;
use muni_keep::{Cabinet, KeepFault};
use sqlite::{File, FileStore};

/// A cabinet whose stores are files, by their paths. It does not expose what they hold.
///
/// The tables are made if a file has none. A file that is not there is made or refused. A file that another process has open is refused at once, and so
/// is one that is no store, which stays as it was.
#[derive(Drop)]
pub struct SqlCabinet<'a> {
    rt: &'a HostRuntime,
    trust: Trust,
    missing: Missing,
    lent: Option<Vec<u8>>,
    faults: Faults,
}

impl<'a> SqlCabinet<'a> {
    /// A cabinet of the files of this machine, none of which is open. A file whose seal is not trusted is
    /// audited at each fetch.
    pub fn new(rt: &'a HostRuntime, trust: Trust, missing: Missing) -> SqlCabinet<'a>
        ensures none_out { result.lent ≡ None }
        ensures faults { result.faults ≡ 0 }
    {
        SqlCabinet {
            rt,
            trust,
            missing,
            lent: None,
            faults: Faults::none(),
        }
    }
}

impl<'a> Cabinet for SqlCabinet<'a> {
    type K = SqlKeeper<FileStore<File>, StoreFile>;

    ghost told = { λ _ _. None };

    ghost faults = { λ cabinet. cabinet.faults };

    ghost out = { λ cabinet. option_map (λ name. (name.items, 0)) cabinet.lent };

    fn fetch(&mut self, name: &[u8]) -> Result<SqlKeeper<FileStore<File>, StoreFile>, KeepFault> {
        let lent = name.to_vec(self.rt.alloc())?;
        let path = name.to_vec(self.rt.alloc())?;
        let mut file = StoreFile::new(self.rt.clone()?, path, self.trust, self.missing);
        let keeper = counted(&mut self.faults, file.open())?;
        self.lent = Some(lent);
        Ok(SqlKeeper::new(file, keeper))
    }

    fn give_back(&mut self, keeper: SqlKeeper<FileStore<File>, StoreFile>) {
        let (file, keeper, faults) = keeper.into_parts();
        self.faults.add(&faults);
        if let Some(keeper) = keeper {
            file.close(keeper);
        }
        self.lent = None;
    }
}
