//! The tables of a store, and the statements that make them.

ghost use Rattle.std.specs.Prelude.{◌≡◌, Ok, Err, IfOk, IfErr};
ghost use Rattle.sqlite.specs.declared.error.Error.{Error as Failure};
ghost use Rattle.muni_store.specs.Faults.{answer_of, fault_in};

use crate::fault::StoreFault;
use crate::rows::number;
use sqlite::{Alter, Connection, Error, Row, params};

/// The statement that makes the table of the terms of issues.
pub(crate) const ISSUES: &str = "CREATE TABLE issues_3 (
  cusip TEXT NOT NULL,
  number INTEGER NOT NULL,
  name TEXT NOT NULL,
  kind INTEGER NOT NULL,
  dated TEXT NOT NULL,
  first TEXT NOT NULL,
  maturity TEXT NOT NULL,
  coupon INTEGER NOT NULL,
  calls TEXT NOT NULL,
  basis INTEGER NOT NULL,
  PRIMARY KEY (cusip, number)
) STRICT";

/// The statement that makes the table of versions.
pub(crate) const VERSIONS: &str = "CREATE TABLE versions_3 (
  desk TEXT NOT NULL,
  reference TEXT NOT NULL,
  number INTEGER NOT NULL,
  act INTEGER NOT NULL,
  cusip TEXT NOT NULL,
  side INTEGER NOT NULL,
  par INTEGER NOT NULL,
  settle TEXT NOT NULL,
  basis INTEGER NOT NULL,
  value INTEGER NOT NULL,
  price INTEGER NOT NULL,
  yld INTEGER NOT NULL,
  redemption TEXT NOT NULL,
  at_price INTEGER NOT NULL,
  label INTEGER NOT NULL,
  days INTEGER NOT NULL,
  principal INTEGER NOT NULL,
  accrued INTEGER NOT NULL,
  total INTEGER NOT NULL,
  fee INTEGER NOT NULL,
  commission INTEGER NOT NULL,
  issue INTEGER NOT NULL,
  PRIMARY KEY (desk, reference, number)
) STRICT";

/// A table of a store.
#[derive(Clone, Copy)]
pub(crate) enum Table {
    Issues,
    Versions,
}

/// Both of them.
pub(crate) const TABLES: [Table; 2] = [Table::Issues, Table::Versions];

impl Table {
    pub(crate) fn name(self) -> &'static str {
        match self {
            Table::Issues => "issues_3",
            Table::Versions => "versions_3",
        }
    }

    /// Makes the table.
    pub(crate) fn making(self) -> &'static str {
        match self {
            Table::Issues => ISSUES,
            Table::Versions => VERSIONS,
        }
    }
}

/// Makes the tables that the file does not have, and says whether it has made one.
pub(crate) fn make_tables<S: Alter>(database: &mut Connection<S>) -> Result<bool, StoreFault> {
    let mut has_made = false;
    for table in TABLES {
        if !has_table(database, table.name())? {
            let _ = answered(database.execute(table.making(), params![]))?;
            has_made = true;
        }
    }
    Ok(has_made)
}

/// Counts the tables of a name.
pub(crate) const COUNT_OF_TABLES: &str =
    "SELECT COUNT(*) FROM sqlite_schema WHERE type = 'table' AND name = ?1";

/// Whether the file has a table of this name.
pub(crate) fn has_table<S: Alter>(
    database: &mut Connection<S>,
    name: &str,
) -> Result<bool, StoreFault> {
    is_above_zero(if_found(database.query_row(COUNT_OF_TABLES, params![name]))?)
}

/// Whether the count that a query finds is above 0.
pub(crate) fn counts_some<S: Alter>(
    database: &mut Connection<S>,
    query: &str,
) -> Result<bool, StoreFault> {
    is_above_zero(if_found(database.query_row(query, params![]))?)
}

pub(crate) fn is_above_zero(row: Option<Row>) -> Result<bool, StoreFault> {
    match row {
        Some(row) => Ok(number(&row)? > 0),
        None => Ok(false),
    }
}

/// The row that a query found, if it found one.
pub(crate) fn if_found(row: Result<Row, Error>) -> Result<Option<Row>, StoreFault>
    ensures found { IfOk result (λ found. row ≡ answer_of found) }
    // promise 9: so of a look-up
    ensures fault { IfErr result (λ fault. (error : Failure) × (row ≡ Err error) × (fault ≡ fault_in error)) }
{
    match row {
        Ok(row) => Ok(Some(row)),
        Err(Error::QueryReturnedNoRows) => Ok(None),
        Err(error) => Err(error.into()),
    }
}

/// What `sqlite` answered, or the fault of its refusal.
pub(crate) fn answered<T>(answer: Result<T, Error>) -> Result<T, StoreFault>
    ensures value { IfOk result (λ value. answer ≡ Ok value) }
    // promise 9: a refusal of SQLite is a lack of memory exactly if it says so, and else a failure
    ensures fault { IfErr result (λ fault. (error : Failure) × (answer ≡ Err error) × (fault ≡ fault_in error)) }
{
    match answer {
        Ok(value) => Ok(value),
        Err(error) => Err(error.into()),
    }
}
