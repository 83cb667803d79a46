//! The rows of the tables of earlier versions of the program, moved to those of today.

use crate::fault::StoreFault;
use crate::old_tables::{OLD_TABLES, OldTable};
use crate::schema::{COUNT_OF_TABLES, TABLES, answered, has_table, if_found, is_above_zero};
use sqlite::{Alter, Connection, Transaction, params};
use std::alloc::Global;

/// Moves the rows of the old tables, if the file has such, and says whether it has. One transaction makes the
/// tables of today, moves the rows and takes the old tables away, so the file is one of today or as it was, and
/// no earlier version of the program finds a table of its own beside what was moved. If a row is not that of a
/// checked value the file stays as it was.
pub(crate) fn move_old_tables<S: Alter>(
    alloc: Global,
    database: &mut Connection<S>,
) -> Result<bool, StoreFault> {
    if !check_old_tables(database)? {
        return Ok(false);
    }
    if !database.is_autocommit() {
        return Err(StoreFault::Failed);
    }
    let mut moving = database.transaction();
    make_tables(&mut moving)?;
    move_tables(alloc, &mut moving)?;
    answered(moving.commit())?;
    Ok(true)
}

/// Whether a file has old tables. One in which a row is not that of a checked value is refused.
fn check_old_tables<S: Alter>(database: &mut Connection<S>) -> Result<bool, StoreFault> {
    let mut has_any = false;
    for table in OLD_TABLES {
        if has_table(database, table.name())? {
            check_rows(database, table)?;
            has_any = true;
        }
    }
    Ok(has_any)
}

fn check_rows<S: Alter>(database: &mut Connection<S>, table: OldTable) -> Result<(), StoreFault> {
    let mut rows = answered(database.query(table.rows(), params![]))?;
    for _ in 0..u64::MAX {
        match answered(rows.next())? {
            Some(row) if table.is_checked(row) => {}
            Some(_) => return Err(StoreFault::Failed),
            None => break,
        }
    }
    Ok(())
}

/// Makes the tables of today that are missing.
fn make_tables<S: Alter>(moving: &mut Transaction<'_, S>) -> Result<(), StoreFault> {
    for table in TABLES {
        if !has_table_yet(moving, table.name())? {
            write(moving, table.making())?;
        }
    }
    Ok(())
}

fn move_tables<S: Alter>(alloc: Global, moving: &mut Transaction<'_, S>) -> Result<(), StoreFault> {
    for table in OLD_TABLES {
        if has_table_yet(moving, table.name())? {
            move_table(alloc, moving, table)?;
        }
    }
    Ok(())
}

fn move_table<S: Alter>(
    alloc: Global,
    moving: &mut Transaction<'_, S>,
    table: OldTable,
) -> Result<(), StoreFault> {
    let copying = format!(in alloc; "INSERT INTO {} {}", table.today().name(), table.rows())?;
    let dropping = format!(in alloc; "DROP TABLE {}", table.name())?;
    write(moving, &copying)?;
    write(moving, &dropping)
}

/// Whether the file has a table of this name, as far as the transaction has come.
fn has_table_yet<S: Alter>(
    moving: &mut Transaction<'_, S>,
    name: &str,
) -> Result<bool, StoreFault> {
    is_above_zero(if_found(moving.query_row(COUNT_OF_TABLES, params![name]))?)
}

fn write<S: Alter>(moving: &mut Transaction<'_, S>, statement: &str) -> Result<(), StoreFault> {
    let _ = answered(moving.execute(statement, params![]))?;
    Ok(())
}
