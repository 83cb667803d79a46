//! The rows of a block before they are priced: how many they are, and which issues they name.

ghost use Rattle.std.specs.Prelude.{IfOk, OnOk};
ghost use Rattle.std.specs.BTreeMap as tree;
ghost use Rattle.muni_keep.specs.Trades.{by_bytes};
ghost use Rattle.muni_figures.specs.Issues.{IsScan, NamesRow};
ghost use Rattle.muni_figures.specs.Rows.{row_of, rows_in};

use crate::asked::{is_row, next_line, read_named};
use muni_edge::NoMemory;
use muni_terms::Issue;
use std::alloc::Global;
use std::collections::BTreeMap;

/// How many rows a block has, and the CUSIPs of those whose issue is not had yet.
#[derive(Drop)]
pub(crate) struct Scan {
    pub rows: u64,
    pub unknown: Vec<[u8; 9]>,
}

/// Goes over the rows of a block.
pub(crate) fn scan_block(
    alloc: Global,
    block: &[u8],
    issues: &BTreeMap<[u8; 9], Issue>,
) -> Result<Scan, NoMemory>
    ensures { IfOk result (λ scan. IsScan (tree.get by_bytes issues.now) (rows_in block.now) scan) }
{
    let mut rows = 0;
    let mut unknown = Vec::new(alloc);
    let mut left = Some(block);
    while let Some(bytes) = left {
        let (line, more) = next_line(bytes);
        if is_row(line) {
            rows += 1;
            add_unknown(line, issues, &mut unknown)?;
        }
        left = more;
    }
    Ok(Scan { rows, unknown })
}

// Adds the CUSIP of a row whose issue is not had. Its other columns are read when it is priced.
fn add_unknown(
    line: &[u8],
    issues: &BTreeMap<[u8; 9], Issue>,
    unknown: &mut Vec<[u8; 9]>,
) -> Result<(), NoMemory>
    ensures { OnOk result (NamesRow (tree.get by_bytes issues.now) (row_of line.now) unknown.old.items unknown.new.items) }
{
    let Some(cusip) = read_named(line) else {
        return Ok(());
    };
    if issues.contains_key(&cusip) {
        return Ok(());
    }
    match unknown.push(cusip) {
        Ok(()) => Ok(()),
        Err(_) => Err(NoMemory),
    }
}
