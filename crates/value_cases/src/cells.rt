//! The cells of a table of cases.

use case_reader::{CaseStop, Words, push_number};
use case_table::CaseTable;
use std::alloc::Global;

const TABLE: CaseTable<2, 3> = CaseTable {
    cells: [[1, 2, 3], [4, 5, 6]],
};

/// The cell at a row and a column, both from 0, of the rows 1 2 3 and 4 5 6.
pub fn cell_case(out: &mut String, alloc: Global, words: &mut Words) -> Result<(), CaseStop> {
    let row = words.whole()?;
    let column = words.whole()?;
    if row >= 2 || column >= 3 {
        return Err(CaseStop::NoCase);
    }
    push_number(
        out,
        alloc,
        i64::from(TABLE.at(row as usize, column as usize)),
    )?;
    Ok(())
}
