//! Tables with R rows and C columns.
ghost use Rattle.std.specs.Prelude.{◌≡◌, ◌<◌};
ghost use Rattle.case_table.specs.Cells.{cell_at};

/// The cell in a column of a row.
macro_rules! cell {
    ($cells:expr, $r:expr, $c:expr) => {
        $cells[$r][$c]
    };
}

/// A table written row by row: a name that says what the row is for, and its cells.
#[macro_export]
macro_rules! cases {
    ($($name:ident: $($cell:ident)+;)*) => {
        $crate::CaseTable {
            cells: [$([$($cell),+]),*],
        }
    };
}

/// A table with R rows and C columns. It takes no memory.
#[derive(Clone, Copy)]
pub struct CaseTable<const R: usize, const C: usize> {
    /// Row by row.
    pub cells: [[u8; C]; R],
}

impl<const R: usize, const C: usize> CaseTable<R, C> {
    /// The cell in a column of a row.
    pub fn at(&self, r: usize, c: usize) -> u8
        requires row { r < R }
        requires column { c < C }
        ensures { result ≡ cell_at self.now.cells r c }
    {
        cell!(self.cells, r, c)
    }
}
