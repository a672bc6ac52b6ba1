// Columns as they are lent: compressed, by the places of all entries. The pointers say where each column's entries begin, and the last one where
// they end; each entry has a row number and a value. Nothing is known of them before `check_columns` has passed them.
ghost use Rattle.std.specs.Prelude.{◌≡◌, length};
ghost use Rattle.columns.specs.Columns.{column_count, first_in, end_in};
ghost use Rattle.columns.specs.Lent.{seen};
ghost use Rattle.columns.specs.Unchecked.{ColumnThere};

use ground::wide;

#[derive(Clone, Copy)]
pub struct Columns<'a> {
    pub nrows: usize,
    pub ptrs: &'a [u32],
    pub rows: &'a [u32],
    pub values: &'a [f64],
}

impl Columns<'_> {
    // How many columns there are: one fewer than the pointers, or 0 where there are none.
    pub fn count(self) -> usize
        ensures { result ≡ column_count (seen self.entry) }
    {
        self.ptrs.len().saturating_sub(1)
    }

    // Where column j's entries begin.
    pub fn first_place(self, j: usize) -> usize
        requires { ColumnThere (length self.ptrs.now) j }
        ensures { result ≡ first_in self.entry.ptrs.now j }
    {
        wide(self.ptrs[j])
    }

    // One past column j's last entry.
    pub fn end_place(self, j: usize) -> usize
        requires { ColumnThere (length self.ptrs.now) j }
        ensures { result ≡ end_in self.entry.ptrs.now j }
    {
        wide(self.ptrs[j + 1])
    }
}
