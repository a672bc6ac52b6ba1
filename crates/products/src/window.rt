// The rows that the entries of one chunk's spans may have, and whether some entries' rows are others.
ghost use Rattle.std.specs.Prelude.{◌≡◌, ◌+◌, ◌≤◌, ◌||◌, length, nat_lt, nat_le};
ghost use Rattle.ground.specs.First.{some};
ghost use Rattle.columns.specs.Unchecked.{RunThere};
ghost use Rattle.products.specs.PlanCheck.{row_out, ends_out, rows_stop, SomeThere, FewThere};

use columns::lent::Columns;
use ground::wide;
use std::num::wrapping_sub_u32;

// `size` rows from `from` on, which end at a list number, beside the row of each entry.
#[derive(Clone, Copy)]
pub(crate) struct Window<'a> {
    pub(crate) columns: Columns<'a>,
    pub(crate) from: u32,
    pub(crate) size: u32,
    ghost small: { from + size ≤ 4_294_967_295 },
}

// A span of no more entries after its first is looked at from both ends: to find its column costs more.
const FEW_MORE: u32 = 5;

#[tactic(auto, using(crate::proofs::PlanRules::planning))]
impl Window<'_> {
    // Whether row r is another: one comparison, since a row below `from` wraps.
    fn is_out(self, r: u32) -> bool
        ensures { let w = self.entry in result ≡ (nat_lt r w.from || nat_le (w.from + w.size) r) }
    {
        self.size <= wrapping_sub_u32(r, self.from)
    }

    // Whether the entry at place p has another row.
    fn row_out(self, p: usize) -> bool
        requires { RunThere (length self.columns.rows.now) p (p + 1) }
        ensures { let w = self.entry in result ≡ row_out w.columns.rows.now w.from (w.from + w.size) p }
    {
        self.is_out(self.columns.rows[p])
    }

    // Whether one of places lo up to hi has. It looks at all of them, without a branch, so that the compiler can take several at a time.
    pub(crate) fn some_row_out(self, lo: usize, hi: usize) -> bool
        requires { RunThere (length self.columns.rows.now) lo hi }
        ensures { let w = self.entry in result ≡ some (row_out w.columns.rows.now w.from (w.from + w.size)) lo hi }
    {
        let mut bad = false;
        for r in &self.columns.rows[lo..hi] {
            bad |= self.is_out(*r);
        }
        bad
    }

    // Whether the first or the last of places a up to b has.
    fn ends_out(self, a: usize, b: usize) -> bool
        requires { SomeThere (length self.columns.rows.now) a b }
        ensures { let w = self.entry in result ≡ ends_out w.columns.rows.now w.from (w.from + w.size) a b }
    {
        if self.row_out(a) {
            return true;
        }
        self.row_out(b - 1)
    }

    // Whether one of places a up to b has, of which there are `more` after the first, two to five: pair by pair from both ends, without a loop.
    fn few_out(self, more: u32, a: usize, b: usize) -> bool
        requires some_there { SomeThere (length self.columns.rows.now) a b }
        requires few_there { FewThere more a b }
        ensures { let w = self.entry in result ≡ some (row_out w.columns.rows.now w.from (w.from + w.size)) a b }
    {
        if self.ends_out(a, b) {
            return true;
        }
        if self.ends_out(a + 1, b - 1) {
            return true;
        }
        if more <= 3 {
            return false;
        }
        self.ends_out(a + 2, b - 2)
    }

    // Whether one of places a up to b has, or they are not a few. Where there is none, one fewer than none wraps and is not a few.
    pub(crate) fn rows_stop(self, a: u32, b: u32) -> bool
        requires { RunThere (length self.columns.rows.now) a b }
        ensures { let w = self.entry in result ≡ rows_stop w.columns.rows.now w.from (w.from + w.size) a b }
    {
        let more = wrapping_sub_u32(b - a, 1);
        if more <= 1 {
            return self.ends_out(wide(a), wide(b));
        }
        if FEW_MORE < more {
            return true;
        }
        self.few_out(more, wide(a), wide(b))
    }
}
