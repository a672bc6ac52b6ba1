// The columns of a side in local order, and the block of each: what the products and the spans walk along.
ghost use Rattle.std.specs.Prelude.{◌≡◌, ℕ, ◌+◌, ◌<◌, length};
ghost use Rattle.ground.specs.Gather.{list_of};
ghost use Rattle.plan.specs.ColumnLists.{numbers_listed, columns_listed, blocks_listed, Gives, ColumnsFit};

use ground::wide;

// Places written with a number for each column of block `block`, from column `first` on: what `number` has for the block and the column.
fn list_block<F: Fn(u32, u32) -> u32>(block: u32, first: u32, number: &F, places: &mut [u32])
    requires callable { F.IsAlwaysCallable number.now }
    requires few { (i : ℕ) → i < length places.old → first + i < 65_536 }
    ensures { (v : ℕ → ℕ → ℕ) → Gives (F.post number.now) v
        → places.new ≡ list_of (λ i. v block (first + i)) (length places.old) }
{
    for (i, place) in places.iter_mut().enumerate() {
        *place = number(block, first + i as u32);
    }
}

// The numbers of the side's columns, and how many there are.
fn list_side<F: Fn(u32, u32) -> u32>(side: &[u32], number: F, list: &mut [u32]) -> usize
    requires callable { F.IsAlwaysCallable number }
    requires fit { ColumnsFit side.now (length list.old) }
    ensures { (v : ℕ → ℕ → ℕ) → Gives (F.post number) v
        → record { count = result; list = list.new } ≡ numbers_listed v side.now list.old }
{
    let (blocks, _) = side.as_chunks::<2>();
    let mut at: usize = 0;
    for (b, [first, dof]) in blocks.iter().enumerate() {
        let end = at + wide(*dof);
        list_block(b as u32, *first, &number, &mut list[at..end]);
        at = end;
    }
    at
}

// The side's columns, and how many there are.
pub(crate) fn list_columns(side: &[u32], list: &mut [u32]) -> usize
    requires { ColumnsFit side.now (length list.old) }
    ensures { record { count = result; list = list.new } ≡ columns_listed side.now list.old }
{
    list_side(side, |_, column| column, list)
}

// The block of each of the side's columns, and how many there are.
pub(crate) fn list_blocks(side: &[u32], list: &mut [u32]) -> usize
    requires { ColumnsFit side.now (length list.old) }
    ensures { record { count = result; list = list.new } ≡ blocks_listed side.now list.old }
{
    list_side(side, |block, _| block, list)
}
