// Which eliminated block owns each row. A row that two of them have entries in would couple their inverses, so the plan is refused at the
// first entry whose row an earlier block holds.
#![tactic(auto, using(crate::proofs::OwnerRules::claiming))]

ghost use Rattle.std.specs.Prelude.{◌≡◌, ◌<◌, ◌^◌, length};
ghost use Rattle.ground.specs.Gather.{gather};
ghost use Rattle.columns.specs.Refusals.{told};
ghost use Rattle.blocks.specs.Sides.{block_count};
ghost use Rattle.plan.specs.Owners.{entry_at, column_entries, block_entries, pattern_of, owners_of};
ghost use Rattle.plan.specs.OwnerWalk.{claimed, RowIn, RowsIn, ColumnIn, BlockIn, SideIn, OwnersIn};

use blocks::check::mark_map;
use blocks::owner::Owner;
use columns::lent::Columns;
use columns::refusal::Refusal;
use ground::wide;

// The entry at place p claims its row for block b.
fn claim_entry(rows: &[u32], b: u32, p: usize, owners: &mut [u32]) -> Result<(), Refusal>
    requires { RowIn rows.now (length owners.old) p }
    ensures { record { told = told result; owners = owners.new } ≡ claimed owners.old (entry_at rows.now b p) }
{
    let r = wide(rows[p]);
    let o = Owner { block: owners[r] };
    if o.is_none() {
        owners[r] = b;
        return Ok(());
    }
    if o.block == b {
        return Ok(());
    }
    Err(Refusal::Connected {
        now: wide(b),
        earlier: wide(o.block),
    })
}

// Those at places lo up to hi claim theirs.
fn claim_entries(
    rows: &[u32],
    b: u32,
    lo: usize,
    hi: usize,
    owners: &mut [u32],
) -> Result<(), Refusal>
    requires { RowsIn rows.now (length owners.old) lo hi }
    ensures { record { told = told result; owners = owners.new } ≡ claimed owners.old (gather (entry_at rows.now b) lo hi) }
{
    // By place: an entry's claim is told by its place.
    for p in lo..hi {
        claim_entry(rows, b, p, owners)?;
    }
    Ok(())
}

// Column j claims its rows for block b.
fn claim_column(columns: Columns, b: u32, j: usize, owners: &mut [u32]) -> Result<(), Refusal>
    requires { ColumnIn columns.ptrs.now columns.rows.now (length owners.old) j }
    ensures { record { told = told result; owners = owners.new }
        ≡ claimed owners.old (column_entries columns.entry.ptrs.now columns.entry.rows.now b j) }
{
    let lo = columns.first_place(j);
    let hi = columns.end_place(j);
    claim_entries(columns.rows, b, lo, hi, owners)
}

// Block b's columns claim theirs.
fn claim_block(columns: Columns, elims: &[u32], b: usize, owners: &mut [u32]) -> Result<(), Refusal>
    requires { BlockIn columns.ptrs.now columns.rows.now elims.now (length owners.old) b }
    ensures { record { told = told result; owners = owners.new }
        ≡ claimed owners.old (block_entries columns.entry.ptrs.now columns.entry.rows.now elims.now b) }
{
    let first = wide(elims[b + b]);
    let dof = wide(elims[b + b + 1]);
    let block = b as u32;
    // By index: the block's i-th column, as its entries are told.
    for i in 0..dof {
        claim_column(columns, block, first + i, owners)?;
    }
    Ok(())
}

// The eliminated blocks in their order.
fn claim_blocks(columns: Columns, elims: &[u32], owners: &mut [u32]) -> Result<(), Refusal>
    requires { SideIn columns.ptrs.now columns.rows.now elims.now (length owners.old) }
    ensures { record { told = told result; owners = owners.new }
        ≡ claimed owners.old
        (gather (block_entries columns.entry.ptrs.now columns.entry.rows.now elims.now) 0 (block_count elims.now)) }
{
    let count = elims.len() / 2;
    // By number, which is what a row's owner is.
    for b in 0..count {
        claim_block(columns, elims, b, owners)?;
    }
    Ok(())
}

// The owners of all rows: the eliminated block with an entry there, or the mark; after refusal 10 the mark everywhere.
#[tactic(auto, using(crate::proofs::OwnerCalls::owning))]
pub(crate) fn row_owners(columns: Columns, elims: &[u32], owners: &mut [u32]) -> Result<(), Refusal>
    requires { OwnersIn (pattern_of columns.nrows columns.ptrs.now columns.rows.now) elims.now (length owners.old) }
    ensures { let m = pattern_of columns.entry.nrows columns.entry.ptrs.now columns.entry.rows.now in
        record { told = told result; owners = owners.new } ≡ owners_of m elims.now owners.old }
{
    mark_map(owners, columns.nrows);
    if let Err(refusal) = claim_blocks(columns, elims, owners) {
        mark_map(owners, columns.nrows);
        return Err(refusal);
    }
    Ok(())
}
