// The kinds of cases.
use crate::block_values::{Expected, same_check, same_damp, same_gather};
use crate::damping::{damping_of, same_identity, same_terms};
use crate::jacobian_ops::{same_column_dot, same_diag_jt_j, same_jt_j_vec_product, same_jt_vec};
use crate::lists::{all_lists, floats, narrow};
use crate::partition::{
    same_block_places, same_dofs, same_eliminated_offsets, same_kept_locals, same_kept_offsets,
    same_places_within, same_slots,
};
use blocks::sides::Sides;
use columns::lent::Columns;
use std::alloc::{AllocError, Global};

#[derive(Clone, Copy, PartialEq, Eq)]
pub(crate) enum Kind {
    ColumnDot,
    JtVec,
    DiagJtJ,
    JtJVecProduct,
    Lookups,
    BlockPlace,
    KeptOffset,
    EliminatedOffset,
    CheckBlocks,
    CheckRefused,
    Gather,
    Damp,
    DiagonalTerm,
    Identity,
}

// That a number is no kind's.
#[derive(Clone, Copy)]
pub(crate) struct UnknownKind;

impl TryFrom<u64> for Kind {
    type Error = UnknownKind;

    fn try_from(number: u64) -> Result<Kind, UnknownKind> {
        match number {
            1 => Ok(Kind::ColumnDot),
            2 => Ok(Kind::JtVec),
            3 => Ok(Kind::DiagJtJ),
            4 => Ok(Kind::JtJVecProduct),
            5 => Ok(Kind::Lookups),
            6 => Ok(Kind::BlockPlace),
            7 => Ok(Kind::KeptOffset),
            8 => Ok(Kind::EliminatedOffset),
            9 => Ok(Kind::CheckBlocks),
            10 => Ok(Kind::CheckRefused),
            11 => Ok(Kind::Gather),
            12 => Ok(Kind::Damp),
            13 => Ok(Kind::DiagonalTerm),
            14 => Ok(Kind::Identity),
            _ => Err(UnknownKind),
        }
    }
}

// The kinds in the order of a list's line, and what stands there before the count of each.
pub(crate) const HEADS: [(Kind, &str); 14] = [
    (Kind::ColumnDot, "column_dot"),
    (Kind::JtVec, ", jt_vec"),
    (Kind::DiagJtJ, ", diag_jt_j"),
    (Kind::JtJVecProduct, ", jt_j_vec_product"),
    (Kind::Lookups, ", lookups"),
    (Kind::BlockPlace, ", block_place"),
    (Kind::KeptOffset, ", kept_offset"),
    (Kind::EliminatedOffset, ", eliminated_offset"),
    (Kind::CheckBlocks, ", check_blocks"),
    (Kind::CheckRefused, ", its refusals"),
    (Kind::Gather, ", gather_from_jacobian"),
    (Kind::Damp, ", damp"),
    (Kind::DiagonalTerm, ", diagonal_term"),
    (Kind::Identity, ", identity"),
];

// Whether each list has n numbers.
fn level(n: usize, lists: &[&[u64]]) -> bool {
    lists.iter().all(|list| list.len() == n)
}

// Replays a case over columns and both sides; `rest` has its lists past the columns.
fn replay_sides(
    alloc: Global,
    kind: Kind,
    columns: Columns,
    rest: &[&[u64]],
) -> Result<Option<bool>, AllocError> {
    let &[kept, elims, before, answer, map, ref rest @ ..] = rest else {
        return Ok(None);
    };
    let expected = Expected { answer, map };
    let kept = narrow(alloc, kept)?;
    let elims = narrow(alloc, elims)?;
    let mut map = narrow(alloc, before)?;
    let sides = Sides {
        kept: &kept,
        elims: &elims,
    };
    let same = match (kind, answer, rest) {
        (Kind::CheckBlocks, [_], []) | (Kind::CheckRefused, [_, _], []) => {
            same_check(columns, sides, &mut map, expected)
        }
        (Kind::Gather, [_], &[out]) => same_gather(alloc, columns, sides, &mut map, expected, out)?,
        (Kind::Damp, [_], &[after, lent, &[lambda, min, max]]) => {
            let damping = damping_of(lambda, min, max);
            same_damp(
                alloc, columns, sides, &mut map, expected, after, lent, damping,
            )?
        }
        _ => return Ok(None),
    };
    Ok(Some(same))
}

// Replays a case over columns, which are its first lists.
fn replay_columns(alloc: Global, kind: Kind, lists: &[&[u64]]) -> Result<Option<bool>, AllocError> {
    let &[&[nrows], ptrs, rows, values, ref rest @ ..] = lists else {
        return Ok(None);
    };
    let ptrs = narrow(alloc, ptrs)?;
    let rows = narrow(alloc, rows)?;
    let values = floats(alloc, values)?;
    let columns = Columns {
        nrows: nrows as usize,
        ptrs: &ptrs,
        rows: &rows,
        values: &values,
    };
    let same = match (kind, rest) {
        (Kind::ColumnDot, &[&[a, b], dot]) => same_column_dot(columns, a, b, dot),
        (Kind::JtVec, &[v, out]) => same_jt_vec(alloc, columns, v, out)?,
        (Kind::DiagJtJ, &[out]) => same_diag_jt_j(alloc, columns, out)?,
        (Kind::JtJVecProduct, &[v, jv, out]) => same_jt_j_vec_product(alloc, columns, v, jv, out)?,
        (_, rest) => return replay_sides(alloc, kind, columns, rest),
    };
    Ok(Some(same))
}

// Whether our functions give what a case's lists expect; nothing where they are not those of its kind.
pub(crate) fn replay(alloc: Global, kind: Kind, lists: &[u64]) -> Result<Option<bool>, AllocError> {
    let lists = all_lists(alloc, lists)?;
    let same = match (kind, lists.as_slice()) {
        (
            Kind::Lookups,
            &[
                kept,
                elims,
                kinds,
                locals,
                offsets,
                kept_locals,
                blocks,
                within,
            ],
        ) => {
            if !level(kinds.len(), &[locals, offsets, kept_locals, blocks, within]) {
                return Ok(None);
            }
            let kept = narrow(alloc, kept)?;
            let elims = narrow(alloc, elims)?;
            let sides = Sides {
                kept: &kept,
                elims: &elims,
            };
            same_slots(sides, kinds, locals, offsets)
                && same_kept_locals(&kept, kept_locals)
                && same_places_within(&elims, blocks, within)
        }
        (Kind::BlockPlace, &[_, elims, dofs, starts, ends, &[nvalues]]) => {
            if !level(dofs.len(), &[starts, ends]) {
                return Ok(None);
            }
            let elims = narrow(alloc, elims)?;
            same_block_places(nvalues, &elims, starts, ends) && same_dofs(&elims, dofs)
        }
        (Kind::KeptOffset, &[kept, _, offsets]) => same_kept_offsets(
            &narrow(alloc, kept)?,
            offsets,
        ),
        (Kind::EliminatedOffset, &[_, elims, firsts, &[kept_dof]]) => {
            same_eliminated_offsets(&narrow(alloc, elims)?, firsts, kept_dof)
        }
        (Kind::DiagonalTerm, &[&[lambda, min, max], values, terms]) => {
            if values.len() != terms.len() {
                return Ok(None);
            }
            same_terms(damping_of(lambda, min, max), values, terms)
        }
        (Kind::Identity, &[&[lambda], damping]) => same_identity(lambda, damping),
        (_, lists) => return replay_columns(alloc, kind, lists),
    };
    Ok(Some(same))
}
