// The kinds of cases: the products, and some of them again over a plan that the original did not make.
use crate::lists::all_lists;
use crate::planned::{same_operator, same_sweep};
use crate::problem::Problem;
use crate::unplanned::{same_coupling, same_inverse, same_transpose, same_update};
use products::side::Side;
use std::alloc::{AllocError, Global};

#[derive(Clone, Copy, PartialEq, Eq)]
pub(crate) enum Kind {
    Operator,
    Damped,
    KeptSweep,
    EliminatedSweep,
    Inverse,
    Coupling,
    Transpose,
    Update,
    ForeignOperator,
    ForeignDamped,
    ForeignKeptSweep,
    ForeignEliminatedSweep,
}

// That a number is no kind's.
#[derive(Clone, Copy)]
pub(crate) struct UnknownKind;

impl TryFrom<u32> for Kind {
    type Error = UnknownKind;

    fn try_from(number: u32) -> Result<Kind, UnknownKind> {
        match number {
            1 => Ok(Kind::Operator),
            2 => Ok(Kind::Damped),
            3 => Ok(Kind::KeptSweep),
            4 => Ok(Kind::EliminatedSweep),
            5 => Ok(Kind::Inverse),
            6 => Ok(Kind::Coupling),
            7 => Ok(Kind::Transpose),
            8 => Ok(Kind::Update),
            9 => Ok(Kind::ForeignOperator),
            10 => Ok(Kind::ForeignDamped),
            11 => Ok(Kind::ForeignKeptSweep),
            12 => Ok(Kind::ForeignEliminatedSweep),
            _ => Err(UnknownKind),
        }
    }
}

// The kinds in the order of a list's line, and what stands there before the count of each.
pub(crate) const HEADS: [(Kind, &str); 12] = [
    (Kind::Operator, "operator"),
    (Kind::Damped, ", damped"),
    (Kind::KeptSweep, ", kept sweep"),
    (Kind::EliminatedSweep, ", eliminated sweep"),
    (Kind::ForeignOperator, ", over foreign plans: operator"),
    (Kind::ForeignDamped, ", damped"),
    (Kind::ForeignKeptSweep, ", kept sweep"),
    (Kind::ForeignEliminatedSweep, ", eliminated sweep"),
    (Kind::Inverse, ", without a plan: inverse"),
    (Kind::Coupling, ", coupling"),
    (Kind::Transpose, ", transpose"),
    (Kind::Update, ", update"),
];

// Whether our product gives what a case's lists expect; nothing where they are not those of its kind.
pub(crate) fn replay(
    alloc: Global,
    kind: Kind,
    p: &Problem,
    lists: &[u32],
) -> Result<Option<bool>, AllocError> {
    let lists = all_lists(alloc, lists)?;
    let same = match (kind, lists.as_slice()) {
        (
            Kind::Operator | Kind::Damped | Kind::ForeignOperator | Kind::ForeignDamped,
            &[damping, rows, t, u, out],
        ) => same_operator(alloc, p, damping, rows, t, u, out)?,
        (Kind::KeptSweep | Kind::ForeignKeptSweep, &[lent, after, order]) => {
            same_sweep(alloc, Side::Kept, p, lent, after, order)?
        }
        (Kind::EliminatedSweep | Kind::ForeignEliminatedSweep, &[lent, after, order]) => {
            same_sweep(alloc, Side::Eliminated, p, lent, after, order)?
        }
        (Kind::Inverse, &[b, out]) => same_inverse(alloc, p, b, out)?,
        (Kind::Coupling, &[rows, out]) => same_coupling(alloc, p, rows, out)?,
        (Kind::Transpose, &[rows, out]) => same_transpose(alloc, p, rows, out)?,
        (Kind::Update, &[kept, elims, out]) => same_update(alloc, p, kept, elims, out)?,
        _ => return Ok(None),
    };
    Ok(Some(same))
}
