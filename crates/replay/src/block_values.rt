// The calls that take columns and both sides: the map that is lent, the answer and the map after the call, and then what is the call's own.
use crate::lists::{floats, room, same, same_u32};
use blocks::check::check_blocks;
use blocks::damping::Damping;
use blocks::eliminated_blocks::{damp, gather_from_jacobian};
use blocks::sides::Sides;
use columns::lent::Columns;
use columns::refusal::Refusal;
use std::alloc::{AllocError, Global};

// What a case expects: the answer, 0 or a refusal's number and its value, and the map after the call.
#[derive(Clone, Copy)]
pub(crate) struct Expected<'a> {
    pub answer: &'a [u64],
    pub map: &'a [u64],
}

impl Expected<'_> {
    // Whether a call answered so, and left this map.
    fn is(self, answer: Result<(), Refusal>, map: &[u32]) -> bool {
        let told = match answer {
            Ok(()) => self.answer.first() == Some(&0),
            Err(r) => {
                let values = r.values();
                values.count == 1
                    && self.answer == [u64::from(r.number()), values.first as u64].as_slice()
            }
        };
        told && same_u32(map, self.map)
    }
}

// `check_blocks`, done or refused.
pub(crate) fn same_check(
    columns: Columns,
    sides: Sides,
    map: &mut [u32],
    expected: Expected,
) -> bool {
    let answer = check_blocks(columns, sides, map);
    expected.is(answer, map)
}

// The block values.
pub(crate) fn same_gather(
    alloc: Global,
    columns: Columns,
    sides: Sides,
    map: &mut [u32],
    expected: Expected,
    out: &[u64],
) -> Result<bool, AllocError> {
    let mut got = room(alloc, out)?;
    let answer = gather_from_jacobian(columns, sides, map, &mut got);
    Ok(expected.is(answer, map) && same(&got, out))
}

// The block values after the call and before, and the damping.
pub(crate) fn same_damp(
    alloc: Global,
    columns: Columns,
    sides: Sides,
    map: &mut [u32],
    expected: Expected,
    after: &[u64],
    before: &[u64],
    damping: Damping,
) -> Result<bool, AllocError> {
    let mut got = floats(alloc, before)?;
    let answer = damp(columns, sides, map, damping, &mut got);
    Ok(expected.is(answer, map) && same(&got, after))
}
