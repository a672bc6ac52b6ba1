// `diagonal_term` and `Damping::identity`.
use crate::lists::same;
use blocks::damping::Damping;
use std::num::{f64_from_bits_with_nan, f64_to_bits_with_nan};

// A damping of lambda and the limits.
pub(crate) fn damping_of(lambda: u64, min: u64, max: u64) -> Damping {
    Damping {
        lambda: f64_from_bits_with_nan(lambda),
        min: f64_from_bits_with_nan(min),
        max: f64_from_bits_with_nan(max),
    }
}

// Whether a value's term is the expected one.
fn same_term(damping: Damping, value: u64, term: u64) -> bool {
    damping
        .diagonal_term(f64_from_bits_with_nan(value))
        .is_ok_and(|x| f64_to_bits_with_nan(x) == term)
}

// The values and their terms.
pub(crate) fn same_terms(damping: Damping, values: &[u64], terms: &[u64]) -> bool {
    values
        .iter()
        .zip(terms)
        .all(|(value, term)| same_term(damping, *value, *term))
}

// Lambda and the damping.
pub(crate) fn same_identity(lambda: u64, damping: &[u64]) -> bool {
    let d = Damping::identity(f64_from_bits_with_nan(lambda));
    same(&[d.lambda, d.min, d.max], damping)
}
