// Marquardt's damping of the normal equations: each diagonal value's own size, held between two limits, times lambda. So the damped step does
// not change when a parameter is rescaled, as it would with lambda alone on the diagonal. Rust's `clamp` panics on bad limits; here they are
// refusal 12.
#![tactic(auto, using(crate::proofs::DampingRules::damping))]

ghost use Rattle.std.specs.Prelude.{◌≡◌};
ghost use Rattle.columns.specs.Refusals.{told};
ghost use Rattle.blocks.specs.Damping.{identity_of, bad_damping, damping_told, clamped, term_of, termed, diagonal_term};

use columns::refusal::Refusal;

#[derive(Clone, Copy)]
pub struct Damping {
    pub lambda: f64,
    // the least and the most that a diagonal value counts for
    pub min: f64,
    pub max: f64,
}

impl Damping {
    // Plain `lambda · I`.
    pub fn identity(lambda: f64) -> Damping
        ensures { result ≡ identity_of lambda }
    {
        Damping {
            lambda,
            min: 1.0,
            max: 1.0,
        }
    }

    fn bad(self) -> bool
        ensures { result ≡ bad_damping self }
    {
        self.min.is_nan() || self.max.is_nan() || self.min > self.max
    }

    // Whether a value can be held between the limits.
    pub(crate) fn check(self) -> Result<(), Refusal>
        ensures { told result ≡ damping_told self }
    {
        if self.bad() {
            return Err(Refusal::BadDamping);
        }
        Ok(())
    }

    fn clamp(self, value: f64) -> f64
        ensures { result ≡ clamped self value }
    {
        if value < self.min {
            return self.min;
        }
        if value > self.max {
            return self.max;
        }
        value
    }

    // The term, of damping that is checked already.
    pub(crate) fn term(self, value: f64) -> f64
        ensures { result ≡ term_of self value }
    {
        self.lambda * self.clamp(value)
    }

    // What damping adds to a diagonal value.
    pub fn diagonal_term(self, value: f64) -> Result<f64, Refusal>
        ensures { termed result ≡ diagonal_term self value }
    {
        self.check()?;
        Ok(self.term(value))
    }
}
