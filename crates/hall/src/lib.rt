// The built-in hall: small constant tables with document 01's figures, and a self-check that runs its proved cases through the public calls
// and compares what they give with the tables.
#![tactic(auto)]

mod calls;
mod cases;
mod same;
pub mod tables;

ghost use Rattle.std.specs.Prelude.{◌≡◌, true};

use cases::{case1, case2, case3, case4, case5, case6, case7, case8};

// Whether cases 1 to 8 come out as document 01 has them.
pub fn hall_ok() -> bool
    ensures { result ≡ true }
{
    case1() & case2() & case3() & case4() & case5() & case6() & case7() & case8()
}
