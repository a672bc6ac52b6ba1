// Which side a call is for. What the two sides have in common is done once, by the same code, over the side.
ghost use Rattle.std.specs.Prelude.{◌≡◌, not};
ghost use Rattle.blocks.specs.Sides.{side_of};
ghost use Rattle.products.specs.Orders.{sign_of};
ghost use Rattle.products.specs.Side.{eliminated};

use blocks::sides::Sides;
pub use columns::refusal::Side;
use columns::unchecked::Sign;

// The one of the two that a call is for.
pub(crate) fn chosen<'a>(side: Side, sides: Sides<'a>) -> &'a [u32]
    ensures { result.now ≡ side_of (eliminated side) sides.entry.kept.now sides.entry.elims.now }
{
    match side {
        Side::Kept => sides.kept,
        Side::Eliminated => sides.elims,
    }
}

// The other one.
pub(crate) fn other(side: Side) -> Side
    ensures { eliminated result ≡ not (eliminated side) }
{
    match side {
        Side::Kept => Side::Eliminated,
        Side::Eliminated => Side::Kept,
    }
}

// The kept side adds to the rows, the eliminated one subtracts.
pub(crate) fn side_sign(side: Side) -> Sign
    ensures { result ≡ sign_of (eliminated side) }
{
    match side {
        Side::Kept => Sign::Plus,
        Side::Eliminated => Sign::Minus,
    }
}
