ghost use Rattle.std.specs.Prelude.{◌≡◌, ◌*ℤ◌, ◌≢◌, pos, int_div};
ghost use Rattle.sp_selector.specs.Values.{bounded, product, quotient};

use crate::datum::Datum;
use sp_message::value::Fixed;

/// How many millionths make one.
pub(crate) const MILLION: i128 = 1_000_000;

/// The product of two numbers, cut toward zero, or no value where it is too large.
pub(crate) fn product(x: Fixed, y: Fixed) -> Datum<'static>
    ensures { result ≡ product x y }
{
    match x.millionths().checked_mul(y.millionths()) {
        Some(z) => bounded(z / MILLION),
        None => Datum::Null,
    }
}

/// The quotient, cut toward zero, or no value where it is too large or the divisor is zero.
#[tactic(auto, using(crate::proofs::Numbers::quotient_by_some))]
pub(crate) fn quotient(x: Fixed, y: Fixed) -> Datum<'static>
    ensures { result ≡ quotient x y }
{
    if y.millionths() == 0 {
        return Datum::Null;
    }
    bounded(divided(x, y))
}

fn divided(x: Fixed, y: Fixed) -> i128
    requires { y ≢ pos 0 }
    ensures { result ≡ int_div (x *ℤ pos 1000000) y }
{
    x.millionths() * MILLION / y.millionths()
}

/// The number of so many millionths, or no value where it is too large.
pub(crate) fn bounded(millionths: i128) -> Datum<'static>
    ensures { result ≡ bounded millionths }
{
    match Fixed::new(millionths) {
        Some(number) => Datum::Number(number),
        None => Datum::Null,
    }
}
