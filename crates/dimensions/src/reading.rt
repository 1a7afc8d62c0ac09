//! Reading a decimal fraction of a point.
ghost use Rattle.std.specs.Prelude.{◌≡◌};
ghost use Rattle.dimensions.specs.Fractions.{nearest, capped};

use crate::POINT;

/// The scaled points nearest to the fraction with these digits, ties upward. A digit above 9 counts as 9.
pub fn round_decimals(digits: &[u8]) -> u32
    ensures { result ≡ nearest (capped digits.now) }
{
    let mut a = 0;
    for &digit in digits.iter().rev() {
        a = (a + u32::from(digit.min(9)) * (2 * POINT)) / 10;
    }
    (a + 1) / 2
}
