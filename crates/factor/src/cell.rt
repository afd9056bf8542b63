// The LS factor of one cell, by Handbook 537 and the chosen steepness formula. RULES 6.
ghost use Rattle.std.specs.Prelude.{◌≡◌};
ghost use Rattle.factor.specs.Cell.{factor_of};
ghost use Rattle.factor.specs.Inner.{Measured};

use crate::exponent::exponent_of;
use crate::guess::{Guesses, length_factor};
use crate::slope::Slope;
use crate::steepness::steepness_factor;
use crate::thresholds::Lists;
use settings::Formula;

// The greatest length in mm that has a factor.
const GREATEST_MM: u64 = 304800;

// What a longer one has in its place.
pub const TOO_LONG: u32 = 4294967294;

// LS in hundred-thousandths, for a valid cell of this fall and steepness q, by the lists of `thresholds`.
pub(crate) fn factor_of(
    formula: Formula,
    side: u32,
    q: u64,
    length: u64,
    fall: u32,
    lists: &Lists,
    guesses: &mut Guesses,
) -> u32
    requires { Measured side q length lists.now }
    ensures { result ≡ factor_of formula side q length }
{
    let mm = length * u64::from(side) / 1000;
    if GREATEST_MM < mm {
        return TOO_LONG;
    }
    let class = exponent_of(Slope { side, q }) - 2;
    let t = length_factor(class, mm as u32, lists, guesses) as u64;
    (t * steepness_factor(formula, side, q, fall, guesses)) as u32
}
