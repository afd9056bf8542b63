// The steepness factor S, by the older formula of Handbook 537 or the newer one of Handbook 703 (RUSLE):
//
//     older                            65.41·sin² + 4.56·sin + 0.065
//     newer, below nine percent        10.8·sin + 0.03
//     newer, from nine percent on      16.8·sin - 0.5
//
// Sines and S are in thousandths. RULES 6.3.
ghost use Rattle.std.specs.Prelude.{◌≡◌, true, ◌≤◌};
ghost use Rattle.factor.specs.Steepness.{older_factor, newer_factor, steepness_factor};
ghost use Rattle.factor.specs.Inner.{Sloping};

use crate::guess::{Guesses, sine_of};
use crate::slope::Slope;
use settings::Formula;

// S by the older formula.
fn older_factor(u: u64) -> u64
    requires { u ≤ 1000 }
    ensures { result ≡ older_factor u }
{
    (65410 * (u * u) + 4560000 * u + 65000000) / 1000000
}

// S by the newer formula, for a slope of nine percent or more, or below.
fn newer_factor(steep: bool, u: u64) -> u64
    requires { (u ≤ 1000) × (steep ≡ true → 89 ≤ u) }
    ensures { result ≡ newer_factor steep u }
{
    if steep {
        return (16800 * u - 500000) / 1000;
    }
    (10800 * u + 30000) / 1000
}

// S by the chosen formula, for a cell of this fall and steepness q.
pub(crate) fn steepness_factor(
    formula: Formula,
    side: u32,
    q: u64,
    fall: u32,
    guesses: &mut Guesses,
) -> u64
    requires { Sloping side q }
    ensures { result ≡ steepness_factor formula side q }
{
    let u = sine_of(side, q, fall, guesses) as u64;
    match formula {
        Formula::Older => older_factor(u),
        Formula::Newer => {
            let steep = Slope { side, q }.is_at_least(9);
            // A sine of 0 counts as 1.
            newer_factor(steep, u.max(1))
        }
    }
}
