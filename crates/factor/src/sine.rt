// The sine of a slope, which the steepness factor of Handbook 537 goes by.
ghost use Rattle.std.specs.Prelude.{◌≡◌, ◌≤◌};
ghost use Rattle.factor.specs.Steepness.{sine_reaches, sine_of};
ghost use Rattle.factor.specs.Inner.{Sloping};

use crate::search::moved_if;

// Whether the sine of a cell of steepness q reaches u thousandths.
pub(crate) fn sine_reaches(side: u32, q: u64, u: usize) -> bool
    requires { Sloping side q × (u ≤ 1025) }
    ensures { result ≡ sine_reaches side q u }
{
    let n = u as u64;
    let c = u64::from(side);
    n * n * (q + 2 * (c * c)) <= 1000000 * q
}

// The sine in thousandths, for a cell of steepness q, by halves.
pub(crate) fn sine_by_halves(side: u32, q: u64) -> usize
    requires { Sloping side q }
    ensures { result ≡ sine_of side q }
{
    let mut u: usize = 0;
    let mut left: usize = 1024;
    while 1 < left {
        let half = left / 2;
        u = moved_if(sine_reaches(side, q, u + half), u, half);
        left -= half;
    }
    u
}
