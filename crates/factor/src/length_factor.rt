// The length factor, looked up in the row of its exponent.
ghost use Rattle.std.specs.Prelude.{◌≡◌, ◌+◌, ◌<◌};
ghost use Rattle.factor.specs.LengthFactor.{reached, length_factor};
ghost use Rattle.factor.specs.Inner.{Looked};

use crate::search::moved_if;
use crate::thresholds::{Lists, WIDTH};

// Whether a length in mm reaches t, for a class of slopes.
pub(crate) fn length_reaches(class: usize, mm: u32, lists: &Lists, t: usize) -> bool
    requires { Looked class mm lists.now × (t < 373) }
    ensures { result ≡ reached (class + 2) mm t }
{
    lists[WIDTH * class + t] <= mm
}

// L in hundredths, for a class of slopes and a length in mm, by halves. `sine_by_halves` goes alike: one search for both would take the
// test as a closure and the laws of its answers, and be longer than the two.
pub(crate) fn length_factor_by_halves(class: usize, mm: u32, lists: &Lists) -> usize
    requires { Looked class mm lists.now }
    ensures { result ≡ length_factor (class + 2) mm }
{
    let mut t: usize = 0;
    let mut left = WIDTH - 1;
    while 1 < left {
        let half = left / 2;
        t = moved_if(length_reaches(class, mm, lists, t + half), t, half);
        left -= half;
    }
    t
}
