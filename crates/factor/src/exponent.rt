// The exponent of the length factor, by the list of slopes of Handbook 537:
//
//     5 percent or more     0.5
//     3.5 to 4.5 percent    0.4
//     1 to 3 percent        0.3
//     under 1 percent       0.2
//
// The list leaves out slopes from 3 to 3.5 and from 4.5 to 5 percent; by document 01 all above 3 and under 5 percent have 0.4. RULES 6.1.
ghost use Rattle.std.specs.Prelude.{◌≡◌};
ghost use Rattle.factor.specs.Exponent.{exponent_of};
ghost use Rattle.factor.specs.Inner.{Sloping};

use crate::slope::Slope;

// The exponent of a slope, in tenths.
pub(crate) fn exponent_of(slope: Slope) -> usize
    requires { Sloping slope.side slope.q }
    ensures { result ≡ exponent_of slope.side slope.q }
{
    if slope.is_at_least(5) {
        return 5;
    }
    if slope.is_above(3) {
        return 4;
    }
    if slope.is_at_least(1) {
        return 3;
    }
    2
}
