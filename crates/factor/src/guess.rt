// Guesses that are checked. A table remembers the last answers, each at a slot for lengths, or for falls, of about one size. Whatever
// it holds the answers are right: the check decides, and the guess only saves the search.
ghost use Rattle.std.specs.Prelude.{◌≡◌, true, ◌+◌, ◌≤◌, ◌<◌};
ghost use Rattle.factor.specs.LengthFactor.{greatest_mm, length_factor};
ghost use Rattle.factor.specs.Steepness.{sine_of};
ghost use Rattle.factor.specs.Inner.{Looked, Sloping};

use crate::length_factor::{length_factor_by_halves, length_reaches};
use crate::search::moved_if;
use crate::sine::{sine_by_halves, sine_reaches};
use crate::thresholds::{Lists, WIDTH};

// The table: 1,415 slots for the lengths of each class of slopes, then 2,048 for falls.
pub(crate) type Guesses = [u16; 7708];

// The slot of a length: slots are 32 mm wide below 8,192 mm, and 256 mm above, so that few have two thresholds.
fn length_slot(class: usize, mm: u32) -> usize
    requires { (class < 4) × (mm ≤ greatest_mm) }
    ensures { result < 5660 }
{
    if mm < 8192 {
        return 1415 * class + (mm / 32) as usize;
    }
    1415 * class + (mm / 256) as usize + 224
}

// The slot of a fall, behind those of the lengths: one for each below 1,024, 64 wide above, and one for all great falls.
fn fall_slot(fall: u32) -> usize
    ensures { result < 7708 }
{
    if fall < 1024 {
        return 5660 + fall as usize;
    }
    if fall < 65472 {
        return 6684 + (fall / 64) as usize;
    }
    7707
}

// Whether t is the length factor of a class of slopes and a length in mm.
fn is_length_factor(class: usize, mm: u32, lists: &Lists, t: usize) -> bool
    requires { Looked class mm lists.now × (t < 372) }
    ensures { result ≡ true → t ≡ length_factor (class + 2) mm }
{
    length_reaches(class, mm, lists, t) & !length_reaches(class, mm, lists, t + 1)
}

// Whether u thousandths are the sine of a cell of steepness q.
fn is_sine(side: u32, q: u64, u: usize) -> bool
    requires { Sloping side q × (u ≤ 1024) }
    ensures { result ≡ true → u ≡ sine_of side q }
{
    sine_reaches(side, q, u) & !sine_reaches(side, q, u + 1)
}

// The two look-ups are alike: one for both would need a trait with the laws of either test, and be longer than the two.
//
// L in hundredths, for a class of slopes and a length in mm: the slot's guess or the next t, if one of them is right.
pub(crate) fn length_factor(class: usize, mm: u32, lists: &Lists, guesses: &mut Guesses) -> usize
    requires { Looked class mm lists.now }
    ensures { result ≡ length_factor (class + 2) mm }
{
    let slot = length_slot(class, mm);
    let guess = usize::from(guesses[slot]);
    if guess < WIDTH - 2 {
        let t = moved_if(length_reaches(class, mm, lists, guess + 1), guess, 1);
        if is_length_factor(class, mm, lists, t) {
            return t;
        }
    }
    let t = length_factor_by_halves(class, mm, lists);
    guesses[slot] = t as u16;
    t
}

// The sine in thousandths, for a cell of this fall and steepness q: the slot's guess or the next u, if one of them is right.
pub(crate) fn sine_of(side: u32, q: u64, fall: u32, guesses: &mut Guesses) -> usize
    requires { Sloping side q }
    ensures { result ≡ sine_of side q }
{
    let slot = fall_slot(fall);
    let guess = usize::from(guesses[slot]);
    if guess < 1024 {
        let u = moved_if(sine_reaches(side, q, guess + 1), guess, 1);
        if is_sine(side, q, u) {
            return u;
        }
    }
    let u = sine_by_halves(side, q);
    guesses[slot] = u as u16;
    u
}
