// The ranges of rows, columns, cell side and heights, tested for every call that takes them as numbers. RULES 1.
ghost use Rattle.std.specs.Prelude.{◌≡◌, length};
ghost use Rattle.text.specs.Ranges.{size_accepted, side_accepted, height_accepted, bad_cell};

use crate::NO_DATA;

// Whether a number of rows or columns is accepted.
pub fn is_size(n: usize) -> bool
    ensures { result ≡ size_accepted n }
{
    (1..=1024).contains(&n)
}

// Whether a cell side, in cm, is accepted.
pub fn is_side(side: u32) -> bool
    ensures { result ≡ side_accepted side }
{
    (1..=100000).contains(&side)
}

// Whether a height, in cm, is accepted.
pub fn is_height(h: i32) -> bool
    ensures { result ≡ height_accepted h }
{
    h == NO_DATA || (-50000..=900000).contains(&h)
}

// The first cell whose height is not accepted, if there is one. A loop and not `position`: that its closure makes the test of the
// definition, of a signed number, the check did not find.
pub fn first_bad(heights: &[i32]) -> Option<usize>
    ensures { result ≡ bad_cell (length heights.now) heights.now }
{
    for (x, h) in heights.iter().enumerate() {
        if !is_height(*h) {
            return Some(x);
        }
    }
    None
}
