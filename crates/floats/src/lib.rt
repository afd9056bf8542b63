// Grids of raw 32-bit floats, little-endian, north row first, with the header as a text beside them. RULES 11.
//
// Every header and every row of bytes gets an answer: no call has a `requires`. The floats are worked out from their bits, in whole
// numbers.
#![tactic(auto)]

mod cells;
mod rounding;

ghost use Rattle.std.specs.Prelude.{◌≡◌};
ghost use Rattle.text.specs.Answers.{grid_outcome_of};
ghost use Rattle.floats.specs.Answers.{floats_answer};

use text::{Header, Refusal};

// Reads the floats into the lent heights, by the header; a refusal leaves them as they were.
pub fn read_floats(header: &[u8], floats: &[u8], heights: &mut [i32]) -> Result<Header, Refusal>
    ensures { grid_outcome_of result heights.new
        ≡ floats_answer heights.old header.now floats.now }
{
    let h = text::read_lone_header(header)?;
    cells::read(floats, h, heights)
}
