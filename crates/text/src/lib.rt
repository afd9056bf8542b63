// The text layer: an Esri ASCII grid is read into heights in cm, or refused. RULES 2.
//
// Every text gets an answer: no call has a `requires`. The modules follow docs/RULES.md: words, numbers, the header, the heights. The
// ranges are tested here for the calls of the layers above too.
#![tactic(auto)]

mod faults;
mod headers;
mod heights;
mod numbers;
mod ranges;
mod words;

ghost use Rattle.std.specs.Prelude.{◌≡◌};
ghost use Rattle.text.specs.Answers.{outcome_of, head_outcome_of, corners_of, grid_outcome_of, header_answer, corners_answer, lone_header_answer, grid_answer};

pub use faults::Fault;
pub use numbers::is_number;
pub use ranges::{first_bad, is_height, is_side, is_size};
use words::Cursor;

// RULES 1: a NoData cell's height, in cm.
pub const NO_DATA: i32 = -999900;

// RULES 3: the fault and the place.
#[derive(Clone, Copy, PartialEq, Eq)]
pub struct Refusal {
    pub fault: Fault,
    pub place: usize,
}

// What the header says; the side and the NoData number are in cm.
#[derive(Clone, Copy)]
pub struct Header {
    pub rows: usize,
    pub columns: usize,
    pub side: u32,
    pub no_data: i64,
}

// Where a word stands: its first byte and its length.
#[derive(Clone, Copy)]
pub struct Span {
    pub first: usize,
    pub length: usize,
}

// Where the words of the two corner numbers stand.
#[derive(Clone, Copy)]
pub struct Corners {
    pub x: Span,
    pub y: Span,
}

// What the header call answers.
#[derive(Clone, Copy)]
pub struct Head {
    pub header: Header,
    pub corners: Corners,
}

// Reads the header alone, and judges nothing after it.
#[tactic(auto, unfolding(crate::specs::Headers::header))]
pub fn read_header(text: &[u8]) -> Result<Head, Refusal>
    ensures answers { head_outcome_of result ≡ header_answer text.now }
    ensures corners { corners_of result ≡ corners_answer text.now }
{
    let head = headers::read(text, Cursor { at: 0 })?;
    Ok(head.value)
}

// Reads a header that stands alone in its text, so that no word may follow it.
#[tactic(auto, using(crate::proofs::InnerGrids::of_lone_header))]
pub fn read_lone_header(text: &[u8]) -> Result<Header, Refusal>
    ensures { outcome_of result ≡ lone_header_answer text.now }
{
    let head = headers::read(text, Cursor { at: 0 })?;
    heights::judge_end(text, head.rest)?;
    Ok(head.value.header)
}

// Reads the whole text into the lent heights; a refusal leaves them as they were.
#[tactic(auto, using(crate::proofs::InnerGrids::of_grid))]
pub fn read_grid(text: &[u8], heights: &mut [i32]) -> Result<Header, Refusal>
    ensures { grid_outcome_of result heights.new ≡ grid_answer heights.old text.now }
{
    let head = headers::read(text, Cursor { at: 0 })?;
    heights::read(text, head.rest, head.value.header, heights)
}
