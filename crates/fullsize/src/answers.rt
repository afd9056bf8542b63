// An answer handed out: each number of it goes to its own place, and the number of the refusal is the result.
ghost use Rattle.std.specs.Prelude.{◌≡◌};
ghost use Rattle.text.specs.Answers.{outcome_of, corners_of};
ghost use Rattle.factor.specs.Answers.{told};
ghost use Rattle.writer.specs.Answers as W;
ghost use Rattle.fullsize.specs.Lent.{reading_after, corners_after, mapping_after, writing_after};

use factor::Summary;
use text::{Head, Header, Refusal};

// Hands out the answer of a reading.
pub(crate) fn hand_out_reading(
    answer: Result<Header, Refusal>,
    place: &mut usize,
    rows: &mut usize,
    columns: &mut usize,
    side: &mut u32,
    no_data: &mut i64,
) -> u32
    ensures { reading_after result place rows columns side no_data ≡ outcome_of answer }
{
    match answer {
        Ok(header) => {
            *place = 0;
            *rows = header.rows;
            *columns = header.columns;
            *side = header.side;
            *no_data = header.no_data;
            0
        }
        Err(refusal) => {
            *place = refusal.place;
            *rows = 0;
            *columns = 0;
            *side = 0;
            *no_data = 0;
            refusal.fault.number()
        }
    }
}

// Hands out where the corner words stand, zeros at a refusal.
pub(crate) fn hand_out_corners(
    answer: Result<Head, Refusal>,
    x_first: &mut usize,
    x_length: &mut usize,
    y_first: &mut usize,
    y_length: &mut usize,
)
    ensures { corners_after x_first x_length y_first y_length ≡ corners_of answer }
{
    match answer {
        Ok(head) => {
            *x_first = head.corners.x.first;
            *x_length = head.corners.x.length;
            *y_first = head.corners.y.first;
            *y_length = head.corners.y.length;
        }
        Err(_) => {
            *x_first = 0;
            *x_length = 0;
            *y_first = 0;
            *y_length = 0;
        }
    }
}

// Hands out the answer of a map call.
pub(crate) fn hand_out_mapping(
    answer: Result<Summary, Refusal>,
    place: &mut usize,
    valid: &mut u32,
    longest: &mut u32,
) -> u32
    ensures { mapping_after result place valid longest ≡ told answer }
{
    match answer {
        Ok(summary) => {
            *place = 0;
            *valid = summary.valid;
            *longest = summary.longest;
            0
        }
        Err(refusal) => {
            *place = refusal.place;
            *valid = 0;
            *longest = 0;
            refusal.fault.number()
        }
    }
}

// Hands out the answer of a call that writes a text.
pub(crate) fn hand_out_writing(
    answer: Result<usize, Refusal>,
    place: &mut usize,
    length: &mut usize,
) -> u32
    ensures { writing_after result place length ≡ W.told answer }
{
    match answer {
        Ok(bytes) => {
            *place = 0;
            *length = bytes;
            0
        }
        Err(refusal) => {
            *place = refusal.place;
            *length = 0;
            refusal.fault.number()
        }
    }
}
