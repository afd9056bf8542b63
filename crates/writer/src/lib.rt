// The writer: grids as text, in the form of the text that was read. RULES 10.
//
// Every grid gets an answer, the text's length or a refusal: no call has a `requires`. A call judges everything, the room too, before it
// writes the first byte.
#![tactic(auto)]

mod cells;
mod header;
mod judge;
mod words;

ghost use Rattle.std.specs.Prelude.{◌≡◌, length};
ghost use Rattle.laws.specs.Tests.{passed, verdict};
ghost use Rattle.writer.specs.Text.{frame};
ghost use Rattle.writer.specs.Answers.{height_cells, count_cells, factor_cells, direction_cells, frame_tests, answer, after};
ghost use Rattle.writer.specs.Rooms.{room_for, Holds};
ghost use Rattle.writer.specs.InnerFrame.{frame_of};
ghost use Rattle.writer.specs.InnerCells.{good_cells};

use header::Frame;
use text::{Fault, Refusal};
use words::{Counts, Directions, Factors, Heights, Word};

// Writes a grid whose header is good, and whose cells are.
fn put_text<W: Word>(frame: Frame, cells: &[W::Cell], room: &mut [u8]) -> Result<usize, Refusal>
    requires { verdict (frame_tests (frame_of frame) (length cells.now)) ≡ passed }
    ensures answers { result ≡ answer (frame_of frame.entry) (good_cells W.word cells.now) room.old }
    ensures leaves { room.new ≡ after (frame_of frame.entry) (good_cells W.word cells.now) room.old }
{
    let length = frame.length() + cells::length::<W>(cells);
    if room.len() < length {
        return Err(Refusal {
            fault: Fault::Room,
            place: 0,
        });
    }
    let next = frame.put(room);
    cells::put::<W>(room, next, frame.columns, cells);
    Ok(length)
}

// Writes a grid of cells of which any is good.
fn write<W: Word>(frame: Frame, cells: &[W::Cell], room: &mut [u8]) -> Result<usize, Refusal>
    ensures answers { result ≡ answer (frame_of frame.entry) (good_cells W.word cells.now) room.old }
    ensures leaves { room.new ≡ after (frame_of frame.entry) (good_cells W.word cells.now) room.old }
{
    frame.judge(cells.len())?;
    put_text::<W>(frame, cells, room)
}

// Writes heights in cm, ground or filled, into the lent room. This call and the three below take no Frame: what they promise is of
// these parameters.
pub fn write_heights(
    rows: usize,
    columns: usize,
    side: u32,
    x: &[u8],
    y: &[u8],
    heights: &[i32],
    room: &mut [u8],
) -> Result<usize, Refusal>
    ensures answers { result ≡ answer (frame rows columns side x.now y.now)
        (height_cells (frame rows columns side x.now y.now) heights.now) room.old }
    ensures leaves { room.new ≡ after (frame rows columns side x.now y.now)
        (height_cells (frame rows columns side x.now y.now) heights.now) room.old }
{
    let frame = Frame {
        rows,
        columns,
        side,
        x,
        y,
    };
    frame.judge(heights.len())?;
    if let Some(place) = text::first_bad(heights) {
        return Err(Refusal {
            fault: Fault::Height,
            place,
        });
    }
    put_text::<Heights>(frame, heights, room)
}

// Writes flow counts into the lent room.
#[tactic(auto, unfolding(crate::specs::Answers::count_cells, crate::specs::Answers::number_cells))]
pub fn write_counts(
    rows: usize,
    columns: usize,
    side: u32,
    x: &[u8],
    y: &[u8],
    counts: &[u32],
    room: &mut [u8],
) -> Result<usize, Refusal>
    ensures answers { result ≡ answer (frame rows columns side x.now y.now)
        (count_cells counts.now) room.old }
    ensures leaves { room.new ≡ after (frame rows columns side x.now y.now)
        (count_cells counts.now) room.old }
{
    let frame = Frame {
        rows,
        columns,
        side,
        x,
        y,
    };
    write::<Counts>(frame, counts, room)
}

// Writes LS, in hundred-thousandths, into the lent room.
#[tactic(auto, unfolding(crate::specs::Answers::factor_cells, crate::specs::Answers::number_cells))]
pub fn write_factors(
    rows: usize,
    columns: usize,
    side: u32,
    x: &[u8],
    y: &[u8],
    factors: &[u32],
    room: &mut [u8],
) -> Result<usize, Refusal>
    ensures answers { result ≡ answer (frame rows columns side x.now y.now)
        (factor_cells factors.now) room.old }
    ensures leaves { room.new ≡ after (frame rows columns side x.now y.now)
        (factor_cells factors.now) room.old }
{
    let frame = Frame {
        rows,
        columns,
        side,
        x,
        y,
    };
    write::<Factors>(frame, factors, room)
}

// Writes directions, as their codes, into the lent room.
#[tactic(auto, unfolding(crate::specs::Answers::direction_cells, crate::specs::Answers::number_cells))]
pub fn write_directions(
    rows: usize,
    columns: usize,
    side: u32,
    x: &[u8],
    y: &[u8],
    directions: &[u8],
    room: &mut [u8],
) -> Result<usize, Refusal>
    ensures answers { result ≡ answer (frame rows columns side x.now y.now)
        (direction_cells directions.now) room.old }
    ensures leaves { room.new ≡ after (frame rows columns side x.now y.now)
        (direction_cells directions.now) room.old }
{
    let frame = Frame {
        rows,
        columns,
        side,
        x,
        y,
    };
    write::<Directions>(frame, directions, room)
}

// How many bytes a room needs for any text of a shape; 0 for a shape that is refused, as `room_for` says, and not an Option.
pub fn room(rows: usize, columns: usize) -> usize
    ensures is { result ≡ room_for rows columns }
    ensures holds { Holds rows columns result }
{
    if !text::is_size(rows) {
        return 0;
    }
    if !text::is_size(columns) {
        return 0;
    }
    114 + 12 * (rows * columns)
}
