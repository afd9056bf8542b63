// Writes what a call of `writer` answers for one grid: its name, then number, place and the text's length, then the room's length
// and all of its bytes, up to a bar.
ghost use Rattle.std.specs.Prelude.{◌≤◌};

use std::io;
use text::Refusal;

// What every byte of a room is beforehand, a tilde, so that what is not written shows.
const MARK: u8 = b'~';

// What a call is given: a room of so many bytes, and all of the grid but its cells.
#[derive(Clone, Copy)]
pub(crate) struct Given<'a> {
    pub(crate) bytes: usize,
    pub(crate) rows: usize,
    pub(crate) columns: usize,
    pub(crate) side: u32,
    pub(crate) x: &'a [u8],
    pub(crate) y: &'a [u8],
}

// A grid of 1 by 2 that is accepted, in a room that is long enough.
pub(crate) const GOOD: Given<'static> = Given {
    bytes: 100,
    rows: 1,
    columns: 2,
    side: 1000,
    x: b"0",
    y: b"0",
};

// The cells of a grid, of one of the kinds for which there is a call.
#[derive(Clone, Copy)]
pub(crate) enum Cells<'a> {
    Heights(&'a [i32]),
    Counts(&'a [u32]),
    Factors(&'a [u32]),
    Directions(&'a [u8]),
}

pub(crate) fn case(rt: &impl Print, name: &str, given: Given, cells: Cells) -> io::Result<()>
    requires { given.bytes ≤ 160 }
{
    println!(rt; "{name}")?;
    answer(rt, given, cells)
}

// What stands behind the name.
pub(crate) fn answer(rt: &impl Print, given: Given, cells: Cells) -> io::Result<()>
    requires { given.bytes ≤ 160 }
{
    let mut bytes = [MARK; 160];
    let room = &mut bytes[..given.bytes];
    match write(given, cells, room) {
        Ok(length) => print!(rt; "answer 0 0 {length}")?,
        Err(refusal) => print!(rt; "answer {} {} 0", refusal.fault.number(), refusal.place)?,
    }
    println!(rt; ", room of {}", room.len())?;
    // By `write_all`, since a room is bytes, and `print!` takes text.
    rt.write_all(room)?;
    println!(rt; "|")
}

// The call for the kind of the cells.
fn write(given: Given, cells: Cells, room: &mut [u8]) -> Result<usize, Refusal> {
    let Given {
        bytes: _,
        rows,
        columns,
        side,
        x,
        y,
    } = given;
    match cells {
        Cells::Heights(heights) => writer::write_heights(rows, columns, side, x, y, heights, room),
        Cells::Counts(counts) => writer::write_counts(rows, columns, side, x, y, counts, room),
        Cells::Factors(factors) => writer::write_factors(rows, columns, side, x, y, factors, room),
        Cells::Directions(codes) => writer::write_directions(
            rows, columns, side, x, y, codes, room,
        ),
    }
}
