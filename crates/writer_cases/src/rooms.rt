// One grid of each kind, 2 by 3, in a room that is longer than its text, as long, and one byte short; and what `writer::room` gives.
ghost use Rattle.std.specs.Prelude.{◌≤◌};

use crate::show::{Cells, GOOD, Given, answer};
use std::io;
use text::NO_DATA;

// Of LS: NoData, too long, and the greatest that is neither, among others. Of directions: off the map, NoData, the least and the
// greatest code, and a byte that is no code, among others.
pub(crate) fn kinds(rt: &impl Print) -> io::Result<()> {
    let heights = Cells::Heights(&[-5, 0, NO_DATA, 900000, -50000, 5]);
    let counts = Cells::Counts(&[0, 1, 12, 1048576, 4294967295, 9]);
    let factors = Cells::Factors(&[0, 4810, 4294967295, 4294967294, 4294967293, 100000]);
    let directions = Cells::Directions(&[0, 1, 255, 128, 64, 200]);
    rooms(rt, "heights", 121, heights)?;
    rooms(rt, "counts", 115, counts)?;
    rooms(rt, "LS", 131, factors)?;
    rooms(rt, "directions", 104, directions)
}

// A grid whose text has so many bytes.
fn rooms(rt: &impl Print, kind: &str, length: usize, cells: Cells) -> io::Result<()>
    requires above { 1 ≤ length }
    requires below { length ≤ 157 }
{
    let given = Given {
        bytes: length,
        rows: 2,
        columns: 3,
        x: b"-12.500000",
        ..GOOD
    };
    println!(rt; "{kind}, room 3 bytes longer than the text")?;
    answer(
        rt,
        Given {
            bytes: length + 3,
            ..given
        },
        cells,
    )?;
    println!(rt; "{kind}, room as long as the text")?;
    answer(rt, given, cells)?;
    println!(rt; "{kind}, room one byte short")?;
    answer(
        rt,
        Given {
            bytes: length - 1,
            ..given
        },
        cells,
    )
}

pub(crate) fn for_shapes(rt: &impl Print) -> io::Result<()> {
    for_shape(rt, 2, 3)?;
    for_shape(rt, 1024, 1024)?;
    for_shape(rt, 0, 5)
}

fn for_shape(rt: &impl Print, rows: usize, columns: usize) -> io::Result<()> {
    println!(rt; "room {rows} {columns}: {}", writer::room(rows, columns))
}
