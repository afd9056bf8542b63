// Directions that someone else drew: what the map call takes, what refusals 17 and 18 refuse, and that these leave the lent grids.
// Fields are drawn as those of `drawn`, codes are in row order. Each case was worked out by hand.
use crate::land::Land;
use crate::show::{MARK, MOST, Places, Room, write_map};
use factor::Source;
use std::io;

// A field that a picture shows, with given codes.
#[derive(Clone, Copy)]
pub(crate) struct Given<'a> {
    name: &'a str,
    rows: usize,
    columns: usize,
    picture: &'a [u8],
    codes: &'a [u8],
}

impl Given<'_> {
    pub(crate) fn show(self, rt: &impl Print) -> io::Result<()> {
        let mut heights = [0; MOST];
        let ground = &mut heights[..self.picture.len().min(MOST)];
        Land::Drawn(self.picture).shape(self.columns, ground);
        lend(rt, self.name, self.rows, self.columns, ground, self.codes)
    }
}

pub(crate) const SOUND: &[Given] = &[
    Given {
        name: "given: one cell that leaves the map",
        rows: 1,
        columns: 1,
        picture: b"5",
        codes: &[0],
    },
    Given {
        name: "given: no cell has data",
        rows: 1,
        columns: 3,
        picture: b"...",
        codes: &[255, 255, 255],
    },
    Given {
        name: "given: 0 on a rim cell with lower neighbours",
        rows: 1,
        columns: 4,
        picture: b"9875",
        codes: &[1, 0, 1, 0],
    },
    Given {
        name: "given: 0 inside the grid beside a NoData cell",
        rows: 3,
        columns: 3,
        picture: b".55\
        555\
        555",
        codes: &[255, 0, 0, 0, 0, 0, 0, 0, 0],
    },
];

// The pit's bottom points at higher ground, whose filled height is its own.
pub(crate) const SOUND_ON_FLATS: &[Given] = &[
    Given {
        name: "given: pit, not by its steepest ways",
        rows: 3,
        columns: 3,
        picture: b"555\
        524\
        555",
        codes: &[1, 4, 4, 0, 1, 0, 1, 64, 64],
    },
    Given {
        name: "given: pit with its own directions",
        rows: 3,
        columns: 3,
        picture: b"555\
        524\
        555",
        codes: &[2, 4, 4, 1, 1, 0, 128, 64, 64],
    },
    Given {
        name: "given: one trail over all cells of a flat",
        rows: 3,
        columns: 3,
        picture: b"555\
        555\
        555",
        codes: &[1, 1, 4, 4, 16, 16, 1, 1, 0],
    },
];

pub(crate) const BAD_CODES: &[Given] = &[
    Given {
        name: "given: 0 on a NoData cell",
        rows: 1,
        columns: 2,
        picture: b"5.",
        codes: &[0, 0],
    },
    Given {
        name: "given: 255 on a valid cell",
        rows: 1,
        columns: 3,
        picture: b"987",
        codes: &[1, 255, 0],
    },
    Given {
        name: "given: 3, which is no code",
        rows: 1,
        columns: 3,
        picture: b"987",
        codes: &[1, 3, 0],
    },
    Given {
        name: "given: 0 on a cell that is not on the rim",
        rows: 3,
        columns: 3,
        picture: b"555\
        555\
        555",
        codes: &[0, 0, 0, 0, 0, 0, 0, 0, 0],
    },
];

// In row order the cell after a row's end is the next row's first, which is no neighbour.
pub(crate) const BAD_WAYS: &[Given] = &[
    Given {
        name: "given: off the grid at a row's end",
        rows: 2,
        columns: 2,
        picture: b"55\
        55",
        codes: &[0, 1, 0, 0],
    },
    Given {
        name: "given: at a NoData cell",
        rows: 1,
        columns: 3,
        picture: b"5.4",
        codes: &[1, 255, 0],
    },
    Given {
        name: "given: to a higher cell",
        rows: 1,
        columns: 3,
        picture: b"789",
        codes: &[1, 0, 16],
    },
];

// The first in the order of the tests decides, and of one test the first cell.
pub(crate) const SEVERAL_FAULTS: &[Given] = &[
    Given {
        name: "given: a ring before two bad codes",
        rows: 2,
        columns: 3,
        picture: b"555\
        555",
        codes: &[1, 16, 0, 3, 128, 8],
    },
    Given {
        name: "given: four bad codes",
        rows: 1,
        columns: 5,
        picture: b"98.67",
        codes: &[0, 1, 4, 1, 255],
    },
];

pub(crate) const RINGS: &[Given] = &[
    Given {
        name: "given: a ring of two",
        rows: 1,
        columns: 4,
        picture: b"7777",
        codes: &[1, 16, 1, 0],
    },
    Given {
        name: "given: a way into a ring",
        rows: 1,
        columns: 5,
        picture: b"77777",
        codes: &[1, 1, 16, 16, 16],
    },
    Given {
        name: "given: two rings and a way into the second",
        rows: 2,
        columns: 4,
        picture: b"7777\
        7777",
        codes: &[4, 8, 1, 16, 1, 16, 16, 64],
    },
];

pub(crate) const RINGS_IN_HOLLOWS: &[Given] = &[
    Given {
        name: "given: a ring of eight round the centre of a flat",
        rows: 3,
        columns: 3,
        picture: b"777\
        777\
        777",
        codes: &[1, 1, 4, 64, 1, 4, 64, 16, 16],
    },
    Given {
        name: "given: a ring inside a filled pit",
        rows: 4,
        columns: 4,
        picture: b"9999\
        9139\
        9249\
        9998",
        codes: &[0, 0, 0, 0, 0, 1, 4, 0, 0, 64, 16, 0, 0, 0, 0, 0],
    },
];

// The one fault that no picture shows: a height out of range.
pub(crate) fn bad_height(rt: &impl Print) -> io::Result<()> {
    let name = "given: height 900001 after a bad code";
    lend(rt, name, 1, 2, &[500, 900001], &[3, 0])
}

// Maps a field with given codes and one place per height in every lent grid, and writes what the other fields have and whether the
// lent grids hold what was lent: the codes, and the mark in every other place.
fn lend(
    rt: &impl Print,
    name: &str,
    rows: usize,
    columns: usize,
    ground: &[i32],
    codes: &[u8],
) -> io::Result<()> {
    let mut room = Room::new();
    let mut grids = room.lend(Places::of(ground.len()));
    grids.give(codes);
    print!(rt; "{name} {rows} {columns}")?;
    write_map(rt, rows, columns, Source::Given, ground, &mut grids)?;
    let untouched = grids.filled.iter().all(|n| *n == i32::from(MARK))
        && *grids.direction == *codes
        && grids.count.iter().all(|n| *n == u32::from(MARK))
        && grids.lengths.iter().all(|n| *n == u64::from(MARK))
        && grids.factors.iter().all(|n| *n == u32::from(MARK));
    let became = if untouched { "untouched" } else { "changed" };
    println!(rt; "grids {became}")
}
