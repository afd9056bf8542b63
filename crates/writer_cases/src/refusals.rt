// The refusals 1, 2, 3, 7, 5 and 13 of a write call, which are tested in that order. But for what a name says, each grid is 1 by 2
// with cells of 10 m and corners 0, in a room of 100 bytes, and accepted, `GOOD`: the first case is that grid.
use crate::show::{Cells, GOOD, Given, case};
use std::io;
use text::NO_DATA;

pub(crate) fn alone(rt: &impl Print) -> io::Result<()> {
    case(rt, "heights, 1 by 2", GOOD, Cells::Heights(&[100, 200]))?;
    sizes(rt)?;
    lengths(rt)?;
    sides(rt)?;
    corners(rt)?;
    out_of_range(rt)?;
    case(
        rt,
        "counts, no room",
        Given { bytes: 0, ..GOOD },
        Cells::Counts(&[100, 200]),
    )?;
    case(
        rt,
        "directions, no room",
        Given { bytes: 0, ..GOOD },
        Cells::Directions(&[4, 255]),
    )
}

fn sizes(rt: &impl Print) -> io::Result<()> {
    case(
        rt,
        "heights, rows 0",
        Given { rows: 0, ..GOOD },
        Cells::Heights(&[]),
    )?;
    case(
        rt,
        "counts, columns 1025",
        Given {
            columns: 1025,
            ..GOOD
        },
        Cells::Counts(&[1; 1025]),
    )?;
    case(
        rt,
        "directions, rows 1025",
        Given {
            rows: 1025,
            columns: 1,
            ..GOOD
        },
        Cells::Directions(&[1; 1025]),
    )
}

fn lengths(rt: &impl Print) -> io::Result<()> {
    case(
        rt,
        "LS, one cell too many",
        GOOD,
        Cells::Factors(&[100, 200, 300]),
    )?;
    case(
        rt,
        "heights, one cell too few",
        GOOD,
        Cells::Heights(&[100]),
    )?;
    case(
        rt,
        "directions, one cell too few",
        GOOD,
        Cells::Directions(&[4]),
    )
}

fn sides(rt: &impl Print) -> io::Result<()> {
    case(
        rt,
        "counts, side 0",
        Given { side: 0, ..GOOD },
        Cells::Counts(&[100, 200]),
    )?;
    case(
        rt,
        "LS, side 100001",
        Given {
            side: 100001,
            ..GOOD
        },
        Cells::Factors(&[100, 200]),
    )?;
    case(
        rt,
        "directions, side 0",
        Given { side: 0, ..GOOD },
        Cells::Directions(&[4, 255]),
    )
}

fn corners(rt: &impl Print) -> io::Result<()> {
    case(
        rt,
        "heights, x 12,5",
        Given { x: b"12,5", ..GOOD },
        Cells::Heights(&[100, 200]),
    )?;
    case(
        rt,
        "counts, y empty",
        Given { y: b"", ..GOOD },
        Cells::Counts(&[100, 200]),
    )?;
    case(
        rt,
        "directions, x with a blank",
        Given { x: b"1 2", ..GOOD },
        Cells::Directions(&[4, 255]),
    )?;
    case(
        rt,
        "directions, y .5",
        Given { y: b".5", ..GOOD },
        Cells::Directions(&[4, 255]),
    )
}

fn out_of_range(rt: &impl Print) -> io::Result<()> {
    case(
        rt,
        "heights, the second 900001",
        GOOD,
        Cells::Heights(&[NO_DATA, 900001]),
    )?;
    case(
        rt,
        "heights, both out of range",
        GOOD,
        Cells::Heights(&[-50001, 900001]),
    )
}

// Two faults in one call: the first in the order of the tests decides.
pub(crate) fn of_two(rt: &impl Print) -> io::Result<()> {
    case(
        rt,
        "heights, 3 before 7",
        Given {
            side: 0,
            x: b"12,5",
            ..GOOD
        },
        Cells::Heights(&[100, 200]),
    )?;
    case(
        rt,
        "LS, 7 at x before y",
        Given {
            x: b"12,5",
            y: b"",
            ..GOOD
        },
        Cells::Factors(&[100, 200]),
    )?;
    case(
        rt,
        "heights, 7 before 5",
        Given { y: b"", ..GOOD },
        Cells::Heights(&[100, 900001]),
    )?;
    case(
        rt,
        "heights, 5 before 13",
        Given { bytes: 10, ..GOOD },
        Cells::Heights(&[100, 900001]),
    )?;
    case(
        rt,
        "directions, 7 at y before 13",
        Given {
            bytes: 10,
            y: b"",
            ..GOOD
        },
        Cells::Directions(&[4, 255]),
    )
}
