// Single cells, rows and columns, with the ends of the range of cell sides and corner words that are copied as they are.
use crate::show::{Cells, GOOD, Given, case};
use std::io;

pub(crate) fn run(rt: &impl Print) -> io::Result<()> {
    case(
        rt,
        "heights, 1 by 1, the least side",
        Given {
            bytes: 82,
            columns: 1,
            side: 1,
            y: b"-0",
            ..GOOD
        },
        Cells::Heights(&[0]),
    )?;
    case(
        rt,
        "counts, 1 by 3, the greatest side",
        Given {
            bytes: 86,
            columns: 3,
            side: 100000,
            x: b"000",
            y: b"7",
            ..GOOD
        },
        Cells::Counts(&[1, 2, 3]),
    )?;
    case(
        rt,
        "heights, 3 by 1, the longest corners",
        Given {
            bytes: 125,
            rows: 3,
            columns: 1,
            x: b"-123456789.123456",
            y: b"-000000000.000000",
            ..GOOD
        },
        Cells::Heights(&[100, 200, 123456]),
    )?;
    case(
        rt,
        "directions, 3 by 1, a digit, two and three",
        Given {
            bytes: 90,
            rows: 3,
            columns: 1,
            ..GOOD
        },
        Cells::Directions(&[2, 32, 254]),
    )
}
