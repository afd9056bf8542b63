// The refusals 1, 2 and 5 of docs/RULES.md, which are tested in that order, and heights that are just accepted.
use crate::show::{Places, field, lent};
use std::io;

// Rows and columns whose product wraps round to 1 are refused as well. One cell is lent, whatever they are.
pub(crate) fn sizes(rt: &impl Print) -> io::Result<()> {
    for (name, rows, columns) in [
        ("rows 0", 0, 1),
        ("columns 0", 1, 0),
        ("rows 1025", 1025, 1),
        ("columns 1025", 1, 1025),
        ("a product of 1", usize::MAX, usize::MAX),
        ("few cells", 1024, 1024),
    ] {
        field(rt, name, rows, columns, &[1])?;
    }
    Ok(())
}

pub(crate) fn lengths(rt: &impl Print) -> io::Result<()> {
    let six = Places::of(6);
    lent(rt, "ground short", 2, 3, &[1, 2, 3, 4, 5], six)?;
    lent(rt, "ground long", 2, 3, &[1, 2, 3, 4, 5, 6, 7], six)?;
    two_by_three(rt, "filled short", Places { filled: 5, ..six })?;
    two_by_three(
        rt,
        "direction long",
        Places {
            direction: 7,
            ..six
        },
    )?;
    two_by_three(rt, "count short", Places { count: 5, ..six })?;
    two_by_three(
        rt,
        "workspace long",
        Places {
            workspace: 7,
            ..six
        },
    )
}

// A good ground of 2 by 3, with the given numbers of places lent.
fn two_by_three(rt: &impl Print, name: &str, places: Places) -> io::Result<()> {
    lent(rt, name, 2, 3, &[1, 2, 3, 4, 5, 6], places)
}

pub(crate) fn heights(rt: &impl Print) -> io::Result<()> {
    with_height(rt, "height 900000", 900000)?;
    with_height(rt, "height 900001", 900001)?;
    with_height(rt, "height -50000", -50000)?;
    with_height(rt, "height -50001", -50001)
}

pub(crate) fn heights_near_no_data(rt: &impl Print) -> io::Result<()> {
    with_height(rt, "height -999899", -999899)?;
    with_height(rt, "height -999900", -999900)?;
    with_height(rt, "height -999901", -999901)?;
    with_height(rt, "height -2147483648", -2147483648)
}

// A ground of 2 by 3 whose fifth height is the given one.
fn with_height(rt: &impl Print, name: &str, height: i32) -> io::Result<()> {
    field(rt, name, 2, 3, &[1, 2, 3, 4, height, 6])
}

// Two faults in one call: the first in the order of the tests decides.
pub(crate) fn of_two(rt: &impl Print) -> io::Result<()> {
    let two = Places::of(2);
    lent(
        rt,
        "columns 0, filled short",
        2,
        0,
        &[900001, 1],
        Places { filled: 1, ..two },
    )?;
    lent(
        rt,
        "workspace short, height 900001",
        1,
        2,
        &[900001, 1],
        Places {
            workspace: 1,
            ..two
        },
    )?;
    field(
        rt,
        "two heights out of range",
        1,
        4,
        &[900000, -50001, -999900, 900001],
    )
}
