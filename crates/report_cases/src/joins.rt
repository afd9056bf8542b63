// Joins: which greatest is kept, and numbers at the end of 64 bits.
use crate::make::{found, leading, one};
use crate::show;
use report::Report;
use std::io;

fn join(rt: &impl Print, name: &str, mut a: Report, b: Report) -> io::Result<()> {
    let answer = report::join(&mut a, b);
    show::answered(rt, name, answer, a)
}

pub(crate) fn greatest(rt: &impl Print) -> io::Result<()> {
    join(
        rt,
        "only the second has an LS",
        leading(3, None),
        leading(2, found(0, 1, 7)),
    )?;
    join(
        rt,
        "only the first has an LS",
        leading(3, found(5, 2, 1)),
        leading(2, None),
    )?;
    join(
        rt,
        "the second's is greater",
        leading(3, found(5, 2, 1)),
        leading(2, found(6, 0, 4)),
    )?;
    join(
        rt,
        "the first's is greater",
        leading(3, found(6, 2, 1)),
        leading(2, found(5, 0, 0)),
    )?;
    join(
        rt,
        "a tie",
        leading(3, found(5, 2, 1)),
        leading(2, found(5, 0, 0)),
    )?;
    map_edges(rt)
}

// The greatest's map at the end of 64 bits.
fn map_edges(rt: &impl Print) -> io::Result<()> {
    join(
        rt,
        "its map is the last that fits",
        leading(5, found(1, 0, 0)),
        leading(0, found(2, u64::MAX - 5, 0)),
    )?;
    join(
        rt,
        "its map is one more",
        leading(6, found(1, 0, 0)),
        leading(0, found(2, u64::MAX - 5, 0)),
    )?;
    join(
        rt,
        "its map is one more and is not kept",
        leading(6, found(2, 0, 0)),
        leading(0, found(2, u64::MAX - 5, 0)),
    )
}

// Of each number: one less than the greatest of 64 bits and 1, and the greatest and 1.
pub(crate) fn edges(rt: &impl Print) -> io::Result<()> {
    for k in 0..10 {
        let last = join_number(one(k, u64::MAX - 1), one(k, 1));
        let more = join_number(one(k, u64::MAX), one(k, 1));
        println!(rt; "number {k}: {last} {more}")?;
    }
    Ok(())
}

// The number of the refusal of a join, or 0.
fn join_number(mut a: Report, b: Report) -> u32 {
    match report::join(&mut a, b) {
        Ok(()) => 0,
        Err(refusal) => refusal.fault.number(),
    }
}
