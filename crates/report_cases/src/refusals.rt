// The refusals 1, 2, 4 and 16 of an addition, which are tested in that order, to a report of three maps.
use crate::make::{NO_DATA, leading, no_channel, one, settings};
use crate::show;
use report::Report;
use settings::{Channel, Settings};
use std::io;

fn add(
    rt: &impl Print,
    name: &str,
    rows: usize,
    columns: usize,
    s: Settings,
    count: &[u32],
    factors: &[u32],
) -> io::Result<()> {
    let mut report = leading(3, None);
    let answer = report::add(&mut report, rows, columns, s, count, factors);
    show::answered(rt, name, answer, report)
}

pub(crate) fn run(rt: &impl Print) -> io::Result<()> {
    add(rt, "rows 0", 0, 1, no_channel(), &[], &[])?;
    add(rt, "columns 1025", 1, 1025, no_channel(), &[], &[])?;
    add(rt, "a count too few", 1, 2, no_channel(), &[1], &[1, 2])?;
    add(
        rt,
        "an LS too many",
        1,
        2,
        no_channel(),
        &[1, 2],
        &[1, 2, 3],
    )?;
    let low = settings(1.01, 0.5, Channel::NoChannel);
    let both = settings(1.01, 1.01, Channel::NoChannel);
    let high = settings(0.5, 1.01, Channel::NoChannel);
    let percentage = settings(0.5, 0.5, Channel::Percentage(100.1));
    add(rt, "low cutoff 1.01", 1, 1, low, &[1], &[1])?;
    add(rt, "both cutoffs 1.01", 1, 1, both, &[1], &[1])?;
    add(rt, "high cutoff 1.01", 1, 1, high, &[1], &[1])?;
    add(rt, "percentage 100.1", 1, 1, percentage, &[1], &[1])?;
    add(rt, "1 before 2", 0, 1, no_channel(), &[1], &[])?;
    add(rt, "2 before 4", 1, 1, low, &[], &[])
}

fn add_one(
    rt: &impl Print,
    name: &str,
    mut report: Report,
    s: Settings,
    factor: u32,
) -> io::Result<()> {
    let answer = report::add(&mut report, 1, 1, s, &[1], &[factor]);
    show::answered(rt, name, answer, report)
}

// The number of maps and the sum at the end of 64 bits.
pub(crate) fn full(rt: &impl Print) -> io::Result<()> {
    let none = no_channel();
    let high = settings(0.5, 1.01, Channel::NoChannel);
    add_one(rt, "the last map", leading(u64::MAX - 1, None), none, 5)?;
    add_one(rt, "a map more", leading(u64::MAX, None), none, NO_DATA)?;
    add_one(rt, "the last sum", one(5, u64::MAX - 5), none, 5)?;
    add_one(rt, "a sum one more", one(5, u64::MAX - 4), none, 5)?;
    add_one(rt, "4 before 16", leading(u64::MAX, None), high, 5)
}
