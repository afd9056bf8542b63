// Maps of two farms added to a report, and the refusals 2, 4, 19 and 16 of such an addition, which are tested in that order.
use crate::make::{leading, no_channel, settings};
use crate::show;
use report::Report;
use settings::{Channel, Settings};
use std::io;

// One percent of the largest count of both farms, 200, for the first and third cell, and more than one cell for the others; then the farms
// exchanged.
pub(crate) fn channels(rt: &impl Print) -> io::Result<()> {
    let cells = settings(0.5, 0.5, Channel::Cells(1));
    let default = Settings::default();
    strip(rt, "two farms", default, cells)?;
    strip(rt, "two farms exchanged", cells, default)
}

fn strip(rt: &impl Print, name: &str, first: Settings, second: Settings) -> io::Result<()> {
    let mut report = Report::empty();
    let answer = report::add_farms(
        &mut report,
        1,
        4,
        first,
        second,
        &[0, 1, 0, 1],
        &[2, 1, 3, 200],
        &[1, 1, 1, 1],
    );
    show::answered(rt, name, answer, report)
}

// Two cells of two farms, after so many maps.
fn pair(
    rt: &impl Print,
    name: &str,
    maps: u64,
    first: Settings,
    second: Settings,
    marks: &[u8],
) -> io::Result<()> {
    let mut report = leading(maps, None);
    let answer = report::add_farms(&mut report, 1, 2, first, second, marks, &[1, 1], &[1, 1]);
    show::answered(rt, name, answer, report)
}

pub(crate) fn refusals(rt: &impl Print) -> io::Result<()> {
    let none = no_channel();
    let low = settings(1.01, 0.5, Channel::NoChannel);
    let percentage = settings(0.5, 0.5, Channel::Percentage(100.1));
    pair(rt, "a mark too few", 3, low, low, &[0])?;
    pair(rt, "farm 0 before farm 1", 3, percentage, low, &[0, 1])?;
    pair(rt, "farm 1 alone", 3, none, low, &[0, 0])?;
    pair(rt, "4 before 19", 3, none, percentage, &[2, 0])?;
    pair(rt, "a mark of 2", 3, none, none, &[1, 2])?;
    pair(rt, "19 before 16", u64::MAX, none, none, &[255, 2])?;
    pair(rt, "marks and 16", u64::MAX, none, none, &[0, 1])
}
