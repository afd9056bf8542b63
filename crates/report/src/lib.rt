// The report: one sheet of numbers for the maps of many farms. RULES 12.
//
// Every map and every two reports get an answer: no call has a `requires`. A call works out the next report and judges it before it
// takes it on; a refusal leaves the report as it was.
#![tactic(auto)]

mod classes;
mod flow;
mod joins;
mod lead;
mod single;
mod tally;
mod tests;

ghost use Rattle.std.specs.Prelude.{◌≡◌, []};
ghost use Rattle.factor.specs.Farms.{one, two};
ghost use Rattle.report.specs.Maps.{map_of};
ghost use Rattle.report.specs.Reports.{report_of};
ghost use Rattle.report.specs.Answers.{outcome, after_add, after_join};

use settings::Settings;
pub use tests::{judge, judge_farms};
use text::{Fault, Refusal};

// An LS, with the map and the cell that have it, counted from 0.
#[derive(Clone, Copy)]
pub struct Greatest {
    pub factor: u64,
    pub map: u64,
    pub cell: u64,
}

// The numbers of a list of maps: how many there are, valid cells, channel cells, cells with LS 0, cells too long, the sum of all LS in
// hundred-thousandths, the cells with LS under 1, from 1 to under 5, from 5 to under 10, and 10 or more, and the greatest LS, where it
// comes first; none where no cell has an LS.
#[derive(Clone, Copy)]
pub struct Report {
    pub maps: u64,
    pub valid: u64,
    pub channel: u64,
    pub zero: u64,
    pub long: u64,
    pub sum: u64,
    pub under1: u64,
    pub from1: u64,
    pub from5: u64,
    pub from10: u64,
    pub greatest: Option<Greatest>,
}

impl Report {
    // The report of no maps.
    pub fn empty() -> Report
        ensures { result ≡ report_of [] }
    {
        Report {
            maps: 0,
            valid: 0,
            channel: 0,
            zero: 0,
            long: 0,
            sum: 0,
            under1: 0,
            from1: 0,
            from5: 0,
            from10: 0,
            greatest: None,
        }
    }
}

// Makes of the reports of two lists of maps that of the one after the other.
pub fn join(report: &mut Report, other: Report) -> Result<(), Refusal>
    ensures { outcome result report.new ≡ after_join report.old other }
{
    let Some(next) = joins::join(*report, other) else {
        return Err(Refusal {
            fault: Fault::Overflow,
            place: 0,
        });
    };
    *report = next;
    Ok(())
}

// Adds a map of rows times columns cells, mapped with these settings, to a report.
pub fn add(
    report: &mut Report,
    rows: usize,
    columns: usize,
    settings: Settings,
    count: &[u32],
    factors: &[u32],
) -> Result<(), Refusal>
    ensures { outcome result report.new ≡ after_add report.old (map_of rows columns (one settings) count.now factors.now) }
{
    let rules = judge(rows, columns, settings, count, factors)?;
    join(report, single::report_of(rules, count, factors))
}

// Adds a map of two farms, each cell having named farm 0 or 1, to a report.
pub fn add_farms(
    report: &mut Report,
    rows: usize,
    columns: usize,
    first: Settings,
    second: Settings,
    marks: &[u8],
    count: &[u32],
    factors: &[u32],
) -> Result<(), Refusal>
    ensures { outcome result report.new ≡ after_add report.old (map_of rows columns (two first second marks.now) count.now factors.now) }
{
    let rules = judge_farms(rows, columns, first, second, marks, count, factors)?;
    join(report, single::report_in(rules, marks, count, factors))
}
