// A report as fourteen numbers: the ten totals in the order of the rules, then 0 for no greatest or 1, the greatest LS, its map and its cell; and an
// addition with the formula as a number. RULES 12.4.
ghost use Rattle.std.specs.Prelude.{◌≡◌};
ghost use Rattle.factor.specs.Farms.{one};
ghost use Rattle.report.specs.Maps.{map_of};
ghost use Rattle.report.specs.Answers.{outcome};
ghost use Rattle.fullsize.specs.Crossing.{one_formula};
ghost use Rattle.fullsize.specs.Reporting.{greatest_from, greatest_numbers, report_from, numbers_from, reporting_of, reporting_after, added_by};

use crate::crossing::refusal_before;
use report::{Greatest, Report};
use settings::Settings;
use text::Refusal;

// The greatest of four numbers; the first says whether there is one.
#[tactic(auto, unfolding(crate::specs::Reporting::greatest_from))]
fn greatest_of(some: u64, factor: u64, map: u64, cell: u64) -> Option<Greatest>
    ensures { result ≡ greatest_from some factor map cell }
{
    if some == 0 {
        return None;
    }
    Some(Greatest { factor, map, cell })
}

// The report of fourteen numbers.
#[tactic(auto, unfolding(crate::specs::Reporting::report_from))]
pub(crate) fn report_of(numbers: &[u64; 14]) -> Report
    ensures { result ≡ report_from numbers.now }
{
    Report {
        maps: numbers[0],
        valid: numbers[1],
        channel: numbers[2],
        zero: numbers[3],
        long: numbers[4],
        sum: numbers[5],
        under1: numbers[6],
        from1: numbers[7],
        from5: numbers[8],
        from10: numbers[9],
        greatest: greatest_of(numbers[10], numbers[11], numbers[12], numbers[13]),
    }
}

// The four numbers of a greatest.
#[tactic(auto, unfolding(crate::specs::Reporting::greatest_numbers))]
fn greatest_numbers(greatest: Option<Greatest>) -> [u64; 4]
    ensures { result ≡ greatest_numbers greatest }
{
    match greatest {
        None => [0, 0, 0, 0],
        Some(greatest) => [1, greatest.factor, greatest.map, greatest.cell],
    }
}

// Puts a report's numbers into their places.
pub(crate) fn hand_out(report: Report, numbers: &mut [u64; 14])
    ensures { numbers.new ≡ numbers_from report }
{
    let last = greatest_numbers(report.greatest);
    *numbers = [
        report.maps,
        report.valid,
        report.channel,
        report.zero,
        report.long,
        report.sum,
        report.under1,
        report.from1,
        report.from5,
        report.from10,
        last[0],
        last[1],
        last[2],
        last[3],
    ];
}

// Hands out the answer of a call and the report afterwards; a refusal leaves the numbers as they were.
pub(crate) fn hand_out_answer(
    answer: Result<(), Refusal>,
    report: Report,
    numbers: &mut [u64; 14],
    place: &mut usize,
) -> u32
    ensures { reporting_after result place numbers ≡ reporting_of numbers.old answer report }
{
    match answer {
        Ok(()) => {
            *place = 0;
            hand_out(report, numbers);
            0
        }
        Err(refusal) => {
            *place = refusal.place;
            refusal.fault.number()
        }
    }
}

// Adds a map to a report, by settings and the number of their formula.
pub(crate) fn add(
    report: &mut Report,
    rows: usize,
    columns: usize,
    settings: Settings,
    formula: u32,
    count: &[u32],
    factors: &[u32],
) -> Result<(), Refusal>
    ensures { outcome result report.new ≡ added_by report.old (map_of rows columns (one settings) count.now factors.now) (one_formula formula) }
{
    if 1 < formula {
        let judged = report::judge(rows, columns, settings, count, factors);
        return Err(refusal_before(7, judged.err()));
    }
    report::add(report, rows, columns, settings, count, factors)
}
