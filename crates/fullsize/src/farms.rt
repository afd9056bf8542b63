// The calls of two farms, with the formula of each as a number: 0 older, 1 newer. Any other number is refused with 4, at 7 for farm 0
// and at 8 for farm 1, after every other setting and before the marks. RULES 7.3 and 12.4.
ghost use Rattle.std.specs.Prelude.{◌≡◌, true};
ghost use Rattle.terrain.specs.Drainage.{Trails, Totals, Surface};
ghost use Rattle.factor.specs.Farms.{two};
ghost use Rattle.factor.specs.Answers.{told, accepts, lent_before, lent_after};
ghost use Rattle.report.specs.Maps.{map_of};
ghost use Rattle.report.specs.Answers.{outcome};
ghost use Rattle.fullsize.specs.Crossing.{two_formulas};
ghost use Rattle.fullsize.specs.Mapping.{answer_by, after_by};
ghost use Rattle.fullsize.specs.Reporting.{added_by};

use crate::crossing::{formula_place, refusal_before};
use factor::{Source, Summary};
use report::Report;
use settings::Settings;
use text::Refusal;

// Maps a ground for two farms into the lent grids, by the settings of each and the numbers of their formulas.
pub(crate) fn map(
    rows: usize,
    columns: usize,
    side: u32,
    first: Settings,
    second: Settings,
    formula: u32,
    formula1: u32,
    marks: &[u8],
    source: Source,
    elevation: &[i32],
    filled: &mut [i32],
    direction: &mut [u8],
    count: &mut [u32],
    lengths: &mut [u64],
    factors: &mut [u32],
    workspace: &mut [u32],
) -> Result<Summary, Refusal>
    ensures answers { result ≡ answer_by rows columns side (two first second marks.now) (two_formulas formula formula1) source elevation.now
        (lent_before filled direction count lengths factors workspace) }
    ensures leaves { lent_after filled direction count lengths factors workspace
        ≡ after_by rows columns side (two first second marks.now) (two_formulas formula formula1) source elevation.now
        (lent_before filled direction count lengths factors workspace) }
    ensures trails { accepts result ≡ true → Trails rows columns elevation.now filled.new direction.new }
    ensures totals { accepts result ≡ true →
        Totals rows columns elevation.now direction.new count.new (told result).valids }
    ensures surface { accepts result ≡ true → Surface rows columns elevation.now filled.new }
{
    if let Some(place) = formula_place(formula, formula1) {
        let judged = factor::judge_farms(
            rows, columns, side, first, second, marks, elevation, filled, direction, count,
            lengths, factors, workspace,
        );
        return Err(refusal_before(place, judged.err()));
    }
    factor::map_farms(
        rows, columns, side, first, second, marks, source, elevation, filled, direction, count,
        lengths, factors, workspace,
    )
}

// Adds a map of two farms to a report, by the settings of each and the numbers of their formulas. A refusal leaves the report.
pub(crate) fn add(
    report: &mut Report,
    rows: usize,
    columns: usize,
    first: Settings,
    second: Settings,
    formula: u32,
    formula1: u32,
    marks: &[u8],
    count: &[u32],
    factors: &[u32],
) -> Result<(), Refusal>
    ensures { outcome result report.new ≡ added_by report.old (map_of rows columns (two first second marks.now) count.now factors.now)
        (two_formulas formula formula1) }
{
    if let Some(place) = formula_place(formula, formula1) {
        let judged = report::judge_farms(rows, columns, first, second, marks, count, factors);
        return Err(refusal_before(place, judged.err()));
    }
    report::add_farms(report, rows, columns, first, second, marks, count, factors)
}
