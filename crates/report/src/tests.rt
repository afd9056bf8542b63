// The tests of a map: refusals 1, 2 and 4, and 19 for two farms. RULES 12.4.
ghost use Rattle.std.specs.Prelude.{◌≡◌};
ghost use Rattle.laws.specs.Tests.{verdict};
ghost use Rattle.text.specs.Ranges.{all_long};
ghost use Rattle.settings.specs.Settings.{judged_of};
ghost use Rattle.factor.specs.Farms.{one, two};
ghost use Rattle.factor.specs.Answers.{found};
ghost use Rattle.report.specs.Maps.{map_of};
ghost use Rattle.report.specs.Answers.{judgement_of, JudgesFarms};
ghost use Rattle.report.specs.InnerTests.{shape_tests, settings_found};

use factor::FarmRules;
use settings::{Rules, Settings};
use text::{Fault, Refusal};

// Whether each of these lists has one place per cell.
fn are_long(cells: usize, lengths: &[usize]) -> bool
    ensures { result ≡ all_long cells lengths.now }
{
    lengths.iter().all(|n| *n == cells)
}

// Makes the tests of the shape and of the lengths of the marks, counts and LS.
fn judge_shape(rows: usize, columns: usize, lengths: &[usize]) -> Result<(), Refusal>
    ensures { found result ≡ verdict (shape_tests rows columns lengths.now) }
{
    if !text::is_size(rows) || !text::is_size(columns) {
        return Err(Refusal {
            fault: Fault::Size,
            place: 0,
        });
    }
    if !are_long(rows * columns, lengths) {
        return Err(Refusal {
            fault: Fault::Length,
            place: 0,
        });
    }
    Ok(())
}

// Makes the test of one farm's settings.
fn judge_settings(settings: Settings) -> Result<Rules, Refusal>
    ensures { result ≡ settings_found (judged_of settings) }
{
    settings::judge(settings).map_err(|setting| Refusal {
        fault: Fault::Setting,
        place: setting.place(),
    })
}

// Makes these tests, in that order, and adds nothing.
pub fn judge(
    rows: usize,
    columns: usize,
    settings: Settings,
    count: &[u32],
    factors: &[u32],
) -> Result<Rules, Refusal>
    ensures { result ≡ judgement_of settings (map_of rows columns (one settings) count.now factors.now) }
{
    judge_shape(rows, columns, &[count.len(), factors.len()])?;
    judge_settings(settings)
}

// Makes the tests of a map of two farms, 1, 2, 4 and 19 in that order, and adds nothing.
pub fn judge_farms(
    rows: usize,
    columns: usize,
    first: Settings,
    second: Settings,
    marks: &[u8],
    count: &[u32],
    factors: &[u32],
) -> Result<FarmRules, Refusal>
    ensures { JudgesFarms first second (map_of rows columns (two first second marks.now) count.now factors.now) result }
{
    judge_shape(rows, columns, &[marks.len(), count.len(), factors.len()])?;
    let rules = judge_settings(first)?;
    factor::judge_rest(rules, second, marks)
}
