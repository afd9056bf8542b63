// The tests of refusals 1 to 4, and of 19 for two farms, which are judged before the terrain layer is called; it judges 5. RULES 3.2.
ghost use Rattle.std.specs.Prelude.{◌≡◌, ◌≤◌, ◌++◌, ltb, position};
ghost use Rattle.text.specs.Ranges.{all_long};
ghost use Rattle.settings.specs.Settings.{judged_of};
ghost use Rattle.factor.specs.Answers.{lent_at, places_of, Judges, JudgesFarms, JudgesRest};
ghost use Rattle.factor.specs.Inner.{places_with, settings_found, JudgesGround};

use settings::{Rules, Settings};
use text::{Fault, Refusal};

// The rules of farm 0 and of farm 1.
#[derive(Clone, Copy)]
pub struct FarmRules {
    pub first: Rules,
    pub second: Rules,
}

// Whether every lent slice, and the marks where there are some, have one place per cell. C lends each slice by itself.
fn are_long(
    cells: usize,
    marks: Option<usize>,
    elevation: &[i32],
    filled: &[i32],
    direction: &[u8],
    count: &[u32],
    lengths: &[u64],
    factors: &[u32],
    workspace: &[u32],
) -> bool
    ensures { result ≡ all_long cells (places_with marks ++ places_of elevation.now
        (lent_at filled.entry direction.entry count.entry lengths.entry factors.entry workspace.entry)) }
{
    (marks.unwrap_or(cells) == cells)
        & (elevation.len() == cells)
        & (filled.len() == cells)
        & (direction.len() == cells)
        & (count.len() == cells)
        & (lengths.len() == cells)
        & (factors.len() == cells)
        & (workspace.len() == cells)
}

// Judges settings; the place of a bad one comes after so many of another farm's.
fn judge_settings(settings: Settings, before: usize) -> Result<Rules, Refusal>
    requires { before ≤ 3 }
    ensures { result ≡ settings_found before (judged_of settings) }
{
    settings::judge(settings).map_err(|setting| Refusal {
        fault: Fault::Setting,
        place: before + setting.place(),
    })
}

// Makes the tests of refusals 1 to 4 that both calls make first, where there are so many marks.
fn judge_ground(
    rows: usize,
    columns: usize,
    side: u32,
    settings: Settings,
    marks: Option<usize>,
    elevation: &[i32],
    filled: &[i32],
    direction: &[u8],
    count: &[u32],
    lengths: &[u64],
    factors: &[u32],
    workspace: &[u32],
) -> Result<Rules, Refusal>
    ensures { JudgesGround rows columns side settings marks elevation.now
        (lent_at filled.entry direction.entry count.entry lengths.entry factors.entry workspace.entry) result }
{
    if !text::is_size(rows) || !text::is_size(columns) {
        return Err(Refusal {
            fault: Fault::Size,
            place: 0,
        });
    }
    if !are_long(
        rows * columns,
        marks,
        elevation,
        filled,
        direction,
        count,
        lengths,
        factors,
        workspace,
    ) {
        return Err(Refusal {
            fault: Fault::Length,
            place: 0,
        });
    }
    if !text::is_side(side) {
        return Err(Refusal {
            fault: Fault::Side,
            place: 0,
        });
    }
    judge_settings(settings, 0)
}

// Makes the tests of refusals 1 to 4 of the map call, in that order, and maps nothing.
pub fn judge(
    rows: usize,
    columns: usize,
    side: u32,
    settings: Settings,
    elevation: &[i32],
    filled: &[i32],
    direction: &[u8],
    count: &[u32],
    lengths: &[u64],
    factors: &[u32],
    workspace: &[u32],
) -> Result<Rules, Refusal>
    ensures { Judges rows columns side settings elevation.now (lent_at filled.entry direction.entry count.entry lengths.entry factors.entry workspace.entry) result }
{
    judge_ground(
        rows, columns, side, settings, None, elevation, filled, direction, count, lengths, factors,
        workspace,
    )
}

// The first cell with a mark above 1.
fn first_mark(marks: &[u8]) -> Option<usize>
    ensures { result ≡ position (ltb 1) marks.now }
{
    marks.iter().position(|mark| 1 < *mark)
}

// Makes the tests of refusal 4 for farm 1 and of 19, once those before them are passed.
pub fn judge_rest(first: Rules, second: Settings, marks: &[u8]) -> Result<FarmRules, Refusal>
    ensures { JudgesRest first second marks.now result }
{
    let second = judge_settings(second, 3)?;
    match first_mark(marks) {
        Some(x) => Err(Refusal {
            fault: Fault::Mark,
            place: x,
        }),
        None => Ok(FarmRules { first, second }),
    }
}

// Makes the tests of refusals 1 to 4 and 19 of the map call for two farms, in that order, and maps nothing.
pub fn judge_farms(
    rows: usize,
    columns: usize,
    side: u32,
    first: Settings,
    second: Settings,
    marks: &[u8],
    elevation: &[i32],
    filled: &[i32],
    direction: &[u8],
    count: &[u32],
    lengths: &[u64],
    factors: &[u32],
    workspace: &[u32],
) -> Result<FarmRules, Refusal>
    ensures { JudgesFarms rows columns side first second marks.now elevation.now
        (lent_at filled.entry direction.entry count.entry lengths.entry factors.entry workspace.entry) result }
{
    let first = judge_ground(
        rows,
        columns,
        side,
        first,
        Some(marks.len()),
        elevation,
        filled,
        direction,
        count,
        lengths,
        factors,
        workspace,
    )?;
    judge_rest(first, second, marks)
}
