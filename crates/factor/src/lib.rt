// The factor layer, what the handbook makes of the water: slope length and steepness become the LS factor of Handbook 537.
// RULES 5 and 6.
//
// Its two calls, for one farm and for two farms on one map, give every grid of docs/RULES.md. They judge sizes, lengths, cell side,
// settings and marks; the terrain layer, known by its promise alone, judges the heights and writes filled heights, directions, counts
// and falls, and an order from the ridges down; one pass along that order gives lengths and LS.
#![tactic(auto)]

mod cell;
mod channel;
mod exponent;
mod guess;
mod inflow;
mod length_factor;
mod pass;
mod search;
mod sine;
mod slope;
mod steepness;
mod tests;
mod thresholds;

ghost use Rattle.std.specs.Prelude.{◌≡◌, true, ◌*◌};
ghost use Rattle.terrain.specs.Drainage.{Trails, Totals, Surface};
ghost use Rattle.factor.specs.Farms.{Farms, one, two, of_farm};
ghost use Rattle.factor.specs.Answers.{lent, lent_before, lent_after, answer, after, told, accepts};
ghost use Rattle.factor.specs.Inner.{Passing, Promised};
ghost use Rattle.factor.specs.InnerPass.{farm_by, Naming};

pub use cell::TOO_LONG;
pub use channel::{channel_bound, largest};
pub use settings::{Channel, Settings};
pub use terrain::{Source, Summary};
pub use tests::{FarmRules, judge, judge_farms, judge_rest};
use text::Refusal;

// Maps a ground that passed the first tests, each cell by the rules of the farm that it names, or of farm 0 where there are no marks.
fn map_sound(
    rows: usize,
    columns: usize,
    side: u32,
    rules: FarmRules,
    marks: Option<&[u8]>,
    source: Source,
    elevation: &[i32],
    filled: &mut [i32],
    direction: &mut [u8],
    count: &mut [u32],
    lengths: &mut [u64],
    factors: &mut [u32],
    workspace: &mut [u32],
) -> Result<Summary, Refusal>
    requires { ((farms : Farms) ×
        Passing rows columns side farms (λ x. of_farm rules.first rules.second (farm_by marks x)) elevation.now
        (lent filled.old direction.old count.old lengths.old factors.old workspace.old))
        × Naming (rows * columns) marks }
    ensures { (farms : Farms) →
        Passing rows columns side farms (λ x. of_farm rules.first rules.second (farm_by marks.entry x)) elevation.now
        (lent_before filled direction count lengths factors workspace) →
        Promised rows columns side farms source elevation.now (lent_before filled direction count lengths factors workspace)
        result (lent_after filled direction count lengths factors workspace) }
{
    let summary = terrain::map(
        rows, columns, source, elevation, filled, direction, count, factors, workspace,
    )?;
    let order = &workspace[..summary.valid as usize];
    pass::measure(
        columns, side, rules, marks, direction, count, order, lengths, factors,
    );
    workspace.fill(0);
    Ok(summary)
}

// Maps a ground of rows times columns heights with cells of the given side in cm, each lent grid and the workspace having
// one place per cell. Given directions stand in the lent grid, and stay there. A refusal changes nothing that is lent, but that 17
// and 18 leave zeros in the workspace; after success it holds zeros.
pub fn map(
    rows: usize,
    columns: usize,
    side: u32,
    settings: Settings,
    source: Source,
    elevation: &[i32],
    filled: &mut [i32],
    direction: &mut [u8],
    count: &mut [u32],
    lengths: &mut [u64],
    factors: &mut [u32],
    workspace: &mut [u32],
) -> Result<Summary, Refusal>
    ensures answers { result
        ≡ answer rows columns side (one settings) source elevation.now (lent_before filled direction count lengths factors workspace) }
    ensures leaves { lent_after filled direction count lengths factors workspace
        ≡ after rows columns side (one settings) source elevation.now (lent_before filled direction count lengths factors workspace) }
    ensures trails { accepts result ≡ true → Trails rows columns elevation.now filled.new direction.new }
    ensures totals { accepts result ≡ true →
        Totals rows columns elevation.now direction.new count.new (told result).valids }
    ensures surface { accepts result ≡ true → Surface rows columns elevation.now filled.new }
{
    let rules = judge(
        rows, columns, side, settings, elevation, filled, direction, count, lengths, factors,
        workspace,
    )?;
    let both = FarmRules {
        first: rules,
        second: rules,
    };
    map_sound(
        rows, columns, side, both, None, source, elevation, filled, direction, count, lengths,
        factors, workspace,
    )
}

// Maps a ground for two farms: each cell names farm 0 or 1, and has that farm's settings. All else is as for one farm.
pub fn map_farms(
    rows: usize,
    columns: usize,
    side: u32,
    first: Settings,
    second: Settings,
    marks: &[u8],
    source: Source,
    elevation: &[i32],
    filled: &mut [i32],
    direction: &mut [u8],
    count: &mut [u32],
    lengths: &mut [u64],
    factors: &mut [u32],
    workspace: &mut [u32],
) -> Result<Summary, Refusal>
    ensures answers { result ≡ answer rows columns side (two first second marks.now) source elevation.now
        (lent_before filled direction count lengths factors workspace) }
    ensures leaves { lent_after filled direction count lengths factors workspace
        ≡ after rows columns side (two first second marks.now) source elevation.now
        (lent_before filled direction count lengths factors workspace) }
    ensures trails { accepts result ≡ true → Trails rows columns elevation.now filled.new direction.new }
    ensures totals { accepts result ≡ true →
        Totals rows columns elevation.now direction.new count.new (told result).valids }
    ensures surface { accepts result ≡ true → Surface rows columns elevation.now filled.new }
{
    let rules = judge_farms(
        rows, columns, side, first, second, marks, elevation, filled, direction, count, lengths,
        factors, workspace,
    )?;
    map_sound(
        rows,
        columns,
        side,
        rules,
        Some(marks),
        source,
        elevation,
        filled,
        direction,
        count,
        lengths,
        factors,
        workspace,
    )
}
