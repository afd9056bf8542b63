// The terrain layer, where the water goes: from ground heights to filled heights, directions, falls and flow counts, and an
// order of the cells from the ridges down. RULES 4. No settings and no cell side come in here.
//
// Every input gets an answer: the call has no `requires`. The modules follow docs/RULES.md: cells, filled heights, steps over
// flats, directions, the order from the ridges down, trails.
#![tactic(auto)]

mod cells;
mod direction;
mod downhill;
mod drawing;
mod filled;
mod flat;
mod given;
mod ground;
mod queue;
mod ring;
mod surface;
mod trail;

ghost use Rattle.std.specs.Prelude.{◌≡◌, ℕ, ◌*◌, ◌<◌, true, map, length, slice_index};
ghost use Rattle.laws.specs.Tests.{verdict};
ghost use Rattle.text.specs.Ranges.{all_long};
ghost use Rattle.terrain.specs.Filled.{top, filled_levels};
ghost use Rattle.terrain.specs.Cells.{height_of};
ghost use Rattle.terrain.specs.Trail.{counts_of, longest_of};
ghost use Rattle.terrain.specs.Falls.{falls_of};
ghost use Rattle.terrain.specs.InnerTrail.{Directed};
ghost use Rattle.terrain.specs.Downhill.{Downhill};
ghost use Rattle.terrain.specs.Drainage.{Drainage};
ghost use Rattle.terrain.specs.Answers.{lent_at, lent_before, lent_after, places_of, ground_judged, source_tests, judged, directions_by, After, answer, accepts, valid_in};
ghost use Rattle.terrain.specs.InnerCells.{Ready};
ghost use Rattle.terrain.specs.InnerGiven.{Keeping};
ghost use Rattle.terrain.specs.InnerAnswers.{found, directions_for};
ghost use Rattle.terrain.specs.declared.Source.TheVariants.{Given};

pub use cells::shifts_of;
use drawing::Drawing;
use ground::Ground;
use surface::Surface;
use text::{Fault, Refusal};

// What the call says of a map: the number of valid cells and the steps of the longest trail.
#[derive(Clone, Copy, PartialEq, Eq)]
pub struct Summary {
    pub valid: u32,
    pub longest: u32,
}

// Whose directions a map takes: our own, or those that the lent grid holds at the call.
#[derive(Clone, Copy)]
pub enum Source {
    Own,
    Given,
}

// Whether every lent slice has one place per cell.
fn are_long(
    cells: usize,
    elevation: &[i32],
    filled: &[i32],
    direction: &[u8],
    count: &[u32],
    falls: &[u32],
    workspace: &[u32],
) -> bool
    ensures { result ≡ all_long cells
        (places_of elevation.now (lent_at filled.entry direction.entry count.entry falls.entry workspace.entry)) }
{
    (elevation.len() == cells)
        & (filled.len() == cells)
        & (direction.len() == cells)
        & (count.len() == cells)
        & (falls.len() == cells)
        & (workspace.len() == cells)
}

// Makes the tests of refusals 1, 2 and 5, in that order, and writes nothing.
fn judge(
    rows: usize,
    columns: usize,
    elevation: &[i32],
    filled: &[i32],
    direction: &[u8],
    count: &[u32],
    falls: &[u32],
    workspace: &[u32],
) -> Result<(), Refusal>
    ensures { found result ≡ ground_judged rows columns elevation.now
        (lent_at filled.entry direction.entry count.entry falls.entry workspace.entry) }
{
    if !text::is_size(rows) || !text::is_size(columns) {
        return Err(Refusal {
            fault: Fault::Size,
            place: 0,
        });
    }
    let cells = rows * columns;
    if !are_long(cells, elevation, filled, direction, count, falls, workspace) {
        return Err(Refusal {
            fault: Fault::Length,
            place: 0,
        });
    }
    if let Some(place) = text::first_bad(elevation) {
        return Err(Refusal {
            fault: Fault::Height,
            place,
        });
    }
    Ok(())
}

// Fills the levels, and tests directions that are given over them: refusals 17 and 18.
fn survey(
    rows: usize,
    columns: usize,
    source: Source,
    elevation: &[i32],
    direction: &[u8],
    level: &mut [u32],
) -> Result<(), Refusal>
    requires { Ready rows columns elevation.now × (length direction.now ≡ rows * columns) × (length level.old ≡ rows * columns) }
    ensures { (found result ≡ verdict (source_tests source rows columns (filled_levels rows columns elevation.now) direction.now))
        × (level.new ≡ filled_levels rows columns elevation.now) }
{
    let ground = Ground {
        rows,
        columns,
        elevation,
    };
    filled::fill(ground, level);
    match source {
        Source::Own => Ok(()),
        Source::Given => given::judge(rows, columns, direction, level),
    }
}

// Works out directions, if they are not given, and falls; `count` and `filled` are scratch.
fn direct(
    surface: Surface,
    source: Source,
    direction: &mut [u8],
    falls: &mut [u32],
    count: &mut [u32],
    filled: &mut [i32],
)
    requires { (length direction.old ≡ surface.rows * surface.columns) × (length falls.old ≡ surface.rows * surface.columns)
        × (length count.old ≡ surface.rows * surface.columns)
        × (source ≡ Given → Keeping surface.rows surface.columns surface.level.now direction.old) }
    ensures { (direction.new ≡ directions_for source surface.entry.rows surface.entry.columns surface.entry.level.now direction.old)
        × (falls.new ≡ falls_of surface.entry.rows surface.entry.columns surface.entry.level.now
        (directions_for source surface.entry.rows surface.entry.columns surface.entry.level.now direction.old)) }
{
    match source {
        Source::Own => surface.point(direction, falls, count, filled),
        Source::Given => surface.write_falls(direction, falls),
    }
}

// The same, and the filled heights.
fn shape(
    surface: Surface,
    source: Source,
    filled: &mut [i32],
    direction: &mut [u8],
    count: &mut [u32],
    falls: &mut [u32],
)
    requires { ((x : ℕ) → slice_index surface.level.now x < top) × (length filled.old ≡ surface.rows * surface.columns)
        × (length direction.old ≡ surface.rows * surface.columns) × (length count.old ≡ surface.rows * surface.columns)
        × (length falls.old ≡ surface.rows * surface.columns)
        × (source ≡ Given → Keeping surface.rows surface.columns surface.level.now direction.old) }
    ensures { (filled.new ≡ map height_of surface.entry.level.now)
        × (direction.new ≡ directions_for source surface.entry.rows surface.entry.columns surface.entry.level.now direction.old)
        × (falls.new ≡ falls_of surface.entry.rows surface.entry.columns surface.entry.level.now
        (directions_for source surface.entry.rows surface.entry.columns surface.entry.level.now direction.old)) }
{
    direct(surface, source, direction, falls, count, filled);
    filled::write_heights(surface.level, filled);
}

// Works out the order of the cells, the longest trail and the flow counts.
fn route(
    rows: usize,
    columns: usize,
    direction: &[u8],
    count: &mut [u32],
    workspace: &mut [u32],
) -> Summary
    requires { Directed rows columns direction.now × (length count.old ≡ rows * columns) × (length workspace.old ≡ rows * columns) }
    ensures { (count.new ≡ counts_of rows columns direction.now)
        × ((places : ℕ) × Downhill rows columns direction.now workspace.new places
        × (result.valid ≡ places) × (result.longest ≡ longest_of rows columns direction.now)) }
{
    let shifts = shifts_of(columns);
    let drawing = Drawing {
        rows,
        columns,
        shifts: &shifts,
        direction,
    };
    let places = downhill::descend(drawing, count, workspace);
    let order = &workspace[..places];
    let longest = trail::longest_trail(drawing, order, count);
    trail::count_flow(drawing, order, count);
    Summary {
        valid: places as u32,
        longest: longest,
    }
}

// Maps a ground of rows times columns heights, each lent grid and the workspace having one place per cell. Given directions stand
// in the lent grid, and stay there. A refusal changes nothing that is lent, but that 17 and 18 leave zeros in the workspace; after
// success the workspace holds the valid cells in an order from the ridges down.
pub fn map(
    rows: usize,
    columns: usize,
    source: Source,
    elevation: &[i32],
    filled: &mut [i32],
    direction: &mut [u8],
    count: &mut [u32],
    falls: &mut [u32],
    workspace: &mut [u32],
) -> Result<Summary, Refusal>
    ensures answers { result ≡ answer rows columns source elevation.now (lent_before filled direction count falls workspace) }
    ensures leaves { After rows columns elevation.now (directions_by source rows columns elevation.now direction.old)
        (lent_before filled direction count falls workspace) (lent_after filled direction count falls workspace)
        (judged rows columns source elevation.now (lent_before filled direction count falls workspace)) }
    ensures drains { accepts result ≡ true
        → Drainage rows columns elevation.now filled.new direction.new count.new (valid_in result) }
{
    judge(
        rows, columns, elevation, filled, direction, count, falls, workspace,
    )?;
    if let Err(refusal) = survey(rows, columns, source, elevation, direction, workspace) {
        workspace.fill(0);
        return Err(refusal);
    }
    let surface = Surface {
        rows,
        columns,
        level: workspace,
    };
    shape(surface, source, filled, direction, count, falls);
    Ok(route(rows, columns, direction, count, workspace))
}
