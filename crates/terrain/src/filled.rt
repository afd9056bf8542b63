// Filled heights: depression filling by priority flood with buckets (Barnes, Lehman and Mulla 2014), in one word for each cell.
// The flood gives a cell a level that is not below its lowest neighbour's: a cell is queued beside one that is done, and what is done
// is not above the level in hand. If in the end no cell is below its ground, every level can stand, and a cell that nothing can
// lower any more has its filled level. Sweeps start anew if that fails, which does not happen.
// A place off the grid reads as level 0, as NoData does: a rim cell is one that sees a 0.
ghost use Rattle.std.specs.Prelude.{◌≡◌, ℕ, ◌+◌, ◌*◌, ◌<◌, ◌≤◌, map, length, nat_lt, slice_index};
ghost use Rattle.laws.specs.Settle.{start_of};
ghost use Rattle.terrain.specs.Cells.{levels_of, height_of};
ghost use Rattle.terrain.specs.InnerCells.{Inside, RunsTo};
ghost use Rattle.terrain.specs.Filled.{top, lowest_of, filling, filled_levels};
ghost use Rattle.terrain.specs.InnerFlood.{FaultyCell, Faulty, FillSweeping, Lowered, done_of, queued_from, Waiting, Flooded, FloodedTo, level_in};

use crate::cells::{beside, near, run_end, value_at};
use crate::ground::{DATUM, Ground};
use crate::queue::{Lists, level_of, start_word};

// Above every level: the flood has not come here yet.
const UNREACHED: u32 = 1900000;

// The height of a level.
fn height_of(level: u32) -> i32
    requires { level < top }
    ensures { result ≡ height_of level }
{
    level as i32 - DATUM
}

// Whether the lowest level beside a cell x that is inside is below v. Comparing costs half of what the lowest itself would.
fn has_lower(ground: Ground, level: &[u32], x: usize, v: u32) -> bool
    requires { (length level.now ≡ ground.rows * ground.columns) × Inside ground.rows ground.columns x }
    ensures { result ≡ nat_lt (lowest_of ground.entry.rows ground.entry.columns level.now x 8) v }
{
    let mut found = UNREACHED < v;
    for k in 0..8 {
        found |= level[beside(ground.columns, x, k)] < v;
    }
    found
}

// The lowest level beside any cell x.
fn lowest_near(ground: Ground, level: &[u32], x: usize) -> u32
    requires { x < 1048576 }
    ensures { result ≡ lowest_of ground.entry.rows ground.entry.columns level.now x 8 }
{
    let mut low: u32 = UNREACHED;
    for k in 0..8 {
        low = low.min(value_at(level, near(ground.rows, ground.columns, x, k)));
    }
    low
}

// Sets every word to where it starts from.
fn start(ground: Ground, words: &mut [u32])
    requires { length words.old ≡ ground.rows * ground.columns }
    ensures { (done_of words.new ≡ start_of (filling ground.entry.rows ground.entry.columns (levels_of ground.entry.elevation.now)))
        × ((x : ℕ) → slice_index words.new x < queued_from) }
{
    for x in 0..words.len() {
        words[x] = start_word(ground.level_at(x));
    }
}

impl Lists {
    // Takes the cells of the list of a level, until it is empty: each is done at this level, and reaches its neighbours. On a small grid
    // most lists are empty, and the first test costs half of what `pop` would.
    fn drain(&mut self, ground: Ground, words: &mut [u32], band: usize, list: usize)
        requires { (length words.old ≡ ground.rows * ground.columns) × (band < 1024) × (list < 2048)
            × Waiting ground.rows ground.columns words.old (level_in band list) }
        ensures { FloodedTo ground.entry.rows ground.entry.columns words.old words.new (level_in band list) }
    {
        if self.heads[list].is_empty() {
            return;
        }
        let level = level_of(band, list);
        'turns: for _ in 0..words.len() {
            let Some(x) = self.heads[list].pop(words) else {
                return;
            };
            words[x] = level;
            self.spread(ground, words, band, level, x);
        }
    }

    // Takes the cells of a band, the lowest first.
    fn flood_band(&mut self, ground: Ground, words: &mut [u32], band: usize)
        requires { (length words.old ≡ ground.rows * ground.columns) × (band < 1024)
            × Waiting ground.rows ground.columns words.old (level_in band 1024) }
        ensures { FloodedTo ground.entry.rows ground.entry.columns words.old words.new (level_in (band + 1) 1024) }
    {
        if self.heads[band].is_empty() {
            return;
        }
        self.open_band(words, band);
        for list in 1024..2048 {
            self.drain(ground, words, band, list);
        }
    }
}

// Goes from the rim inwards, the lowest cells first.
fn flood(ground: Ground, words: &mut [u32])
    requires { (length words.old ≡ ground.rows * ground.columns) × ((x : ℕ) → slice_index words.old x < queued_from) }
    ensures { Flooded ground.entry.rows ground.entry.columns words.old words.new }
{
    let mut lists = Lists::new();
    lists.reach_rims(ground, words);
    for band in 0..1024 {
        lists.flood_band(ground, words, band);
    }
}

// 1 if a level is below its ground, or above it with a lower level beside it; else 0.
fn faulty(v: u32, elevation: u32, lower: bool) -> u32
    ensures { (low : ℕ) → lower ≡ nat_lt low v → FaultyCell v elevation low result }
{
    u32::from((v < elevation) | ((elevation < v) & lower))
}

// How many cells are at fault in a run of cells that are inside.
fn faulty_run(ground: Ground, level: &[u32], from: usize, to: usize) -> u32
    requires { (length level.now ≡ ground.rows * ground.columns) × RunsTo ground.rows ground.columns from to }
    ensures { Faulty ground.entry.rows ground.entry.columns ground.entry.elevation.now level.now from to result }
{
    let mut sum: u32 = 0;
    for x in from..to {
        sum += faulty(
            level[x],
            ground.level_at(x),
            has_lower(ground, level, x, level[x]),
        );
    }
    sum
}

// How many cells are at fault. No `for`: each turn goes on after a run and the cell at its end.
fn faulty_cells(ground: Ground, level: &[u32]) -> u32
    requires { length level.now ≡ ground.rows * ground.columns }
    ensures { Faulty ground.entry.rows ground.entry.columns ground.entry.elevation.now level.now 0 (ground.entry.rows * ground.entry.columns) result }
{
    let mut sum: u32 = 0;
    let mut x: usize = 0;
    while x < level.len() {
        let end = run_end(ground.rows, ground.columns, x);
        sum += faulty_run(ground, level, x, end);
        sum += faulty(
            level[end],
            ground.level_at(end),
            lowest_near(ground, level, end) < level[end],
        );
        x = end + 1;
    }
    sum
}

// Lowers the cell x to what its ground and its neighbours allow. True if it was higher.
fn lower(ground: Ground, level: &mut [u32], x: usize) -> bool
    requires { (length level.old ≡ ground.rows * ground.columns) × (x < ground.rows * ground.columns) }
    ensures { Lowered ground.entry.rows ground.entry.columns ground.entry.elevation.now level.old level.new x result }
{
    let v = ground.level_at(x).max(lowest_near(ground, level, x));
    if level[x] <= v {
        return false;
    }
    level[x] = v;
    true
}

// Lowers every cell once. True if some cell was lowered.
fn sweep(ground: Ground, level: &mut [u32]) -> bool
    requires { length level.old ≡ ground.rows * ground.columns }
    ensures { FillSweeping ground.entry.rows ground.entry.columns ground.entry.elevation.now level.old level.new (length level.old) result }
{
    let mut lowered = false;
    for x in 0..level.len() {
        lowered |= lower(ground, level, x);
    }
    lowered
}

// Sets every level to where sweeps start from.
fn restart(ground: Ground, level: &mut [u32])
    requires { length level.old ≡ ground.rows * ground.columns }
    ensures { level.new ≡ start_of (filling ground.entry.rows ground.entry.columns (levels_of ground.entry.elevation.now)) }
{
    for x in 0..level.len() {
        level[x] = start_word(ground.level_at(x)).min(UNREACHED);
    }
}

// The levels of the filled heights, by sweeps alone until no cell can be lowered.
fn settle(ground: Ground, level: &mut [u32])
    requires { length level.old ≡ ground.rows * ground.columns }
    ensures { level.new ≡ filled_levels ground.entry.rows ground.entry.columns ground.entry.elevation.now }
{
    restart(ground, level);
    while sweep(ground, level) {}
}

// The levels of the filled heights.
pub(crate) fn fill(ground: Ground, level: &mut [u32])
    requires { length level.old ≡ ground.rows * ground.columns }
    ensures { level.new ≡ filled_levels ground.entry.rows ground.entry.columns ground.entry.elevation.now }
{
    start(ground, level);
    flood(ground, level);
    if 0 < faulty_cells(ground, level) {
        settle(ground, level);
    }
}

// Writes the height of each level.
pub(crate) fn write_heights(level: &[u32], filled: &mut [i32])
    requires { (length level.now ≡ length filled.old) × ((x : ℕ) → slice_index level.now x < top) }
    ensures { filled.new ≡ map height_of level.now }
{
    for x in 0..filled.len() {
        filled[x] = height_of(level[x]);
    }
}
