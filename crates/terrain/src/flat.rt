// Steps over flats: the fewest steps over cells of equal level to a cell with a lower neighbour or to a rim cell, breadth
// first from those (as in Barnes, Lehman and Mulla 2014, "An efficient assignment of drainage direction over flat surfaces").
// Every store lowers a cell's steps to one more than those of a neighbour of equal level, and puts the cell into a queue;
// taken from it, the cell reaches its neighbours. So once the queue is empty no steps can be lowered, in whatever order that
// went; sweeps go on if the queue was full, which does not happen.
ghost use Rattle.std.specs.Prelude.{◌≡◌, ℕ, ◌+◌, ◌*◌, ◌<◌, ◌≤◌, true, length, if◌then◌else◌, nat_eq, nat_lt};
ghost use Rattle.laws.specs.Settle.{start_of, Sweeping};
ghost use Rattle.terrain.specs.Flat.{far_steps, flat_at, nearest_of, flat_stepping, flat_steps};
ghost use Rattle.terrain.specs.InnerFlats.{Within, StepsKept, Put, Reached, Shores, Wading, Spreading, Waded};
ghost use Rattle.terrain.specs.InnerLevels.{LoweredSteps};

use crate::cells::{beside, near, value_at};
use crate::surface::Surface;

// More than any steps.
pub(crate) const FAR: u32 = 2_000_000;

// The steps of a cell of level w, as a cell of level v sees them: far unless the levels are equal.
fn seen(v: u32, w: u32, steps: u32) -> u32
    ensures { result ≡ (if nat_eq w v then steps else far_steps) }
{
    if w == v { steps } else { FAR }
}

// Sets the steps of the cell y to d and adds it to a queue of `end` entries, if there is room. The number of entries.
fn put(steps: &mut [u32], queue: &mut [i32], end: usize, d: u32, y: usize) -> usize
    requires { (y < length steps.old) × (y < 1048576) × (end ≤ length queue.old) }
    ensures { Put steps.old queue.old end d y steps.new queue.new result }
{
    steps[y] = d;
    if queue.len() <= end {
        return end;
    }
    queue[end] = y as i32;
    end + 1
}

// Lowers the steps of the cell y to d, if it has more, and queues it. The number of entries.
fn reach(steps: &mut [u32], queue: &mut [i32], end: usize, d: u32, y: usize) -> usize
    requires { (y < length steps.old) × (y < 1048576) × (end ≤ length queue.old) }
    ensures { Reached steps.old queue.old end d y steps.new queue.new result }
{
    if steps[y] <= d {
        return end;
    }
    put(steps, queue, end, d, y)
}

impl Surface<'_> {
    // Whether a flat cell x has a cell of its level beside it that has 0 steps. All its neighbours are on the grid.
    fn is_shore(self, steps: &[u32], x: usize) -> bool
        requires { (flat_at self.rows self.columns self.level.now x ≡ true) × (length steps.now ≡ self.rows * self.columns) }
        ensures { result ≡ nat_lt (nearest_of self.entry.rows self.entry.columns self.entry.level.now steps.now x 8) 1 }
    {
        let level = self.level;
        let v = level[x];
        let mut found = false;
        // Not `any`, so that there is no branch here.
        for k in 0..8 {
            let y = beside(self.columns, x, k);
            found |= (level[y] == v) & (steps[y] < 1);
        }
        found
    }

    // The fewest steps beside any cell x, among the cells of its level.
    fn nearest_near(self, steps: &[u32], x: usize) -> u32
        requires { (length steps.now ≡ self.rows * self.columns) × (x < self.rows * self.columns) }
        ensures { result ≡ nearest_of self.entry.rows self.entry.columns self.entry.level.now steps.now x 8 }
    {
        let level = self.level;
        let v = level[x];
        let mut low: u32 = FAR;
        for k in 0..8 {
            let y = near(self.rows, self.columns, x, k);
            low = low.min(seen(v, value_at(level, y), value_at(steps, y)));
        }
        low
    }

    // Reaches the cell x, if it is far and one step from a cell of its level that has 0. The number of entries.
    fn reach_shore(self, steps: &mut [u32], queue: &mut [i32], end: usize, x: usize) -> usize
        requires { Shores self.rows self.columns self.level.now steps.old queue.old end x × (x < self.rows * self.columns) }
        ensures { Shores self.entry.rows self.entry.columns self.entry.level.now steps.new queue.new result (x + 1) }
    {
        if steps[x] < FAR {
            return end;
        }
        if self.is_shore(steps, x) {
            return put(steps, queue, end, 1, x);
        }
        end
    }

    // Reaches every cell one step from where its flat ends. The number of entries.
    fn reach_shores(self, steps: &mut [u32], queue: &mut [i32]) -> usize
        requires { steps.old ≡ start_of (flat_stepping self.rows self.columns self.level.now) }
        ensures { Wading self.entry.rows self.entry.columns self.entry.level.now steps.new queue.new 0 result
            (self.entry.rows * self.entry.columns) }
    {
        let mut end: usize = 0;
        for x in 0..steps.len() {
            end = self.reach_shore(steps, queue, end, x);
        }
        end
    }

    // Reaches the neighbours of a flat cell x at d steps. All are on the grid, and those that are flat too have its level.
    // The number of entries.
    fn reach_around(
        self,
        steps: &mut [u32],
        queue: &mut [i32],
        end: usize,
        d: u32,
        x: usize,
    ) -> usize
        requires { (from : ℕ) × Spreading self.rows self.columns self.level.now steps.old queue.old from end d x 0 }
        ensures { (from : ℕ) → Spreading self.entry.rows self.entry.columns self.entry.level.now steps.old queue.old from end d x 0
            → Wading self.entry.rows self.entry.columns self.entry.level.now steps.new queue.new from result
            (self.entry.rows * self.entry.columns) }
    {
        let mut last = end;
        for k in 0..8 {
            last = reach(steps, queue, last, d, beside(self.columns, x, k));
        }
        last
    }

    // Reaches the neighbours of the cell x, which was taken from the queue, if it has steps: only flat cells have. The number of
    // entries.
    fn spread(self, steps: &mut [u32], queue: &mut [i32], end: usize, x: usize) -> usize
        requires { (from : ℕ) × Wading self.rows self.columns self.level.now steps.old queue.old from end x }
        ensures { (from : ℕ) → Wading self.entry.rows self.entry.columns self.entry.level.now steps.old queue.old from end x
            → Wading self.entry.rows self.entry.columns self.entry.level.now steps.new queue.new from result
            (self.entry.rows * self.entry.columns) }
    {
        let own = value_at(steps, x);
        if own < 1 {
            return end;
        }
        self.reach_around(steps, queue, end, own + 1, x)
    }

    // Spreads from the cells of a queue of `shores` entries inwards, the nearest first. The number of entries in the end: unless
    // they fill the queue, no steps can be lowered any more.
    fn wade(self, steps: &mut [u32], queue: &mut [i32], shores: usize) -> usize
        requires { Wading self.rows self.columns self.level.now steps.old queue.old 0 shores (self.rows * self.columns) }
        ensures { Waded self.entry.rows self.entry.columns self.entry.level.now steps.new (length queue.old) result }
    {
        let mut end = shores;
        let mut at: usize = 0;
        // A `while`, since a turn may move the end.
        while at < end {
            if let Ok(x) = usize::try_from(queue[at]) {
                end = self.spread(steps, queue, end, x);
            }
            at += 1;
        }
        end
    }

    // Lowers the steps of the cell x to what its neighbours allow. True if they were more.
    fn lower(self, steps: &mut [u32], x: usize) -> bool
        requires { (length steps.old ≡ self.rows * self.columns) × (x < self.rows * self.columns) }
        ensures { LoweredSteps self.entry.rows self.entry.columns self.entry.level.now steps.old steps.new x result }
    {
        let d = self.nearest_near(steps, x) + 1;
        if steps[x] <= d {
            return false;
        }
        steps[x] = d;
        true
    }

    // Lowers the steps of every cell once. True if some were lowered.
    fn sweep(self, steps: &mut [u32]) -> bool
        requires { length steps.old ≡ self.rows * self.columns }
        ensures { Sweeping (flat_stepping self.entry.rows self.entry.columns self.entry.level.now)
            (Within self.entry.rows self.entry.columns self.entry.level.now) steps.old steps.new (length steps.old) result }
    {
        let mut lowered = false;
        for x in 0..steps.len() {
            lowered |= self.lower(steps, x);
        }
        lowered
    }

    // Lowers until no cell's steps can be lowered.
    fn settle(self, steps: &mut [u32])
        requires { StepsKept self.rows self.columns self.level.now steps.old }
        ensures { steps.new ≡ flat_steps self.entry.rows self.entry.columns self.entry.level.now }
    {
        while self.sweep(steps) {}
    }

    // The steps over flats of every cell, from those that they start from. The queue is scratch; flat cells do not fill it, since no
    // rim cell is one.
    pub(crate) fn measure(self, steps: &mut [u32], queue: &mut [i32])
        requires { steps.old ≡ start_of (flat_stepping self.rows self.columns self.level.now) }
        ensures { steps.new ≡ flat_steps self.entry.rows self.entry.columns self.entry.level.now }
    {
        let shores = self.reach_shores(steps, queue);
        let entries = self.wade(steps, queue, shores);
        if queue.len() <= entries {
            self.settle(steps);
        }
    }
}
