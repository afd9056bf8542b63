// Directions: the steepest lower neighbour of eight (D8, O'Callaghan and Mark 1984); over flats the first neighbour that is
// one step nearer. RULES 4.
ghost use Rattle.std.specs.Prelude.{◌≡◌, ◌+◌, ◌*◌, ◌<◌, ◌≤◌, true, not, ◌&&◌, length, if◌then◌else◌, ◌==◌, nat_eq, nat_lt, slice_index};
ghost use Rattle.laws.specs.Lists.{tab};
ghost use Rattle.terrain.specs.Cells.{neighbour, code_of};
ghost use Rattle.terrain.specs.InnerCells.{Inside, RunsTo};
ghost use Rattle.terrain.specs.Flat.{far_steps, flat_steps};
ghost use Rattle.terrain.specs.Direction.{directions_of};
ghost use Rattle.terrain.specs.Falls.{no_fall, falls_of};
ghost use Rattle.terrain.specs.Filled.{top};
ghost use Rattle.terrain.specs.InnerLevels.{open_at, drop_of, key_of, bearing_key, Chosen, down_at, FallTo, Down};

use crate::cells::{beside, near, run_end, value_at};
use crate::flat::FAR;
use crate::surface::Surface;

// The code of a NoData cell, and its fall.
pub(crate) const NO_CODE: u8 = 255;

pub(crate) const NO_FALL: u32 = u32::MAX;

// The code of bearing k.
pub(crate) fn code_of(k: usize) -> u8
    requires { k < 8 }
    ensures { result ≡ code_of k }
{
    match k {
        0 => 1,
        1 => 2,
        2 => 4,
        3 => 8,
        4 => 16,
        5 => 32,
        6 => 64,
        _ => 128,
    }
}

// The drop from level v to level w; 0 where w is not lower, or is no neighbour's.
fn drop_of(v: u32, w: u32) -> u32
    ensures { result ≡ drop_of v w }
{
    if w < 1 {
        return 0;
    }
    if v <= w {
        return 0;
    }
    v - w
}

// The key of the drop from level v to level w at bearing k: greater for a greater drop, and of equal drops for an earlier bearing.
fn key_of(v: u32, w: u32, k: usize) -> u32
    requires { (v ≤ top) × (k < 8) }
    ensures { result ≡ key_of v w k }
{
    drop_of(v, w) * 256 + (255 - u32::from(code_of(k)))
}

// The code of a cell, but for flats, and its fall.
#[derive(Clone, Copy)]
struct Fall {
    code: u8,
    fall: u32,
}

impl Fall {
    // The steeper of the bearings of the greatest cardinal and the greatest diagonal key.
    fn chosen(cardinal: u32, diagonal: u32) -> Fall
        requires { (cardinal < 536870912) × (diagonal < 536870912) }
        ensures { Chosen cardinal diagonal result }
    {
        let c = u64::from(cardinal / 256);
        let d = u64::from(diagonal / 256);
        let straight = d * d <= 2 * (c * c);
        let key = if straight { cardinal } else { diagonal };
        Fall {
            code: (255 - key % 256) as u8,
            fall: key / 256 * 2 + u32::from(!straight),
        }
    }

    // This, or what stands for a NoData cell where the level v is that of one.
    fn at(self, v: u32) -> Fall
        ensures { (result.code ≡ (if nat_lt 0 v then self.code else 255)) × (result.fall ≡ (if nat_lt 0 v then self.fall else no_fall)) }
    {
        if v < 1 {
            return Fall {
                code: NO_CODE,
                fall: NO_FALL,
            };
        }
        self
    }
}

// The steps over flats that a cell of this code starts from: far if no neighbour is lower and it is no rim cell, else 0.
fn start_steps(code: u8, rim: bool) -> u32
    ensures { result ≡ (if nat_eq code 0 && not rim then far_steps else 0) }
{
    if (code == 0) & !rim { FAR } else { 0 }
}

impl Surface<'_> {
    // The level of the neighbour at bearing k of a cell x that is inside, or not; 0 where there is none.
    fn level_beside<const INSIDE: bool>(self, x: usize, k: usize) -> u32
        requires { (x < self.rows * self.columns) × (k < 8) × (INSIDE ≡ true → Inside self.rows self.columns x) }
        ensures { result ≡ slice_index self.entry.level.now (neighbour self.entry.rows self.entry.columns x k) }
    {
        let level = self.level;
        if INSIDE {
            return level[beside(self.columns, x, k)];
        }
        value_at(level, near(self.rows, self.columns, x, k))
    }

    // Whether a cell x that is inside, or not, has a neighbour with no data or past the edge of the grid.
    pub(crate) fn is_open<const INSIDE: bool>(self, x: usize) -> bool
        requires { (x < self.rows * self.columns) × (INSIDE ≡ true → Inside self.rows self.columns x) }
        ensures { result ≡ open_at self.entry.rows self.entry.columns self.entry.level.now x 8 }
    {
        let mut found = false;
        // Not `any`, so that a run of cells has no branch here.
        for k in 0..8 {
            found |= self.level_beside::<INSIDE>(x, k) < 1;
        }
        found
    }

    // The key of bearing k of a cell x that is inside, or not.
    fn key_at<const INSIDE: bool>(self, x: usize, k: usize) -> u32
        requires { (x < self.rows * self.columns) × (k < 8) × (INSIDE ≡ true → Inside self.rows self.columns x) }
        ensures { result ≡ bearing_key self.entry.rows self.entry.columns self.entry.level.now x k }
    {
        key_of(self.level[x], self.level_beside::<INSIDE>(x, k), k)
    }

    // The code, but for flats, and the fall of a cell x that is inside, or not.
    fn fall_at<const INSIDE: bool>(self, x: usize) -> Fall
        requires { (x < self.rows * self.columns) × (INSIDE ≡ true → Inside self.rows self.columns x) }
        ensures { FallTo self.entry.rows self.entry.columns self.entry.level.now x result }
    {
        let mut cardinal: u32 = 255;
        let mut diagonal: u32 = 255;
        for i in 0..4 {
            cardinal = cardinal.max(self.key_at::<INSIDE>(x, 2 * i));
            diagonal = diagonal.max(self.key_at::<INSIDE>(x, 2 * i + 1));
        }
        Fall::chosen(cardinal, diagonal).at(self.level[x])
    }

    // Writes the codes, but for flats, the falls and the first steps of a run of cells that are inside.
    fn point_run(
        self,
        direction: &mut [u8],
        falls: &mut [u32],
        steps: &mut [u32],
        from: usize,
        to: usize,
    )
        requires { RunsTo self.rows self.columns from to × (length direction.old ≡ self.rows * self.columns)
            × (length falls.old ≡ self.rows * self.columns) × (length steps.old ≡ self.rows * self.columns)
            × Down self.rows self.columns self.level.now direction.old falls.old steps.old from }
        ensures { Down self.entry.rows self.entry.columns self.entry.level.now direction.new falls.new steps.new to }
    {
        for x in from..to {
            let fall = self.fall_at::<true>(x);
            direction[x] = fall.code;
            falls[x] = fall.fall;
            steps[x] = start_steps(fall.code, self.is_open::<true>(x));
        }
    }

    // Writes the code of every cell, but for flats, its fall and the steps over flats that it starts from.
    fn point_down(self, direction: &mut [u8], falls: &mut [u32], steps: &mut [u32])
        requires { (length direction.old ≡ self.rows * self.columns) × (length falls.old ≡ self.rows * self.columns)
            × (length steps.old ≡ self.rows * self.columns) }
        ensures { Down self.entry.rows self.entry.columns self.entry.level.now direction.new falls.new steps.new
            (self.entry.rows * self.entry.columns) }
    {
        let mut x: usize = 0;
        // A `while`, since a turn takes a whole run of cells.
        while x < direction.len() {
            let end = run_end(self.rows, self.columns, x);
            self.point_run(direction, falls, steps, x, end);
            let fall = self.fall_at::<false>(end);
            direction[end] = fall.code;
            falls[end] = fall.fall;
            steps[end] = start_steps(fall.code, self.is_open::<false>(end));
            x = end + 1;
        }
    }

    // Whether the neighbour y of a cell of level v has the same level and d steps.
    fn is_nearer(self, steps: &[u32], v: u32, d: u32, y: usize) -> bool
        requires { (y < self.rows * self.columns) × (y < length steps.now) }
        ensures { result ≡ (slice_index steps.now y == d && slice_index self.entry.level.now y == v) }
    {
        if steps[y] != d {
            return false;
        }
        self.level[y] == v
    }

    // Points every flat cell at its first neighbour of the same level that is one step nearer. All its neighbours are on the grid.
    fn point_flats(self, steps: &[u32], direction: &mut [u8])
        requires { (steps.now ≡ flat_steps self.rows self.columns self.level.now)
            × (direction.old ≡ tab (self.rows * self.columns) (down_at self.rows self.columns self.level.now)) }
        ensures { direction.new ≡ directions_of self.entry.rows self.entry.columns self.entry.level.now }
    {
        for x in 0..direction.len() {
            if 0 < steps[x] {
                let v = self.level[x];
                let d = steps[x] - 1;
                // The papers name this form: a loop over eight codes inside a sweep, yielding its code by break.
                direction[x] = 'codes: {
                    for k in 0..8 {
                        if self.is_nearer(steps, v, d, beside(self.columns, x, k)) {
                            break 'codes code_of(k);
                        }
                    }
                    0
                };
            }
        }
    }

    // Writes the direction and the fall of every cell; `steps` and `queue` are scratch.
    pub(crate) fn point(
        self,
        direction: &mut [u8],
        falls: &mut [u32],
        steps: &mut [u32],
        queue: &mut [i32],
    )
        requires { (length direction.old ≡ self.rows * self.columns) × (length falls.old ≡ self.rows * self.columns)
            × (length steps.old ≡ self.rows * self.columns) }
        ensures { (direction.new ≡ directions_of self.entry.rows self.entry.columns self.entry.level.now)
            × (falls.new ≡ falls_of self.entry.rows self.entry.columns self.entry.level.now
            (directions_of self.entry.rows self.entry.columns self.entry.level.now)) }
    {
        self.point_down(direction, falls, steps);
        self.measure(steps, queue);
        self.point_flats(steps, direction);
    }
}
