// Directions that somebody else drew: the tests of refusals 17 and 18, which touch nothing but the levels, and the falls along them.
// RULES 4.7.
ghost use Rattle.std.specs.Prelude.{◌≡◌, ◌*◌, ◌<◌, length};
ghost use Rattle.terrain.specs.Falls.{fall_at, falls_of};
ghost use Rattle.terrain.specs.Given.{kept_at, first_broken, given_tests};
ghost use Rattle.terrain.specs.InnerLevels.{Levels};
ghost use Rattle.terrain.specs.InnerGiven.{Keeping, cell_below};
ghost use Rattle.terrain.specs.InnerAnswers.{found};
ghost use Rattle.laws.specs.Tests.{verdict};

use crate::cells::{near, shifts_of, value_at};
use crate::direction::{NO_CODE, NO_FALL, code_of};
use crate::drawing::Drawing;
use crate::ring::first_on_ring;
use crate::surface::Surface;
use text::{Fault, Refusal};

impl Surface<'_> {
    // Whether the code of the cell x keeps the rules of refusal 17.
    fn is_kept(self, direction: &[u8], x: usize) -> bool
        requires { (length direction.now ≡ self.rows * self.columns) × (x < self.rows * self.columns) }
        ensures { result ≡ kept_at self.entry.rows self.entry.columns self.entry.level.now direction.now x }
    {
        let level = self.level;
        let code = direction[x];
        let v = level[x];
        if v < 1 {
            return code == NO_CODE;
        }
        if code == 0 {
            return self.is_open::<false>(x);
        }
        let k = code.trailing_zeros() as usize;
        if 8 <= k {
            return false;
        }
        if code != code_of(k) {
            return false;
        }
        let w = value_at(level, near(self.rows, self.columns, x, k));
        (0 < w) & (w <= v)
    }

    // The first cell whose code breaks one of them.
    pub(crate) fn first_broken(self, direction: &[u8]) -> Option<usize>
        requires { length direction.now ≡ self.rows * self.columns }
        ensures { result ≡ cell_below (self.entry.rows * self.entry.columns)
            (first_broken self.entry.rows self.entry.columns self.entry.level.now direction.now) }
    {
        for x in 0..direction.len() {
            if !self.is_kept(direction, x) {
                return Some(x);
            }
        }
        None
    }

    // Writes the fall of every cell.
    pub(crate) fn write_falls(self, direction: &[u8], falls: &mut [u32])
        requires { Keeping self.rows self.columns self.level.now direction.now × (length falls.old ≡ self.rows * self.columns) }
        ensures { falls.new ≡ falls_of self.entry.rows self.entry.columns self.entry.level.now direction.now }
    {
        let shifts = shifts_of(self.columns);
        let drawing = Drawing {
            rows: self.rows,
            columns: self.columns,
            shifts: &shifts,
            direction,
        };
        for x in 0..falls.len() {
            falls[x] = fall_along(drawing, self.level, x);
        }
    }
}

// Makes the tests of refusals 17 and 18, in that order. The levels are scratch, and as they were.
pub(crate) fn judge(
    rows: usize,
    columns: usize,
    direction: &[u8],
    level: &mut [u32],
) -> Result<(), Refusal>
    requires { Levels rows columns level.old × (length direction.now ≡ rows * columns) }
    ensures { (found result ≡ verdict (given_tests rows columns level.old direction.now))
        × (level.new ≡ level.old) }
{
    let surface = Surface {
        rows,
        columns,
        level,
    };
    if let Some(x) = surface.first_broken(direction) {
        return Err(Refusal {
            fault: Fault::Direction,
            place: x,
        });
    }
    if let Some(x) = first_on_ring(rows, columns, direction, level) {
        return Err(Refusal {
            fault: Fault::Ring,
            place: x,
        });
    }
    Ok(())
}

// The fall of the cell x along its direction.
fn fall_along(drawing: Drawing, level: &[u32], x: usize) -> u32
    requires { Keeping drawing.rows drawing.columns level.now drawing.direction.now × (x < drawing.rows * drawing.columns) }
    ensures { result ≡ fall_at drawing.entry.rows drawing.entry.columns level.now drawing.entry.direction.now x }
{
    let code = drawing.direction[x];
    if code == NO_CODE {
        return NO_FALL;
    }
    let y = drawing.receiver(x);
    if level.len() <= y {
        return 0;
    }
    let drop = level[x] - level[y];
    if drop < 1 {
        return 0;
    }
    2 * drop + code.trailing_zeros() % 2
}
