// A grid of directions along which every trail stays on valid cells, and the shifts of its neighbours, worked out once.
ghost use Rattle.std.specs.Prelude.{◌≡◌, ◌+◌, ◌*◌, ◌<◌, true, not, length, ◌==◌, if◌then◌else◌, slice_index, slice_set};
ghost use Rattle.laws.specs.Lists.{tab};
ghost use Rattle.terrain.specs.Cells.{Shifts};
ghost use Rattle.terrain.specs.Trail.{mapped_at, receiver_of};
ghost use Rattle.terrain.specs.InnerTrail.{Drawn};

use crate::cells::shifted;
use crate::direction::NO_CODE;

#[derive(Clone, Copy)]
pub(crate) struct Drawing<'a> {
    pub(crate) rows: usize,
    pub(crate) columns: usize,
    pub(crate) shifts: &'a [usize; 8],
    pub(crate) direction: &'a [u8],
    ghost drawn: { Drawn rows columns direction.now },
    ghost placed: { Shifts columns shifts.now },
}

impl Drawing<'_> {
    // The cell that the valid cell x points at; the number of cells where it points nowhere. No Option: every caller tests it against
    // the end of its slice, and a `None` would be one more test in each hot loop.
    pub(crate) fn receiver(self, x: usize) -> usize
        requires { mapped_at self.rows self.columns self.direction.now x ≡ true }
        ensures { result ≡ receiver_of self.entry.rows self.entry.columns self.entry.direction.now x }
    {
        let k = u8::trailing_zeros(self.direction[x]) as usize;
        if 8 <= k {
            return self.rows * self.columns;
        }
        shifted(self.columns, self.shifts, x, k)
    }

    // Sets the number of every valid cell, and that of every other.
    pub(crate) fn mark(self, valid: u32, none: u32, numbers: &mut [u32])
        requires { length numbers.old ≡ self.rows * self.columns }
        ensures { numbers.new ≡ tab (self.entry.rows * self.entry.columns)
            (λ x. if mapped_at self.entry.rows self.entry.columns self.entry.direction.now x then valid else none) }
    {
        for x in 0..numbers.len() {
            numbers[x] = either(self.direction[x], valid, none);
        }
    }

    // Lets the cell that the cell x points at, if x is valid, wait for it: adds what one inflow counts to its number.
    pub(crate) fn await_one(self, one: u32, numbers: &mut [u32], x: usize)
        requires { (x < self.rows * self.columns) × (length numbers.old ≡ self.rows * self.columns)
            × (receiver_of self.rows self.columns self.direction.now x < self.rows * self.columns
            → slice_index numbers.old (receiver_of self.rows self.columns self.direction.now x) + one < 4294967296) }
        ensures { numbers.new ≡ slice_set numbers.old (receiver_of self.entry.rows self.entry.columns self.entry.direction.now x)
            (slice_index numbers.old (receiver_of self.entry.rows self.entry.columns self.entry.direction.now x) + one) }
    {
        if self.direction[x] == NO_CODE {
            return;
        }
        hand_on(numbers, one, self.receiver(x));
    }
}

// The number of a cell with this code: that of a valid one, or that of none.
fn either(code: u8, valid: u32, none: u32) -> u32
    ensures { result ≡ (if not (code == 255) then valid else none) }
{
    if code == NO_CODE { none } else { valid }
}

// Adds an amount to the number of y, if that is a cell.
pub(crate) fn hand_on(numbers: &mut [u32], amount: u32, y: usize)
    requires { y < length numbers.old → slice_index numbers.old y + amount < 4294967296 }
    ensures { numbers.new ≡ slice_set numbers.old y (slice_index numbers.old y + amount) }
{
    if y < numbers.len() {
        numbers[y] += amount;
    }
}
