// A cell's row and column in a grid of 40 by 40, and the heights of two spirals there: one long channel between walls,
// which falls to its mouth at the edge or to the middle.
ghost use Rattle.std.specs.Prelude.{◌≤◌, ◌<◌, ◌+◌};

#[derive(Clone, Copy)]
pub(crate) struct Spot {
    pub(crate) row: usize,
    pub(crate) column: usize,
    ghost row_bound: { row < 40 },
    ghost column_bound: { column < 40 },
}

impl Spot {
    // The odd rings are channel, higher and higher inwards, and the even ones wall, but for one cell of each ring, just
    // below its north-west corner: there a wall has a gap and the channel stops. So one channel winds from its mouth at the
    // west edge to the middle.
    pub(crate) fn falling_outwards(self) -> usize
        ensures { result ≤ 5000 }
    {
        let ring = self.ring();
        if self.column == ring {
            if self.row == ring + 1 {
                return if ring % 2 == 0 { ring * 75 + 74 } else { 5000 };
            }
        }
        if ring % 2 == 0 {
            return 5000;
        }
        ring * 75 + self.around(ring)
    }

    pub(crate) fn falling_inwards(self) -> usize
        ensures { result ≤ 5000 }
    {
        let height = self.falling_outwards();
        if height < 2000 {
            return 2000 - height;
        }
        height
    }

    // The rings of a 40 by 40 grid are counted from its edge, 0, to its middle, 19.
    pub(crate) fn ring(self) -> usize
        ensures upper_bound { result ≤ self.row }
        ensures upper_bound_2 { result ≤ self.column }
        ensures row_bound_2 { result + self.row ≤ 39 }
        ensures column_bound_2 { result + self.column ≤ 39 }
    {
        let Spot { row, column } = self;
        row.min(39 - row).min(column.min(39 - column))
    }

    // The steps along a ring, clockwise from its north-west corner.
    fn around(self, ring: usize) -> usize
        requires ring_le_row { ring ≤ self.row }
        requires ring_le_column { ring ≤ self.column }
        requires row_bound { ring + self.row ≤ 39 }
        requires column_bound { ring + self.column ≤ 39 }
        ensures { result ≤ 160 }
    {
        let last = 39 - ring;
        let side = last - ring;
        if self.row == ring {
            return self.column - ring;
        }
        if self.column == last {
            return side + (self.row - ring);
        }
        if self.row == last {
            return side * 2 + (last - self.column);
        }
        side * 3 + (last - self.row)
    }
}
