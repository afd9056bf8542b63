// The heights of a map that was accepted, with its rows and columns.
ghost use Rattle.std.specs.Prelude.{◌≡◌, ◌<◌, length, slice_index};
ghost use Rattle.terrain.specs.Cells.{levels_of};
ghost use Rattle.terrain.specs.InnerCells.{Ready, fine-prop};
ghost use Rattle.std.proofs.Props.{props};

// A level is a height plus this, so that NoData is 0.
pub(crate) const DATUM: i32 = 999900;

#[derive(Clone, Copy)]
pub(crate) struct Ground<'a> {
    pub(crate) rows: usize,
    pub(crate) columns: usize,
    pub(crate) elevation: &'a [i32],
    ghost ready: { Ready rows columns elevation.now } by { Prim.hlevel (props, fine-prop) },
}

impl Ground<'_> {
    // The level of the ground at the cell x.
    pub(crate) fn level_at(self, x: usize) -> u32
        requires { x < length self.elevation.now }
        ensures { result ≡ slice_index (levels_of self.entry.elevation.now) x }
    {
        (self.elevation[x] + DATUM) as u32
    }
}
