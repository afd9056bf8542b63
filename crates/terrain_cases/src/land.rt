// The large fields, whose heights are worked out cell by cell: spirals, comb, plane, bowl, strips and noise.
ghost use Rattle.std.specs.Prelude.{◌≡◌, pos, ◌≤◌, ◌<◌};

use crate::drawn;
use crate::show::{MOST, field};
use crate::spiral::Spot;
use std::io;
use text::NO_DATA;

// The kinds of field: drawn by a picture, or worked out from a cell's row and column, its index, or its seed.
#[derive(Clone, Copy)]
pub(crate) enum Land<'a> {
    Drawn(&'a [u8]),
    SpiralOut,
    SpiralIn,
    Comb,
    Plane,
    Bowl,
    Noise,
    WideNoise,
    StepNoise,
    Fall,
}

// A field of a kind.
#[derive(Clone, Copy)]
pub(crate) struct Field<'a> {
    pub(crate) name: &'a str,
    pub(crate) land: Land<'a>,
    pub(crate) rows: usize,
    pub(crate) columns: usize,
}

pub(crate) const SHAPES: &[Field] = &[
    Field {
        name: "spiral outwards",
        land: Land::SpiralOut,
        rows: 40,
        columns: 40,
    },
    Field {
        name: "spiral inwards",
        land: Land::SpiralIn,
        rows: 40,
        columns: 40,
    },
    Field {
        name: "comb",
        land: Land::Comb,
        rows: 40,
        columns: 40,
    },
    Field {
        name: "plane",
        land: Land::Plane,
        rows: 40,
        columns: 40,
    },
    Field {
        name: "bowl",
        land: Land::Bowl,
        rows: 40,
        columns: 40,
    },
];

pub(crate) const STRIPS_AND_NOISE: &[Field] = &[
    Field {
        name: "falling strip",
        land: Land::Fall,
        rows: 1,
        columns: 1024,
    },
    Field {
        name: "noise",
        land: Land::Noise,
        rows: 40,
        columns: 40,
    },
    Field {
        name: "noise of all heights",
        land: Land::WideNoise,
        rows: 30,
        columns: 20,
    },
    Field {
        name: "noise and NoData",
        land: Land::StepNoise,
        rows: 20,
        columns: 30,
    },
    Field {
        name: "strip and NoData",
        land: Land::StepNoise,
        rows: 1024,
        columns: 1,
    },
];

impl Field<'_> {
    // Maps the field.
    pub(crate) fn show(self, rt: &impl Print) -> io::Result<()> {
        let mut heights = [0; MOST];
        let ground = &mut heights[..self.cells()];
        self.land.shape(self.columns, ground);
        field(rt, self.name, self.rows, self.columns, ground)
    }

    pub(crate) fn cells(self) -> usize
        ensures { result ≤ MOST }
    {
        self.rows.saturating_mul(self.columns).min(MOST)
    }
}

impl Land<'_> {
    // Gives each cell its height. The seeds of noise are a linear congruence of 32 bits.
    pub(crate) fn shape(self, columns: usize, ground: &mut [i32]) {
        let mut seed: u32 = 1;
        for (x, height) in ground.iter_mut().enumerate() {
            seed = seed.wrapping_mul(1664525).wrapping_add(1013904223);
            *height = self.height(x, columns, seed as usize);
        }
    }

    fn height(self, x: usize, columns: usize, seed: usize) -> i32 {
        if columns == 0 {
            return NO_DATA;
        }
        let spot = Spot {
            row: x / columns % 40,
            column: x % columns % 40,
        };
        match self {
            Land::Drawn(picture) => drawn::height(picture, x),
            Land::SpiralOut => cm(spot.falling_outwards()),
            Land::SpiralIn => cm(spot.falling_inwards()),
            Land::Comb => cm(spot.comb()),
            Land::Plane => cm(100 * spot.column + 42 * spot.row),
            Land::Bowl => cm(spot.bowl()),
            Land::Noise => cm(seed / 65536 % 1000),
            Land::WideNoise => signed(seed / 4096 % 950001),
            Land::StepNoise => step_noise(seed / 65536 % 64),
            Land::Fall => cm(6000 - x % 1024 * 5),
        }
    }
}

// A height of so many cm.
fn cm(n: usize) -> i32
    requires { n ≤ 900000 }
    ensures { result ≡ pos n }
{
    n as i32
}

// The heights from -1 down to -50,000, then those from 0 to 900,000.
fn signed(n: usize) -> i32
    requires { n ≤ 950000 }
{
    if n < 50000 { -1 - cm(n) } else { cm(n - 50000) }
}

// Eight heights, with NoData here and there.
fn step_noise(n: usize) -> i32
    requires { n < 64 }
{
    if n < 3 { NO_DATA } else { cm(n % 8 * 100) }
}

impl Spot {
    // Teeth in the odd columns and a spine in row 38 that falls to its mouth at the east edge; each third tooth falls away
    // from the spine.
    fn comb(self) -> usize
        ensures { result ≤ 3000 }
    {
        if self.row == 38 {
            return if self.column == 0 {
                3000
            } else {
                1000 - self.column * 15
            };
        }
        if self.row % 39 == 0 {
            return 3000;
        }
        if self.column == 39 {
            return 3000;
        }
        if self.column % 2 == 0 {
            return 3000;
        }
        if self.column % 3 == 0 {
            return 300 + self.row * 5;
        }
        1190 - self.row * 5
    }

    // The deeper the further in, with a notch in the east edge.
    fn bowl(self) -> usize
        ensures { result ≤ 9000 }
    {
        if self.row == 17 {
            if 37 <= self.column {
                return 8000;
            }
        }
        9000 - self.ring() * 450
    }
}
