// The flood's words, one for each cell, and lists of the cells that wait in the order of their levels: a two-level bucket
// queue whose links stand in the words themselves. A word is
//
//     a level, below 1,900,000       the cell is done (NoData is 0)
//     2^30 + level                   fresh: the flood has not come here yet, and this is the level of its ground
//     2^31 + low * 2^21 + link       queued: the last ten bits of its level, and the next cell of its list plus one, or 0
//
// Lists 0 to 1,023 are of bands of 1,024 levels; lists 1,024 to 2,047 are of the single levels of the band that is being emptied.
// Which cells wait where is not proved: it decides only how fast the flood is.
ghost use Rattle.std.specs.Prelude.{◌≡◌, ◌*◌, ◌<◌, ◌≤◌, min, length, if◌then◌else◌, nat_lt, slice_index, IfSome};
ghost use Rattle.terrain.specs.InnerCells.{Around};
ghost use Rattle.terrain.specs.Filled.{top};
ghost use Rattle.terrain.specs.InnerFlood.{Queueing, OnLine, Rimming, queued_from, level_in};

use crate::cells::{around, value_at};
use crate::ground::Ground;

const FRESH: u32 = 1073741824;

const QUEUED: u32 = 2147483648;

const LINKS: u32 = 2097152;

// The word that a cell with this level of ground starts from.
pub(crate) fn start_word(g: u32) -> u32
    requires { g < top }
    ensures { (min result top ≡ (if nat_lt 0 g then top else 0)) × (result < 2147483648) }
{
    if g < 1 { 0 } else { FRESH + g }
}

// The head of a list: its first cell plus one, or 0.
#[derive(Clone, Copy)]
pub(crate) struct Head {
    first: u32,
    ghost small: { first < 2097152 },
}

impl Head {
    // Puts the cell x, which is not done, at the front of the list. The remainder is x + 1 on every grid; with it no contract has to
    // bound the words' length.
    fn push(&mut self, words: &mut [u32], level: u32, x: usize)
        requires { top ≤ slice_index words.old x }
        ensures { Queueing (λ z. z ≡ x) words.old words.new }
    {
        words[x] = QUEUED + level % 1024 * LINKS + self.first;
        self.first = ((x + 1) % LINKS as usize) as u32;
    }

    pub(crate) fn is_empty(self) -> bool {
        self.first < 1
    }

    // Takes the first cell off the list, if there is one.
    pub(crate) fn pop(&mut self, words: &[u32]) -> Option<usize>
        ensures { IfSome result (λ x. queued_from ≤ slice_index words.now x) }
    {
        let x = (self.first as usize).checked_sub(1)?;
        let word = *words.get(x)?;
        if word < QUEUED {
            return None;
        }
        self.first = word % LINKS;
        Some(x)
    }
}

// The band of a level: 949,900, the lowest of a valid cell, is in band 0.
fn band_of(level: u32) -> usize
    ensures { result < 1024 }
{
    ((level / 1024 + 97) % 1024) as usize
}

// The list of a level, while the given band is being emptied.
fn list_of(level: u32, band: usize) -> usize
    ensures { result < 2048 }
{
    let own = band_of(level);
    if own == band {
        return 1024 + (level % 1024) as usize;
    }
    own
}

// The level of a list, while the given band is being emptied.
pub(crate) fn level_of(band: usize, list: usize) -> u32
    requires { (band < 1024) × (list < 2048) }
    ensures { result ≡ level_in band list }
{
    ((band + 926) * 1024 + list) as u32
}

// The lists. They don't hold the words and the ground too: each method would have to promise that it kept the same ones. A band is a
// number, with 1,024 for none, and no type of its own: the loops count bands, and an Option would be one more test for each cell.
#[derive(Drop)]
pub(crate) struct Lists {
    pub(crate) heads: [Head; 2048],
}

impl Lists {
    pub(crate) fn new() -> Self {
        Lists {
            heads: [Head { first: 0 }; 2048],
        }
    }

    // Moves the cells of a band's list to the lists of their levels.
    pub(crate) fn open_band(&mut self, words: &mut [u32], band: usize)
        requires { band < 1024 }
        ensures { Queueing (λ z. ⊥) words.old words.new }
    {
        'turns: for _ in 0..words.len() {
            let Some(x) = self.heads[band].pop(words) else {
                return;
            };
            let low = words[x] / LINKS % 1024;
            self.heads[1024 + low as usize].push(words, low, x);
        }
    }

    // Queues the cell y, if it is fresh, at the level that its ground and a neighbour of level h allow.
    fn reach(&mut self, words: &mut [u32], band: usize, h: u32, y: usize)
        ensures { Queueing (λ z. z ≡ y) words.old words.new }
    {
        let word = value_at(words, y);
        if word < FRESH {
            return;
        }
        if QUEUED <= word {
            return;
        }
        let level = h.max(word - FRESH);
        self.heads[list_of(level, band)].push(words, level, y);
    }

    // Reaches the neighbours of the cell x of level h. Past the edge of the grid these are cells of the edge, which have been reached
    // before.
    pub(crate) fn spread(
        &mut self,
        ground: Ground,
        words: &mut [u32],
        band: usize,
        h: u32,
        x: usize,
    )
        requires { (length words.old ≡ ground.rows * ground.columns) × (x < length words.old) }
        ensures { Queueing (Around ground.entry.columns x) words.old words.new }
    {
        for k in 0..8 {
            self.reach(words, band, h, around(ground.columns, x, k));
        }
    }

    // Reaches every step-th cell of those from `from` up to `to`.
    fn reach_line(&mut self, words: &mut [u32], from: usize, step: usize, to: usize)
        requires { 0 < step }
        ensures { Queueing (OnLine from step to) words.old words.new }
    {
        for y in (from..to).step_by(step) {
            self.reach(words, 1024, 0, y);
        }
    }

    // Reaches the cells of the edge.
    fn reach_edge(&mut self, ground: Ground, words: &mut [u32])
        ensures { Rimming ground.entry.columns words.old words.new }
    {
        let columns = ground.columns;
        let cells = words.len();
        if cells < columns {
            return;
        }
        self.reach_line(words, 0, 1, columns);
        self.reach_line(words, cells - columns, 1, cells);
        self.reach_line(words, 0, columns, cells);
        self.reach_line(words, columns - 1, columns, cells);
    }

    // Reaches the neighbours of the cell x, if that has no data.
    fn reach_from(&mut self, ground: Ground, words: &mut [u32], x: usize)
        requires { (length words.old ≡ ground.rows * ground.columns) × (x < length words.old) }
        ensures { Rimming ground.entry.columns words.old words.new }
    {
        if 0 < words[x] {
            return;
        }
        self.spread(ground, words, 1024, 0, x);
    }

    // Reaches every rim cell: those of the edge, then those beside NoData.
    pub(crate) fn reach_rims(&mut self, ground: Ground, words: &mut [u32])
        requires { length words.old ≡ ground.rows * ground.columns }
        ensures { Rimming ground.entry.columns words.old words.new }
    {
        self.reach_edge(ground, words);
        for x in 0..words.len() {
            self.reach_from(ground, words, x);
        }
    }
}
