// Rings in a grid of directions that somebody else drew, by peeling (topological sorting, Kahn 1962): a cell is taken once every
// cell that points at it is. Each cell points at one cell at most, so what is left over is exactly the cells on rings.
//
// The search has no memory but the words of the levels. A word is
//
//     level + 2^21 * waits     waits, 0 to 8: so many cells that point here are not taken; 9: the cell is taken
//     0                        NoData
ghost use Rattle.std.specs.Prelude.{◌≡◌, ℕ, ◌+◌, ◌*◌, ◌<◌, length, position};
ghost use Rattle.terrain.specs.Given.{first_ring};
ghost use Rattle.terrain.specs.InnerGiven.{Keeping, cell_below, levels_in, left_word, SameLevels, Counting, Searching, Following};

use crate::cells::shifts_of;
use crate::drawing::Drawing;

// One inflow that a cell waits for, and what a cell that is taken has in its place.
const WAIT: u32 = 1 << 21;

const SHUT: u32 = 9 * WAIT;

// Notes for every valid cell how many cells point at it.
fn await_all(drawing: Drawing, words: &mut [u32])
    requires { Keeping drawing.rows drawing.columns words.old drawing.direction.now }
    ensures { Counting drawing.entry.rows drawing.entry.columns drawing.entry.direction.now words.new (drawing.entry.rows * drawing.entry.columns)
        × SameLevels words.old words.new }
{
    for x in 0..words.len() {
        drawing.await_one(WAIT, words, x);
    }
}

// `take`, `follow` and `begin` have twins in downhill.rt: one generic form, a trait over both states with its laws, is longer.

// Takes the cell x, which waits for none: the cell that it points at waits for one less. That cell, or the number of cells where
// there is none: no Option, since `follow` asks of both at once whether they come after the start.
fn take(drawing: Drawing, words: &mut [u32], place: usize, x: usize) -> usize
    requires { Searching drawing.rows drawing.columns drawing.direction.now words.old place 0 x × (x < drawing.rows * drawing.columns) }
    ensures { ((b hand : ℕ) → Searching drawing.entry.rows drawing.entry.columns drawing.entry.direction.now words.old place b x
        → Following (drawing.entry.rows * drawing.entry.columns) b words.new result hand
        → Searching drawing.entry.rows drawing.entry.columns drawing.entry.direction.now words.new (place + 1) b hand)
        × SameLevels words.old words.new }
{
    words[x] += SHUT;
    let y = drawing.receiver(x);
    if words.len() <= y {
        return y;
    }
    words[y] -= WAIT;
    y
}

// Takes the cells of the trail from the cell in hand, as far as no cell waits. How many are taken then. A cell after the start is
// left for its turn in the grid.
fn follow(drawing: Drawing, words: &mut [u32], place: usize, start: usize) -> usize
    requires { Searching drawing.rows drawing.columns drawing.direction.now words.old place (start + 1) start
        × (start < drawing.rows * drawing.columns) }
    ensures { Searching drawing.entry.rows drawing.entry.columns drawing.entry.direction.now words.new result (start + 1)
        (drawing.entry.rows * drawing.entry.columns) × SameLevels words.old words.new }
{
    let mut at = place;
    let mut x = start;
    loop {
        let y = take(drawing, words, at, x);
        at += 1;
        if start < y {
            return at;
        }
        if WAIT <= words[y] {
            return at;
        }
        x = y;
    }
}

// The same from the cell x, if it is valid and waits for none.
fn begin(drawing: Drawing, words: &mut [u32], place: usize, x: usize) -> usize
    requires { Searching drawing.rows drawing.columns drawing.direction.now words.old place x (drawing.rows * drawing.columns)
        × (x < drawing.rows * drawing.columns) }
    ensures { Searching drawing.entry.rows drawing.entry.columns drawing.entry.direction.now words.new result (x + 1)
        (drawing.entry.rows * drawing.entry.columns) × SameLevels words.old words.new }
{
    if words[x] < 1 {
        return place;
    }
    if WAIT <= words[x] {
        return place;
    }
    follow(drawing, words, place, x)
}

// Takes every cell that is on no ring.
fn peel(drawing: Drawing, words: &mut [u32])
    requires { Counting drawing.rows drawing.columns drawing.direction.now words.old (drawing.rows * drawing.columns) }
    ensures { ((p : ℕ) × Searching drawing.entry.rows drawing.entry.columns drawing.entry.direction.now words.new p
        (drawing.entry.rows * drawing.entry.columns) (drawing.entry.rows * drawing.entry.columns))
        × SameLevels words.old words.new }
{
    let mut place: usize = 0;
    for x in 0..words.len() {
        place = begin(drawing, words, place, x);
    }
}

// The first cell that is left over: it waits, and is not taken.
fn first_left(words: &[u32]) -> Option<usize>
    ensures { result ≡ position left_word words.now }
{
    words
        .iter()
        .position(|word| (WAIT <= *word) & (*word < SHUT))
}

// Leaves the level alone in every word.
fn restore(words: &mut [u32])
    ensures { words.new ≡ levels_in words.old }
{
    for word in words.iter_mut() {
        *word %= WAIT;
    }
}

// The first cell in row order on a ring. The levels are scratch, and as they were.
pub(crate) fn first_on_ring(
    rows: usize,
    columns: usize,
    direction: &[u8],
    level: &mut [u32],
) -> Option<usize>
    requires { Keeping rows columns level.old direction.now }
    ensures { (result ≡ cell_below (rows * columns) (first_ring rows columns direction.now)) × (level.new ≡ level.old) }
{
    let shifts = shifts_of(columns);
    let drawing = Drawing {
        rows,
        columns,
        shifts: &shifts,
        direction,
    };
    await_all(drawing, level);
    peel(drawing, level);
    let found = first_left(level);
    restore(level);
    found
}
