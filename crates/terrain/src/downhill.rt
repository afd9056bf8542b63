// The valid cells in an order from the ridges down, by peeling (topological sorting, Kahn 1962): a cell is taken once every
// cell that points at it is. No trail is a ring, so every cell's turn comes.
ghost use Rattle.std.specs.Prelude.{◌≡◌, ℕ, ◌+◌, ◌*◌, ◌<◌, length};
ghost use Rattle.terrain.specs.InnerTrail.{Directed};
ghost use Rattle.terrain.specs.Downhill.{Downhill};
ghost use Rattle.terrain.specs.InnerDownhill.{Awaiting, Peeled, Onward};

use crate::drawing::Drawing;

// What a cell that is not to be taken, or not again, waits for.
const SHUT: u32 = 4294967295;

// Notes for every valid cell how many cells point at it, and shuts the others.
fn await_all(drawing: Drawing, waiting: &mut [u32])
    requires { length waiting.old ≡ drawing.rows * drawing.columns }
    ensures { Awaiting drawing.entry.rows drawing.entry.columns drawing.entry.direction.now waiting.new (drawing.entry.rows * drawing.entry.columns) }
{
    drawing.mark(0, SHUT, waiting);
    for x in 0..waiting.len() {
        drawing.await_one(1, waiting, x);
    }
}

// Takes the cell x at a place of the order: the cell that it points at waits for one less. That cell.
fn take(drawing: Drawing, waiting: &mut [u32], order: &mut [u32], place: usize, x: usize) -> usize
    requires { Peeled drawing.rows drawing.columns drawing.direction.now order.old waiting.old place 0 x × (x < drawing.rows * drawing.columns) }
    ensures { (b hand : ℕ) → Peeled drawing.entry.rows drawing.entry.columns drawing.entry.direction.now order.old waiting.old place b x
        → Onward (drawing.entry.rows * drawing.entry.columns) b waiting.new result hand
        → Peeled drawing.entry.rows drawing.entry.columns drawing.entry.direction.now order.new waiting.new (place + 1) b hand }
{
    order[place] = x as u32;
    waiting[x] = SHUT;
    let y = drawing.receiver(x);
    if waiting.len() <= y {
        return y;
    }
    waiting[y] -= 1;
    y
}

// Takes the cells of the trail from the cell in hand, as far as no cell waits. The next place of the order. A cell after the start
// is left for its turn in the grid, so that the order goes by rows as far as it can and what lies together is worked on together.
// It returns where a cell waits, so that the processor can foresee the next cell without what that waits for.
fn follow(
    drawing: Drawing,
    waiting: &mut [u32],
    order: &mut [u32],
    place: usize,
    start: usize,
) -> usize
    requires { Peeled drawing.rows drawing.columns drawing.direction.now order.old waiting.old place (start + 1) start
        × (start < drawing.rows * drawing.columns) }
    ensures { Peeled drawing.entry.rows drawing.entry.columns drawing.entry.direction.now order.new waiting.new result (start + 1)
        (drawing.entry.rows * drawing.entry.columns) }
{
    let mut at = place;
    let mut x = start;
    loop {
        let y = take(drawing, waiting, order, at, x);
        at += 1;
        if start < y {
            return at;
        }
        if 0 < waiting[y] {
            return at;
        }
        x = y;
    }
}

// The same from the cell x, if it waits for none.
fn begin(drawing: Drawing, waiting: &mut [u32], order: &mut [u32], place: usize, x: usize) -> usize
    requires { Peeled drawing.rows drawing.columns drawing.direction.now order.old waiting.old place x (drawing.rows * drawing.columns)
        × (x < drawing.rows * drawing.columns) }
    ensures { Peeled drawing.entry.rows drawing.entry.columns drawing.entry.direction.now order.new waiting.new result (x + 1)
        (drawing.entry.rows * drawing.entry.columns) }
{
    if 0 < waiting[x] {
        return place;
    }
    follow(drawing, waiting, order, place, x)
}

// Notes the valid cells in `order` from the ridges down. How many there are; `waiting` is scratch.
pub(crate) fn descend(drawing: Drawing, waiting: &mut [u32], order: &mut [u32]) -> usize
    requires { Directed drawing.rows drawing.columns drawing.direction.now × (length waiting.old ≡ drawing.rows * drawing.columns)
        × (length order.old ≡ drawing.rows * drawing.columns) }
    ensures { Downhill drawing.entry.rows drawing.entry.columns drawing.entry.direction.now order.new result }
{
    await_all(drawing, waiting);
    let mut place: usize = 0;
    for x in 0..waiting.len() {
        place = begin(drawing, waiting, order, place, x);
    }
    place
}
