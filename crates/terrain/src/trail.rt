// Trails along the directions: flow counts (flow accumulation, O'Callaghan and Mark 1984) and the longest trail. Both are one
// loop along the order from the ridges down: counts are handed on forwards, since a cell's turn comes after all its inflows;
// the cells of trails are noted backwards, since the cell that a cell points at comes later.
ghost use Rattle.std.specs.Prelude.{◌≡◌, ◌*◌, length};
ghost use Rattle.terrain.specs.Trail.{counts_of, longest_of};
ghost use Rattle.terrain.specs.InnerTrail.{Directed};
ghost use Rattle.terrain.specs.Downhill.{Downhill};

use crate::cells::value_at;
use crate::drawing::{Drawing, hand_on};

// The flow count of every cell, along the order of the valid cells.
pub(crate) fn count_flow(drawing: Drawing, order: &[u32], count: &mut [u32])
    requires { Directed drawing.rows drawing.columns drawing.direction.now
        × Downhill drawing.rows drawing.columns drawing.direction.now order.now (length order.now)
        × (length count.old ≡ drawing.rows * drawing.columns) }
    ensures { count.new ≡ counts_of drawing.entry.rows drawing.entry.columns drawing.entry.direction.now }
{
    drawing.mark(1, 0, count);
    for &cell in order {
        let x = cell as usize;
        let y = drawing.receiver(x);
        let cells = count[x];
        hand_on(count, cells, y);
    }
}

// The steps of the longest trail; 0 on an empty map. The order is as for counts, and the workspace is scratch.
pub(crate) fn longest_trail(drawing: Drawing, order: &[u32], workspace: &mut [u32]) -> u32
    requires { Directed drawing.rows drawing.columns drawing.direction.now
        × Downhill drawing.rows drawing.columns drawing.direction.now order.now (length order.now)
        × (length workspace.old ≡ drawing.rows * drawing.columns) }
    ensures { result ≡ longest_of drawing.entry.rows drawing.entry.columns drawing.entry.direction.now }
{
    let mut most: u32 = 0;
    for &cell in order.iter().rev() {
        let x = cell as usize;
        let y = drawing.receiver(x);
        let cells = value_at(workspace, y) + 1;
        workspace[x] = cells;
        most = most.max(cells);
    }
    most.saturating_sub(1)
}
