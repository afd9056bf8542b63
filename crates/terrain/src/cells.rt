// Cells and their neighbours: RULES 4. The eight bearings stand in the order of the codes:
//
//     5 NW   6 N   7 NE
//     4 W      x   0 E
//     3 SW   2 S   1 SE
ghost use Rattle.std.specs.Prelude.{◌≡◌, ◌+◌, ◌*◌, ◌<◌, ◌≤◌, true, slice_index};
ghost use Rattle.terrain.specs.Cells.{row_steps, col_steps, cell_at, neighbour, Shifts};
ghost use Rattle.terrain.specs.InnerCells.{Sized, Inside, RunsTo, beside_of, Beside, Around};

// Where the neighbour at bearing k lies, counted from the one at NW: four times its row, plus its column.
fn place_of(k: usize) -> usize
    ensures { result ≡ slice_index row_steps k * 4 + slice_index col_steps k }
{
    match k {
        0 => 6,
        1 => 10,
        2 => 9,
        3 => 8,
        4 => 4,
        5 => 0,
        6 => 1,
        7 => 2,
        _ => 0,
    }
}

// The cell of row a - 1 and column b - 1, or rows * columns where there is none: no Option, since a place past all cells reads as 0,
// as NoData does, and no caller has a case more.
fn cell_at(rows: usize, columns: usize, a: usize, b: usize) -> usize
    requires { Sized rows columns }
    ensures { result ≡ cell_at rows columns a b }
{
    if a < 1 || rows < a || b < 1 || columns < b {
        return rows * columns;
    }
    (a - 1) * columns + (b - 1)
}

// The neighbour of the cell x at bearing k, or rows * columns where there is none.
pub(crate) fn near(rows: usize, columns: usize, x: usize, k: usize) -> usize
    requires { Sized rows columns × (x < 1048576) × (k < 8) }
    ensures { result ≡ neighbour rows columns x k }
{
    let place = place_of(k);
    cell_at(
        rows,
        columns,
        x / columns + place / 4,
        x % columns + place % 4,
    )
}

// Whether all eight neighbours of the cell x are on the grid.
pub(crate) fn is_inside(rows: usize, columns: usize, x: usize) -> bool
    requires { Sized rows columns × (x < 1048576) }
    ensures { result ≡ true → Inside rows columns x }
{
    if x < columns {
        return false;
    }
    if rows * columns <= x + columns {
        return false;
    }
    let column = x % columns;
    if column < 1 {
        return false;
    }
    column + 1 < columns
}

// The end of the cells of one row, from the cell x on, that are inside.
pub(crate) fn run_end(rows: usize, columns: usize, x: usize) -> usize
    requires { Sized rows columns × (x < rows * columns) }
    ensures { RunsTo rows columns x result }
{
    if is_inside(rows, columns, x) {
        return x + columns - 1 - x % columns;
    }
    x
}

// The neighbour at bearing k of a cell x that has one there: `near` without its divisions and tests, for loops over the bearings.
pub(crate) fn beside(columns: usize, x: usize, k: usize) -> usize
    requires { Beside columns x k }
    ensures { result ≡ beside_of columns x k }
{
    let place = place_of(k);
    x + place / 4 * columns + place % 4 - columns - 1
}

// How far each neighbour lies from the one at NW; any numbers where a row is too long for a grid. Worked out once for a grid, so
// that following a direction takes a look at this table and no multiplication.
pub fn shifts_of(columns: usize) -> [usize; 8]
    ensures { columns ≤ 1024 → Shifts columns result }
{
    if 1024 < columns {
        return [0; 8];
    }
    let below = columns + columns;
    [columns + 2, below + 2, below + 1, below, columns, 0, 1, 2]
}

// The same by the shifts: `beside` where the bearing is read from memory, so that no loop over bearings can be unrolled.
pub(crate) fn shifted(columns: usize, shifts: &[usize; 8], x: usize, k: usize) -> usize
    requires { Beside columns x k × Shifts columns shifts.now }
    ensures { result ≡ beside_of columns x k }
{
    x + shifts[k] - columns - 1
}

// Where the neighbour at bearing k of a cell x lies, if it has one there; else a cell of the edge, or a place past all cells.
pub(crate) fn around(columns: usize, x: usize, k: usize) -> usize
    requires { (columns ≤ 1024) × (x < 1048576) × (k < 8) }
    ensures { result < 1048576 → Around columns x result }
{
    let place = place_of(k);
    std::num::wrapping_sub_usize(x + place / 4 * columns + place % 4, columns + 1)
}

// The number at an index; 0 where there is none.
pub(crate) fn value_at(s: &[u32], i: usize) -> u32
    ensures { result ≡ slice_index s.now i }
{
    s.get(i).copied().unwrap_or(0)
}
