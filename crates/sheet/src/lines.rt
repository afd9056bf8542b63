// The lines of a sheet: a map's shape, its cells, and a refusal.
ghost use Rattle.std.specs.Prelude.{[], ◌∷◌, ◌++◌, ◌+◌, ◌*◌, ◌≤◌, ◌<◌, ◌^◌, length};
ghost use Rattle.numerals.specs.Words.{decimal, integer, line};
ghost use Rattle.sheet.specs.InnerWriting.{Puts};
ghost use Rattle.text.specs.Faults.{number_of};
ghost use Rattle.sheet.specs.InnerGrids.{shown, Long};
ghost use Rattle.sheet.specs.InnerLines.{length_words, flow_words, summary_words, place_words};
ghost use Rattle.sheet.specs.Lines.{refusal_line, factor_word, value_words, shown_words, cell_line, shape_line, cell_lines, map_lines};

use crate::writer;
use factor::TOO_LONG;
use text::{NO_DATA, Refusal};

// What a map has at one cell.
#[derive(Clone, Copy)]
pub(crate) struct Cell {
    pub(crate) elevation: i32,
    pub(crate) filled: i32,
    pub(crate) direction: u8,
    pub(crate) count: u32,
    pub(crate) length: u64,
    pub(crate) factor: u32,
}

// What stands in a map's first line.
#[derive(Clone, Copy)]
pub(crate) struct Shape {
    pub(crate) rows: usize,
    pub(crate) columns: usize,
    pub(crate) side: u32,
    pub(crate) valid: u32,
    pub(crate) longest: u32,
}

// The grids that are shown, in row order.
#[derive(Clone, Copy)]
pub(crate) struct Grids<'a> {
    pub(crate) elevation: &'a [i32],
    pub(crate) filled: &'a [i32],
    pub(crate) direction: &'a [u8],
    pub(crate) count: &'a [u32],
    pub(crate) lengths: &'a [u64],
    pub(crate) factors: &'a [u32],
}

// A number and the byte after it.
fn put_number(out: &mut [u8], at: usize, n: u64, end: u8) -> usize
    requires { at < 2 ^ 61 }
    ensures { Puts out at (decimal n ++ (end ∷ [])) result (at + 21) }
{
    let next = writer::put_natural(out, at, n);
    writer::put(out, next, end)
}

// A height and a blank.
fn put_height(out: &mut [u8], at: usize, height: i32) -> usize
    requires { at < 2 ^ 60 }
    ensures { Puts out at (integer height ++ (32 ∷ [])) result (at + 12) }
{
    let next = writer::put_integer(out, at, height);
    writer::put(out, next, b' ')
}

// LS and the line's end.
fn put_factor(out: &mut [u8], at: usize, factor: u32) -> usize
    requires { at < 2 ^ 61 }
    ensures { Puts out at (factor_word factor ++ (10 ∷ [])) result (at + 21) }
{
    if factor == TOO_LONG {
        return writer::put_all(out, at, b"long\n");
    }
    put_number(out, at, u64::from(factor), b'\n')
}

// The rest of a valid cell's line behind its count: length and LS.
fn put_length(out: &mut [u8], at: usize, cell: Cell) -> usize
    requires { at < 2 ^ 60 }
    ensures { Puts out at (line (length_words cell)) result (at + 42) }
{
    let a = put_number(out, at, cell.length, b' ');
    put_factor(out, a, cell.factor)
}

// The rest of a valid cell's line behind its heights: direction, count, length and LS.
fn put_flow(out: &mut [u8], at: usize, cell: Cell) -> usize
    requires { at < 2 ^ 59 }
    ensures { Puts out at (line (flow_words cell)) result (at + 84) }
{
    let a = put_number(out, at, u64::from(cell.direction), b' ');
    let b = put_number(out, a, u64::from(cell.count), b' ');
    put_length(out, b, cell)
}

// The rest of a valid cell's line behind row and column.
fn put_values(out: &mut [u8], at: usize, cell: Cell) -> usize
    requires { at < 2 ^ 58 }
    ensures { Puts out at (line (value_words cell)) result (at + 108) }
{
    let a = put_height(out, at, cell.elevation);
    let b = put_height(out, a, cell.filled);
    put_flow(out, b, cell)
}

// The rest of any cell's line behind row and column.
fn put_shown(out: &mut [u8], at: usize, cell: Cell) -> usize
    requires { at < 2 ^ 58 }
    ensures { Puts out at (line (shown_words cell)) result (at + 108) }
{
    if cell.elevation == NO_DATA {
        return writer::put_all(out, at, b"- - - - - -\n");
    }
    put_values(out, at, cell)
}

// A cell's line.
fn put_cell(out: &mut [u8], at: usize, row: usize, column: usize, cell: Cell) -> usize
    requires { at < 2 ^ 57 }
    ensures { Puts out at (cell_line row column cell) result (at + 150) }
{
    let a = put_number(out, at, row as u64, b' ');
    let b = put_number(out, a, column as u64, b' ');
    put_shown(out, b, cell)
}

// The rest of a map's first line behind rows and columns: side, valid cells and longest trail.
fn put_summary(out: &mut [u8], at: usize, shape: Shape) -> usize
    requires { at < 2 ^ 59 }
    ensures { Puts out at (line (summary_words shape)) result (at + 63) }
{
    let a = put_number(out, at, u64::from(shape.side), b' ');
    let b = put_number(out, a, u64::from(shape.valid), b' ');
    put_number(out, b, u64::from(shape.longest), b'\n')
}

// A map's first line.
fn put_shape(out: &mut [u8], at: usize, shape: Shape) -> usize
    requires { at < 2 ^ 58 }
    ensures { Puts out at (shape_line shape) result (at + 105) }
{
    let a = put_number(out, at, shape.rows as u64, b' ');
    let b = put_number(out, a, shape.columns as u64, b' ');
    put_summary(out, b, shape)
}

// The rest of a refusal's line behind its number.
fn put_place(out: &mut [u8], at: usize, place: usize) -> usize
    requires { at < 2 ^ 60 }
    ensures { Puts out at (line (place_words place)) result (at + 24) }
{
    let a = writer::put_all(out, at, b"at ");
    put_number(out, a, place as u64, b'\n')
}

// The one line of a refusal.
pub(crate) fn put_refusal(out: &mut [u8], refusal: Refusal) -> usize
    ensures { Puts out 0 (refusal_line (number_of refusal.fault) refusal.place) result 53 }
{
    let a = writer::put_all(out, 0, b"refused ");
    let b = put_number(out, a, u64::from(refusal.fault.number()), b' ');
    put_place(out, b, refusal.place)
}

// The lines of a map's cells.
fn put_cells(out: &mut [u8], at: usize, columns: usize, grids: Grids) -> usize
    requires { (at ≤ 105) × (0 < columns) × Long (length grids.elevation.now) (shown grids) }
    ensures { Puts out at (cell_lines columns (shown grids.entry) (length grids.entry.elevation.now))
        result (at + 150 * length grids.entry.elevation.now) }
{
    let mut next = at;
    for x in 0..grids.elevation.len() {
        let cell = Cell {
            elevation: grids.elevation[x],
            filled: grids.filled[x],
            direction: grids.direction[x],
            count: grids.count[x],
            length: grids.lengths[x],
            factor: grids.factors[x],
        };
        next = put_cell(out, next, x / columns, x % columns, cell);
    }
    next
}

// All lines of a map.
pub(crate) fn put_map(out: &mut [u8], shape: Shape, grids: Grids) -> usize
    requires { (0 < shape.columns) × Long (shape.rows * shape.columns) (shown grids) }
    ensures { Puts out 0 (map_lines shape (shown grids.entry)) result (105 + 150 * (shape.rows * shape.columns)) }
{
    let next = put_shape(out, 0, shape);
    put_cells(out, next, shape.columns, grids)
}
