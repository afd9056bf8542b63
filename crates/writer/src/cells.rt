// The words of all cells: how many bytes they have, and their bytes in the room, which has place for them. RULES 10.3.
//
// Each word is followed by one byte: a space, or LF after the last word of a row.
ghost use Rattle.std.specs.Prelude.{◌≡◌, ◌+◌, ◌*◌, ◌≤◌, map, length};
ghost use Rattle.numerals.specs.Writing.{Wrote};
ghost use Rattle.writer.specs.InnerCells.{gap_of, column_after, cells_from, bytes_of};

use crate::words::Word;

// How many bytes they take, each with the byte after it.
pub(crate) fn length<W: Word>(cells: &[W::Cell]) -> usize
    requires { length cells.now ≤ 1048576 }
    ensures { (result ≡ bytes_of (map W.word cells.now)) × (result ≤ 27 * length cells.now) }
{
    let mut total = 0;
    for cell in cells {
        total += W::length(*cell) + 1;
    }
    total
}

// The byte after the word of a column.
fn gap(columns: usize, column: usize) -> u8
    requires { column + 1 ≤ columns }
    ensures { result ≡ gap_of columns column }
{
    if column + 1 == columns {
        return b'\n';
    }
    b' '
}

// The column of the word after it.
fn column_after(columns: usize, column: usize) -> usize
    requires { column + 1 ≤ columns }
    ensures { (result ≡ column_after columns column) × (result + 1 ≤ columns) }
{
    if column + 1 == columns {
        return 0;
    }
    column + 1
}

// All of them.
pub(crate) fn put<W: Word>(out: &mut [u8], at: usize, columns: usize, cells: &[W::Cell]) -> usize
    requires { (1 ≤ columns) × (at + bytes_of (map W.word cells.now) ≤ length out.old) }
    ensures { Wrote out.old at (cells_from columns 0 (map W.word cells.now)) result out.new }
{
    let mut next = at;
    let mut column = 0;
    for cell in cells {
        let end = W::put(out, next, *cell);
        numerals::put(out, end, gap(columns, column));
        next = end + 1;
        column = column_after(columns, column);
    }
    next
}
