// The sheet layer: a text grid becomes a map's printed lines, or the one line of a refusal. RULES 8.
//
// Every text gets a sheet: the call has no `requires`. It reads, maps and writes by the calls of the layers below, on grids of its own.
#![tactic(auto)]

mod lines;
mod writer;

ghost use Rattle.std.specs.Prelude.{◌≡◌, ◌*◌, ◌≤◌, pos, length, replicate};
ghost use Rattle.factor.specs.Answers.{lent, lent_before};
ghost use Rattle.numerals.specs.Writing.{overlay};
ghost use Rattle.sheet.specs.InnerWriting.{PutsOr};
ghost use Rattle.sheet.specs.InnerGrids.{LentLong};
ghost use Rattle.sheet.specs.Sheet.{grid_sheet, zeros, sheet_of};

use factor::Source;
use lines::{Grids, Shape};
use settings::Settings;
use text::{Fault, Header, Refusal};

// Reads the heights, maps them and writes the map's lines, all grids being lent.
fn put_heights(
    text: &[u8],
    head: Header,
    settings: Settings,
    heights: &mut [i32],
    filled: &mut [i32],
    direction: &mut [u8],
    count: &mut [u32],
    lengths: &mut [u64],
    factors: &mut [u32],
    workspace: &mut [u32],
    sheet: &mut [u8],
) -> Result<usize, Refusal>
    requires { LentLong (head.rows * head.columns) heights.old
        (lent filled.old direction.old count.old lengths.old factors.old workspace.old) }
    ensures { PutsOr sheet.old (grid_sheet head.rows head.columns head.side settings text.now heights.old
        (lent_before filled direction count lengths factors workspace)) result sheet.new }
{
    text::read_grid(text, heights)?;
    let map = factor::map(
        head.rows,
        head.columns,
        head.side,
        settings,
        Source::Own,
        heights,
        filled,
        direction,
        count,
        lengths,
        factors,
        workspace,
    )?;
    let shape = Shape {
        rows: head.rows,
        columns: head.columns,
        side: head.side,
        valid: map.valid,
        longest: map.longest,
    };
    let grids = Grids {
        elevation: heights,
        filled,
        direction,
        count,
        lengths,
        factors,
    };
    Ok(lines::put_map(sheet, shape, grids))
}

// What follows a good header, on grids of this call's own.
fn put_grid(
    text: &[u8],
    head: Header,
    settings: Settings,
    sheet: &mut [u8],
) -> Result<usize, Refusal>
    requires { head.rows * head.columns ≤ 2048 }
    ensures { PutsOr sheet.old (grid_sheet head.rows head.columns head.side settings text.now
        (replicate (head.rows * head.columns) (pos 0)) (zeros (head.rows * head.columns))) result sheet.new }
{
    let cells = head.rows * head.columns;
    let mut heights = [0i32; 2048];
    let mut filled = [0i32; 2048];
    let mut direction = [0u8; 2048];
    let mut count = [0u32; 2048];
    let mut lengths = [0u64; 2048];
    let mut factors = [0u32; 2048];
    let mut workspace = [0u32; 2048];
    put_heights(
        text,
        head,
        settings,
        &mut heights[..cells],
        &mut filled[..cells],
        &mut direction[..cells],
        &mut count[..cells],
        &mut lengths[..cells],
        &mut factors[..cells],
        &mut workspace[..cells],
        sheet,
    )
}

// The lines of a text's map, or why there are none.
fn put_lines(text: &[u8], settings: Settings, sheet: &mut [u8]) -> Result<usize, Refusal>
    ensures { PutsOr sheet.old (sheet_of text.now settings) result sheet.new }
{
    if 32768 < text.len() {
        return Err(Refusal {
            fault: Fault::Large,
            place: 32768,
        });
    }
    let read = text::read_header(text)?;
    let head = read.header;
    if 2048 < head.rows * head.columns {
        return Err(Refusal {
            fault: Fault::Large,
            place: 0,
        });
    }
    put_grid(text, head, settings, sheet)
}

// Writes the sheet of a text into the lent room, as far as the room goes, and answers the sheet's length. A sheet is never longer
// than 327,680 bytes.
pub fn print(text: &[u8], settings: Settings, sheet: &mut [u8]) -> usize
    ensures counts { result ≡ length (sheet_of text.now settings) }
    ensures writes { sheet.new ≡ overlay sheet.old 0 (sheet_of text.now settings) }
    ensures fits { result ≤ 327680 }
{
    match put_lines(text, settings, sheet) {
        Ok(length) => length,
        Err(refusal) => lines::put_refusal(sheet, refusal),
    }
}

// A room that every sheet fits. The promise gives its length alone, which is what lending it needs.
pub fn room() -> [u8; 327680]
    ensures { 327680 ≡ length result }
{
    [0; 327680]
}
