// Maps one field and writes its name, rows and columns; its answer: number, place, valid cells and longest trail; ground,
// filled heights, directions and counts row by row; and what became of the workspace.
use factor::Source;
use settings::{Channel, Formula, Settings};
use std::{fmt, io};

// The most cells that a field here has.
pub(crate) const MOST: usize = 1600;

// What every place of a lent grid holds beforehand, so that an untouched grid shows.
pub(crate) const MARK: u8 = 77;

// How many places are lent of each grid; lengths and factors have as many as the counts.
#[derive(Clone, Copy)]
pub(crate) struct Places {
    pub(crate) filled: usize,
    pub(crate) direction: usize,
    pub(crate) count: usize,
    pub(crate) workspace: usize,
}

impl Places {
    // One place per cell in every grid.
    pub(crate) fn of(cells: usize) -> Places {
        Places {
            filled: cells,
            direction: cells,
            count: cells,
            workspace: cells,
        }
    }
}

// The grids that are lent to a map call.
#[derive(Drop)]
pub(crate) struct Grids<'a> {
    pub(crate) filled: &'a mut [i32],
    pub(crate) direction: &'a mut [u8],
    pub(crate) count: &'a mut [u32],
    pub(crate) lengths: &'a mut [u64],
    pub(crate) factors: &'a mut [u32],
    pub(crate) workspace: &'a mut [u32],
}

impl Grids<'_> {
    // Gives the map call these directions.
    pub(crate) fn give(&mut self, codes: &[u8]) {
        for (place, code) in self.direction.iter_mut().zip(codes) {
            *place = *code;
        }
    }
}

// Room for the grids of the largest field.
#[derive(Drop)]
pub(crate) struct Room {
    filled: [i32; MOST],
    direction: [u8; MOST],
    count: [u32; MOST],
    lengths: [u64; MOST],
    factors: [u32; MOST],
    workspace: [u32; MOST],
}

impl Room {
    pub(crate) fn new() -> Room {
        Room {
            filled: [i32::from(MARK); MOST],
            direction: [MARK; MOST],
            count: [u32::from(MARK); MOST],
            lengths: [u64::from(MARK); MOST],
            factors: [u32::from(MARK); MOST],
            workspace: [u32::from(MARK); MOST],
        }
    }

    // So many places of each grid, or all.
    pub(crate) fn lend(&mut self, places: Places) -> Grids<'_> {
        let filled = &mut self.filled;
        let direction = &mut self.direction;
        let count = &mut self.count;
        let lengths = &mut self.lengths;
        let factors = &mut self.factors;
        let workspace = &mut self.workspace;
        Grids {
            filled: &mut filled[..places.filled.min(MOST)],
            direction: &mut direction[..places.direction.min(MOST)],
            count: &mut count[..places.count.min(MOST)],
            lengths: &mut lengths[..places.count.min(MOST)],
            factors: &mut factors[..places.count.min(MOST)],
            workspace: &mut workspace[..places.workspace.min(MOST)],
        }
    }
}

// A field with one place per height in every lent grid.
pub(crate) fn field(
    rt: &impl Print,
    name: &str,
    rows: usize,
    columns: usize,
    ground: &[i32],
) -> io::Result<()> {
    lent(rt, name, rows, columns, ground, Places::of(ground.len()))
}

// A field with the given numbers of places in the lent grids.
pub(crate) fn lent(
    rt: &impl Print,
    name: &str,
    rows: usize,
    columns: usize,
    ground: &[i32],
    places: Places,
) -> io::Result<()> {
    let mut room = Room::new();
    print!(rt; "{name} {rows} {columns}")?;
    write_map(
        rt,
        rows,
        columns,
        Source::Own,
        ground,
        &mut room.lend(places),
    )
}

// Maps the lent grids and writes all but the name.
pub(crate) fn write_map(
    rt: &impl Print,
    rows: usize,
    columns: usize,
    source: Source,
    ground: &[i32],
    grids: &mut Grids,
) -> io::Result<()> {
    map(rt, rows, columns, source, ground, grids)?;
    print!(rt; "\nground{}", Cells(columns, ground))?;
    print!(rt; "\nfilled{}", Cells(columns, grids.filled))?;
    print!(rt; "\ndirection{}", Cells(columns, grids.direction))?;
    print!(rt; "\ncount{}", Cells(columns, grids.count))?;
    println!(rt; "\nworkspace {}", became(grids.workspace))
}

// Works out the lent grids with cells of 10 m, cutoffs 0.5 and no channels, and writes the answer.
pub(crate) fn map(
    rt: &impl Print,
    rows: usize,
    columns: usize,
    source: Source,
    ground: &[i32],
    grids: &mut Grids,
) -> io::Result<()> {
    let settings = Settings {
        low: 0.5,
        high: 0.5,
        channel: Channel::NoChannel,
        formula: Formula::Older,
    };
    let answer = factor::map(
        rows,
        columns,
        1000,
        settings,
        source,
        ground,
        grids.filled,
        grids.direction,
        grids.count,
        grids.lengths,
        grids.factors,
        grids.workspace,
    );
    match answer {
        Ok(summary) => print!(rt; "\nanswer 0 0 {} {}", summary.valid, summary.longest),
        Err(refusal) => { print!(rt; "\nanswer {} {} 0 0", refusal.fault.number(), refusal.place) }
    }
}

// What became of a workspace.
pub(crate) fn became(workspace: &[u32]) -> &'static str {
    if workspace.iter().all(|n| *n == 0) {
        "zeros"
    } else if workspace.iter().all(|n| *n == u32::from(MARK)) {
        "untouched"
    } else {
        "changed"
    }
}

// So many columns, and the cells row by row, a blank before each. Cells of one column stand on one line.
#[derive(Drop)]
struct Cells<'a, T>(usize, &'a [T]);

impl<T: fmt::Display> fmt::Display for Cells<'_, T> {
    fn fmt<W: fmt::Write>(&self, f: &mut fmt::Formatter<W>) -> fmt::Result {
        let Cells(columns, cells) = *self;
        for (x, cell) in cells.iter().enumerate() {
            if 1 < columns && x % columns == 0 {
                writeln!(f)?;
            }
            write!(f, " {cell}")?;
        }
        Ok(())
    }
}
