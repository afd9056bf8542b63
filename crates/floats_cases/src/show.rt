// Writes what both calls answer for one grid: its name, then for each call number, place, rows, columns, side and NoData number,
// and after those of the floats the lent heights.
use output::Answers;
use std::io;

// What every lent height is beforehand, so that an untouched grid shows.
const MARK: i32 = 7;

// The most heights that a case lends.
const MOST: usize = 4;

// A header and floats, with the name of their case and how many heights are lent.
#[derive(Clone, Copy)]
pub(crate) struct Case {
    pub(crate) name: &'static str,
    pub(crate) header: &'static [u8],
    pub(crate) cells: usize,
    pub(crate) floats: &'static [u8],
}

// Three cells in a row, with the NoData number absent.
pub(crate) const ROW: Case = Case {
    name: "",
    header: b"ncols 3 nrows 1 xllcorner 0 yllcorner 0 cellsize 10\n",
    cells: 3,
    floats: b"",
};

impl Case {
    pub(crate) fn show(self, rt: &impl Print) -> io::Result<()> {
        let mut lent = [MARK; MOST];
        let heights = &mut lent[..self.cells.min(MOST)];
        let header = text::read_lone_header(self.header);
        let cells = floats::read_floats(self.header, self.floats, heights);
        let answers = Answers {
            header,
            call: "floats",
            cells,
            heights,
        };
        println!(rt; "{}\n{answers}", self.name)
    }
}
