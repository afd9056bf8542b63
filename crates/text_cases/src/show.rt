// Writes what both calls of `text` answer for one text. An answer is number, place, rows, columns, side and NoData
// number, and after the reader call's stand the lent heights.
use output::Answers;
use std::io;

// What every lent height is beforehand, so that an untouched grid shows.
const MARK: i32 = 77;

// The most heights that a case lends.
const MOST: usize = 9;

// A text, with the name of its case and how many heights are lent.
#[derive(Clone, Copy)]
pub(crate) struct Case {
    pub(crate) name: &'static str,
    pub(crate) cells: usize,
    pub(crate) text: &'static [u8],
}

impl Case {
    pub(crate) fn show(self, rt: &impl Print) -> io::Result<()> {
        let mut lent = [MARK; MOST];
        let heights = &mut lent[..self.cells.min(MOST)];
        let header = text::read_header(self.text).map(|head| head.header);
        let cells = text::read_grid(self.text, heights);
        let answers = Answers {
            header,
            call: "grid",
            cells,
            heights,
        };
        println!(rt; "{}\n{answers}", self.name)
    }
}
