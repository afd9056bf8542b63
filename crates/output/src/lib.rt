// What the calls that read a text answer, printed, for the programs that run stored cases. What is printed no contract
// says, and the file `stdout` of each of those programs has it.
#![tactic(auto)]

use std::fmt;
use text::{Header, Refusal};

// Number, place, rows, columns, side and NoData number, zeros where there is none.
#[derive(Drop)]
struct Answer(Result<Header, Refusal>);

impl fmt::Display for Answer {
    fn fmt<W: fmt::Write>(&self, f: &mut fmt::Formatter<W>) -> fmt::Result {
        match self.0 {
            Ok(h) => write!(f, "0 0 {} {} {} {}", h.rows, h.columns, h.side, h.no_data),
            Err(r) => write!(f, "{} {} 0 0 0 0", r.fault.number(), r.place),
        }
    }
}

// The answer of the call that reads the header, then that of the call that reads the cells, its name before it and the lent heights
// behind.
#[derive(Drop)]
pub struct Answers<'a> {
    pub header: Result<Header, Refusal>,
    pub call: &'a str,
    pub cells: Result<Header, Refusal>,
    pub heights: &'a [i32],
}

impl fmt::Display for Answers<'_> {
    fn fmt<W: fmt::Write>(&self, f: &mut fmt::Formatter<W>) -> fmt::Result {
        writeln!(f, "header {}", Answer(self.header))?;
        write!(f, "{} {}:", self.call, Answer(self.cells))?;
        for height in self.heights {
            write!(f, " {height}")?;
        }
        Ok(())
    }
}
