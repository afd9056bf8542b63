// Writes a report after its name: maps, valid cells, channel cells, cells with LS 0, cells too long, the sum, the four classes, then 0 for
// none or 1, the greatest LS, its map and its cell, zeros where there is none.
use report::Report;
use std::{fmt, io};
use text::Refusal;

// The numbers of a report.
#[derive(Drop)]
struct Numbers(Report);

impl fmt::Display for Numbers {
    fn fmt<W: fmt::Write>(&self, f: &mut fmt::Formatter<W>) -> fmt::Result {
        let r = self.0;
        write!(f, "{} {} {} {}", r.maps, r.valid, r.channel, r.zero)?;
        write!(f, " {} {}", r.long, r.sum)?;
        write!(f, " {} {} {} {}", r.under1, r.from1, r.from5, r.from10)?;
        match r.greatest {
            None => write!(f, " 0 0 0 0"),
            Some(g) => write!(f, " 1 {} {} {}", g.factor, g.map, g.cell),
        }
    }
}

// The report alone.
pub(crate) fn report(rt: &impl Print, name: &str, r: Report) -> io::Result<()> {
    println!(rt; "{name}\nreport {}", Numbers(r))
}

// Number and place of what a call answers, then the report.
pub(crate) fn answered(
    rt: &impl Print,
    name: &str,
    answer: Result<(), Refusal>,
    r: Report,
) -> io::Result<()> {
    println!(rt; "{name}")?;
    match answer {
        Ok(()) => println!(rt; "answer 0 0")?,
        Err(refusal) => println!(rt; "answer {} {}", refusal.fault.number(), refusal.place)?,
    }
    println!(rt; "report {}", Numbers(r))
}
