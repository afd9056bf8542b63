// Runs `floats::read_floats` on small grids, and `text::read_lone_header` on their headers, and writes what they answer and what
// becomes of the lent heights, for RULES 11. What must be written, the file `stdout`, is worked out from those.
#![tactic(auto)]

mod faults;
mod no_data;
mod refusals;
mod rounding;
mod show;

use std::io;

fn main(rt: HostRuntime) -> io::Result<()> {
    for cases in [
        rounding::CASES,
        faults::CASES,
        no_data::CASES,
        refusals::CASES,
    ] {
        for case in cases {
            case.show(&rt)?;
        }
    }
    Ok(())
}
