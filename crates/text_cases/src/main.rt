// Runs both calls of `text` on small texts and writes what they answer, for RULES 2 and 3. What must be written, the file
// `stdout`, is worked out from those.
#![tactic(auto)]

mod counts;
mod ends;
mod forms;
mod heights;
mod names;
mod show;
mod side;
mod words;

use std::io;

fn main(rt: HostRuntime) -> io::Result<()> {
    for cases in [
        words::CASES,
        names::CASES,
        counts::CASES,
        side::CASES,
        forms::CASES,
        heights::CASES,
        ends::CASES,
    ] {
        for case in cases {
            case.show(&rt)?;
        }
    }
    Ok(())
}
