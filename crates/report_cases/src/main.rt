// Runs the calls of `report` on small maps and reports, and writes what they answer and the report that they give back, for RULES 12. What
// must be written, the file `stdout`, is worked out from those.
#![tactic(auto)]

mod farms;
mod joins;
mod lists;
mod make;
mod refusals;
mod show;

use std::io;

fn main(rt: HostRuntime) -> io::Result<()> {
    lists::run(&rt)?;
    lists::blocks(&rt)?;
    joins::greatest(&rt)?;
    joins::edges(&rt)?;
    refusals::run(&rt)?;
    refusals::full(&rt)?;
    farms::channels(&rt)?;
    farms::refusals(&rt)
}
