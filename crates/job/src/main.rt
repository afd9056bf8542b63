// The job of RULES 9.3: the printer for growers who never set a cutoff. Cutoffs 0.5, and channels by the library's default.
#![tactic(auto)]

use std::io;

// One call, as in `printer`: each program has its own file.
fn main(rt: HostRuntime) -> io::Result<()> {
    programs::print(&rt, programs::job_settings())
}
