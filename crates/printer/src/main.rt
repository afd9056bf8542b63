// The printer of RULES 9.3: the sheet of standard input. Cutoffs 0.5, no channels, and the older steepness formula.
#![tactic(auto)]

use std::io;

// One call, as in `job`: each program has its own file.
fn main(rt: HostRuntime) -> io::Result<()> {
    programs::print(&rt, programs::printer_settings())
}
