// Prints the sheets of many texts, with the printer's settings. What must be printed, the file `stdout`, comes from a second program
// that was written for itself.
#![tactic(auto)]

use std::io;

// One call, as in `job_cases`: each program has its own file.
fn main(rt: HostRuntime) -> io::Result<()> {
    streams::print_sheets(&rt, programs::printer_settings())
}
