// Prints the sheets of many texts, with the job's settings. What must be printed, the file `stdout`, comes from a second program that
// was written for itself, under the default as it was while its low cutoff was 0.5.
#![tactic(auto)]

use std::io;

// One call, as in `sheet_cases`: each program has its own file.
fn main(rt: HostRuntime) -> io::Result<()> {
    streams::print_sheets(&rt, programs::job_settings())
}
