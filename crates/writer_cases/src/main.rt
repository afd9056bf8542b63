// Runs the calls of `writer` on small grids and writes what they answer and what becomes of the lent room, for RULES 10. What
// must be written, the file `stdout`, is worked out from those.
#![tactic(auto)]

mod refusals;
mod rooms;
mod shapes;
mod show;

use std::io;

fn main(rt: HostRuntime) -> io::Result<()> {
    rooms::kinds(&rt)?;
    shapes::run(&rt)?;
    refusals::alone(&rt)?;
    refusals::of_two(&rt)?;
    rooms::for_shapes(&rt)
}
