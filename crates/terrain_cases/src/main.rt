// Maps fields of every kind with the map call and writes its answers and its grids up to the counts, for RULES 3 and 4. What
// must be written, the file `stdout`, is worked out from those. Then the same with given directions.
#![tactic(auto)]

mod back;
mod drawn;
mod given;
mod land;
mod listed;
mod refusals;
mod show;
mod spiral;

use std::io;

fn main(rt: HostRuntime) -> io::Result<()> {
    listed::drops(&rt)?;
    for fields in [
        drawn::BASINS,
        drawn::SLOPES,
        drawn::HOLES,
        drawn::STRIPS,
        drawn::PITS_IN_STRIPS,
    ] {
        for field in fields {
            field.show(&rt)?;
        }
    }
    refusals::sizes(&rt)?;
    refusals::lengths(&rt)?;
    refusals::heights(&rt)?;
    refusals::heights_near_no_data(&rt)?;
    refusals::of_two(&rt)?;
    for fields in [drawn::PLATEAU, land::SHAPES, land::STRIPS_AND_NOISE] {
        for field in fields {
            field.show(&rt)?;
        }
    }
    for cases in [
        given::SOUND,
        given::SOUND_ON_FLATS,
        given::BAD_CODES,
        given::BAD_WAYS,
        given::SEVERAL_FAULTS,
    ] {
        for case in cases {
            case.show(&rt)?;
        }
    }
    given::bad_height(&rt)?;
    for cases in [given::RINGS, given::RINGS_IN_HOLLOWS] {
        for case in cases {
            case.show(&rt)?;
        }
    }
    back::own(&rt)
}
