// Small fields given by their heights in cm: the rules' two drops, and the ends of the range of heights.
use crate::show::field;
use std::io;

pub(crate) fn drops(rt: &impl Print) -> io::Result<()> {
    field(rt, "drops 100 E and 141 SE", 2, 2, &[1000, 900, 1000, 859])?;
    field(rt, "drops 100 E and 142 SE", 2, 2, &[1000, 900, 1000, 858])?;
    field(rt, "the greatest drops", 2, 2, &[900000, -40000, 0, -50000])?;
    field(
        rt,
        "the deepest pit",
        3,
        3,
        &[
            900000, 900000, 900000, 900000, -50000, 900000, 900000, 900000, 899999,
        ],
    )
}
