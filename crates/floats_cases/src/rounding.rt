// Floats that become heights: which cm is nearest, and in which order the bytes and the cells stand.
use crate::show::{Case, ROW};

pub(crate) const CASES: &[Case] = &[
    // Small floats.
    Case {
        name: "0, -0 and 1",
        floats: b"\x00\x00\x00\x00\
        \x00\x00\x00\x80\
        \x00\x00\x80\x3f",
        ..ROW
    },
    Case {
        name: "the least denormal, the greatest, and minus the greatest",
        floats: b"\x01\x00\x00\x00\
        \xff\xff\x7f\x00\
        \xff\xff\x7f\x80",
        ..ROW
    },
    // Near halfway and halfway.
    Case {
        name: "the floats nearest 0.005, 0.015 and 0.025, none of them halfway",
        floats: b"\x0a\xd7\xa3\x3b\
        \x8f\xc2\x75\x3c\
        \xcd\xcc\xcc\x3c",
        ..ROW
    },
    Case {
        name: "0.125, 0.375 and -0.125, halfway",
        floats: b"\x00\x00\x00\x3e\
        \x00\x00\xc0\x3e\
        \x00\x00\x00\xbe",
        ..ROW
    },
    // The ends of the range.
    Case {
        name: "the float nearest 9000.004, the greatest in range and the least",
        floats: b"\x04\xa0\x0c\x46\
        \x05\xa0\x0c\x46\
        \xa3\x00\xfa\xc3",
        ..ROW
    },
    // Order.
    Case {
        name: "1, its bytes the other way round, and 100",
        floats: b"\x00\x00\x80\x3f\
        \x3f\x80\x00\x00\
        \x00\x00\xc8\x42",
        ..ROW
    },
    Case {
        name: "2 by 2; 1 and 2 in the north, 3 and 4 in the south",
        header: b"ncols 2 nrows 2 xllcorner 0 yllcorner 0 cellsize 2.5\n",
        cells: 4,
        floats: b"\x00\x00\x80\x3f\
        \x00\x00\x00\x40\
        \x00\x00\x40\x40\
        \x00\x00\x80\x40",
    },
];
