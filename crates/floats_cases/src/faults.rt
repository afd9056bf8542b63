// Floats that are NaN or infinite, or out of range after rounding: the first such cell decides.
use crate::show::{Case, ROW};

pub(crate) const CASES: &[Case] = &[
    // Out of range.
    Case {
        name: "the float past the greatest in range",
        floats: b"\x00\x00\x80\x3f\
        \x06\xa0\x0c\x46\
        \x00\x00\x80\x3f",
        ..ROW
    },
    Case {
        name: "the float past the least in range",
        floats: b"\x00\x00\x80\x3f\
        \x00\x00\x80\x3f\
        \xa4\x00\xfa\xc3",
        ..ROW
    },
    Case {
        name: "the greatest float of all",
        floats: b"\xff\xff\x7f\x7f\
        \x00\x00\x80\x3f\
        \x00\x00\x80\x3f",
        ..ROW
    },
    // NaN.
    Case {
        name: "NaN 7fc00000",
        floats: b"\x00\x00\xc0\x7f\
        \x00\x00\x80\x3f\
        \x00\x00\x80\x3f",
        ..ROW
    },
    Case {
        name: "NaN ffffffff",
        floats: b"\x00\x00\x80\x3f\
        \x00\x00\x80\x3f\
        \xff\xff\xff\xff",
        ..ROW
    },
    // Infinite.
    Case {
        name: "plus infinity",
        floats: b"\x00\x00\x80\x3f\
        \x00\x00\x80\x7f\
        \x00\x00\x80\x3f",
        ..ROW
    },
    Case {
        name: "minus infinity",
        floats: b"\x00\x00\x80\x3f\
        \x00\x00\x80\x3f\
        \x00\x00\x80\xff",
        ..ROW
    },
    // Two faults: the first cell decides.
    Case {
        name: "NaN before the float past the greatest in range",
        floats: b"\x00\x00\x80\x3f\
        \x00\x00\xc0\x7f\
        \x06\xa0\x0c\x46",
        ..ROW
    },
    Case {
        name: "the float past the greatest in range before NaN",
        floats: b"\x00\x00\x80\x3f\
        \x06\xa0\x0c\x46\
        \x00\x00\xc0\x7f",
        ..ROW
    },
];
