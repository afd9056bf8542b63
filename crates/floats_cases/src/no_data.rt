// Which floats are NoData: those equal to the float nearest the NoData number, and no neighbour of it.
use crate::show::{Case, ROW};

pub(crate) const CASES: &[Case] = &[
    // The NoData number absent.
    Case {
        name: "-9999, 1 and -9999",
        floats: b"\x00\x3c\x1c\xc6\
        \x00\x00\x80\x3f\
        \x00\x3c\x1c\xc6",
        ..ROW
    },
    Case {
        name: "-9999 and the float below it",
        floats: b"\x00\x3c\x1c\xc6\
        \x01\x3c\x1c\xc6\
        \x00\x00\x80\x3f",
        ..ROW
    },
    Case {
        name: "-9999 twice and the float above it",
        floats: b"\x00\x3c\x1c\xc6\
        \x00\x3c\x1c\xc6\
        \xff\x3b\x1c\xc6",
        ..ROW
    },
    // Halfway between two floats.
    Case {
        name: "NoData number 16777217; 1 and 16777216",
        header: b"ncols 2 nrows 1 xllcorner 0 yllcorner 0 cellsize 10\nnodata_value 16777217\n",
        cells: 2,
        floats: b"\x00\x00\x80\x3f\
        \x00\x00\x80\x4b",
    },
    Case {
        name: "NoData number 16777217; 1 and 16777218",
        header: b"ncols 2 nrows 1 xllcorner 0 yllcorner 0 cellsize 10\nnodata_value 16777217\n",
        cells: 2,
        floats: b"\x00\x00\x80\x3f\
        \x01\x00\x80\x4b",
    },
    Case {
        name: "NoData number 16777219; 1 and 16777220",
        header: b"ncols 2 nrows 1 xllcorner 0 yllcorner 0 cellsize 10\nnodata_value 16777219\n",
        cells: 2,
        floats: b"\x00\x00\x80\x3f\
        \x02\x00\x80\x4b",
    },
    // In the range of heights.
    Case {
        name: "NoData number 0; 0, -0 and the least denormal",
        header: b"ncols 3 nrows 1 xllcorner 0 yllcorner 0 cellsize 10\nnodata_value 0\n",
        cells: 3,
        floats: b"\x00\x00\x00\x00\
        \x00\x00\x00\x80\
        \x01\x00\x00\x00",
    },
    Case {
        name: "NoData number 0.01; the float nearest it, the next one, and minus the first",
        header: b"ncols 3 nrows 1 xllcorner 0 yllcorner 0 cellsize 10\nnodata_value 0.01\n",
        cells: 3,
        floats: b"\x0a\xd7\x23\x3c\
        \x0b\xd7\x23\x3c\
        \x0a\xd7\x23\xbc",
    },
    // The greatest and the least.
    Case {
        name: "NoData number 999999999.99; 1000000000",
        header: b"ncols 1 nrows 1 xllcorner 0 yllcorner 0 cellsize 10\nnodata_value 999999999.99\n",
        cells: 1,
        floats: b"\x28\x6b\x6e\x4e",
    },
    Case {
        name: "NoData number -999999999.99; -1000000000 and -9999",
        header: b"ncols 2 nrows 1 xllcorner 0 yllcorner 0 cellsize 10\nnodata_value -999999999.99\n",
        cells: 2,
        floats: b"\x28\x6b\x6e\xce\
        \x00\x3c\x1c\xc6",
    },
];
