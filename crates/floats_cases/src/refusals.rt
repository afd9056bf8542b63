// What is tested before the cells: the header, a word after it, the lent heights, the bytes. But for what a name says, a grid is two
// cells that are 1, with two heights lent.
use crate::show::Case;

pub(crate) const CASES: &[Case] = &[
    // The bytes.
    Case {
        name: "a byte too few",
        header: b"ncols 2 nrows 1 xllcorner 0 yllcorner 0 cellsize 10\n",
        cells: 2,
        floats: b"\x00\x00\x80\x3f\
        \x00\x00\x80",
    },
    Case {
        name: "a byte too many, before NaN",
        header: b"ncols 2 nrows 1 xllcorner 0 yllcorner 0 cellsize 10\n",
        cells: 2,
        floats: b"\x00\x00\xc0\x7f\
        \x00\x00\x80\x3f\
        \x00",
    },
    // The lent heights.
    Case {
        name: "one height lent, before no bytes",
        header: b"ncols 2 nrows 1 xllcorner 0 yllcorner 0 cellsize 10\n",
        cells: 1,
        floats: b"",
    },
    Case {
        name: "three heights lent",
        header: b"ncols 2 nrows 1 xllcorner 0 yllcorner 0 cellsize 10\n",
        cells: 3,
        floats: b"\x00\x00\x80\x3f\
        \x00\x00\x80\x3f",
    },
    // A word after the header.
    Case {
        name: "a height after the header, before one height lent",
        header: b"ncols 2 nrows 1 xllcorner 0 yllcorner 0 cellsize 10\n1 2\n",
        cells: 1,
        floats: b"\x00\x00\x80\x3f\
        \x00\x00\x80\x3f",
    },
    Case {
        name: "a word after the NoData number, before no bytes",
        header: b"ncols 2 nrows 1 xllcorner 0 yllcorner 0 cellsize 10\nnodata_value -9999 x\n",
        cells: 2,
        floats: b"",
    },
    // The header.
    Case {
        name: "side 12,5, before a word after the header",
        header: b"ncols 2 nrows 1 xllcorner 0 yllcorner 0 cellsize 12,5\n1\n",
        cells: 2,
        floats: b"\x00\x00\x80\x3f\
        \x00\x00\x80\x3f",
    },
    Case {
        name: "NoData number -9999x, before no heights lent",
        header: b"ncols 2 nrows 1 xllcorner 0 yllcorner 0 cellsize 10\nnodata_value -9999x\n",
        cells: 0,
        floats: b"\x00\x00\x80\x3f\
        \x00\x00\x80\x3f",
    },
];
