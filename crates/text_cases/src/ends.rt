// Where a text ends too early or goes on too long, and the lent length, tested between header and heights.
use crate::show::Case;

pub(crate) const CASES: &[Case] = &[
    // Too early.
    Case {
        name: "ten words",
        cells: 2,
        text: b"ncols 2 nrows 1 xllcorner 0 yllcorner 0 cellsize 10",
    },
    Case {
        name: "nodata_value as the last word, blanks behind",
        cells: 2,
        text: b"ncols 2 nrows 1 xllcorner 0 yllcorner 0 cellsize 10\nnodata_value\r\n",
    },
    Case {
        name: "the NoData number as the last word",
        cells: 2,
        text: b"ncols 2 nrows 1 xllcorner 0 yllcorner 0 cellsize 10\nnodata_value -1",
    },
    Case {
        name: "a height missing, blanks behind",
        cells: 4,
        text: b"ncols 2 nrows 2 xllcorner 0 yllcorner 0 cellsize 10\n1 2\n3\n \n",
    },
    // Words after the last height.
    Case {
        name: "a number after the last height",
        cells: 2,
        text: b"ncols 2 nrows 1 xllcorner 0 yllcorner 0 cellsize 10\n1 2 3\n",
    },
    Case {
        name: "garbage after the last height",
        cells: 2,
        text: b"ncols 2 nrows 1 xllcorner 0 yllcorner 0 cellsize 10\n1 2\n1,2 x\n",
    },
    Case {
        name: "last height 5., before a word after it",
        cells: 4,
        text: b"ncols 2 nrows 2 xllcorner 0 yllcorner 0 cellsize 10\n1 2\n3 5. x\n",
    },
    // The lent length.
    Case {
        name: "five lent for 2 by 3",
        cells: 5,
        text: b"ncols 3 nrows 2 xllcorner 0 yllcorner 0 cellsize 10\n1 2 3\n4 5 6\n",
    },
    Case {
        name: "three lent for 1 by 2",
        cells: 3,
        text: b"ncols 2 nrows 1 xllcorner 0 yllcorner 0 cellsize 10\n1 2\n",
    },
    Case {
        name: "lent length before a bad height",
        cells: 3,
        text: b"ncols 2 nrows 1 xllcorner 0 yllcorner 0 cellsize 10\n12,5 1\n",
    },
    Case {
        name: "lent length before the text's end",
        cells: 1,
        text: b"ncols 2 nrows 1 xllcorner 0 yllcorner 0 cellsize 10\n",
    },
    Case {
        name: "bad side before the lent length",
        cells: 0,
        text: b"ncols 2 nrows 1 xllcorner 0 yllcorner 0 cellsize 0\n1 2\n",
    },
    Case {
        name: "bad NoData number before the lent length",
        cells: 1,
        text: b"ncols 2 nrows 1 xllcorner 0 yllcorner 0 cellsize 10\nnodata_value 1,5\n1 2\n",
    },
];
