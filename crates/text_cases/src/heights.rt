// Heights in cm: fineness, then the NoData number, then the range of -50,000 to 900,000.
use crate::show::Case;

pub(crate) const CASES: &[Case] = &[
    // The range.
    Case {
        name: "height -500.01",
        cells: 2,
        text: b"ncols 2 nrows 1 xllcorner 0 yllcorner 0 cellsize 10\n-500.01 1\n",
    },
    Case {
        name: "height 9000.01",
        cells: 2,
        text: b"ncols 2 nrows 1 xllcorner 0 yllcorner 0 cellsize 10\n1 9000.01\n",
    },
    Case {
        name: "height 9000.001, too fine before out of range",
        cells: 2,
        text: b"ncols 2 nrows 1 xllcorner 0 yllcorner 0 cellsize 10\n9000.001 1\n",
    },
    Case {
        name: "height of 2^32 + 100 cm",
        cells: 2,
        text: b"ncols 2 nrows 1 xllcorner 0 yllcorner 0 cellsize 10\n1 42949673.96\n",
    },
    Case {
        name: "1 by 1; height 999999999",
        cells: 1,
        text: b"ncols 1 nrows 1 xllcorner 0 yllcorner 0 cellsize 10\n999999999\n",
    },
    // The NoData number.
    Case {
        name: "height -9999.001, too fine before NoData",
        cells: 2,
        text: b"ncols 2 nrows 1 xllcorner 0 yllcorner 0 cellsize 10\n-9999.001 1\n",
    },
    Case {
        name: "height -9999 under another NoData number",
        cells: 2,
        text: b"ncols 2 nrows 1 xllcorner 0 yllcorner 0 cellsize 10\nnodata_value -1\n5 -9999\n",
    },
    Case {
        name: "1 by 1; NoData number 999999999.99",
        cells: 1,
        text: b"ncols 1 nrows 1 xllcorner 0 yllcorner 0 cellsize 10\nnodata_value 999999999.99\n999999999.99\n",
    },
    Case {
        name: "NoData number -999999999.99; height -0.05",
        cells: 2,
        text: b"ncols 2 nrows 1 xllcorner 0 yllcorner 0 cellsize 10\nnodata_value -999999999.99\n-999999999.99 -0.05\n",
    },
    Case {
        name: "NoData number of 2^32 + 100 cm",
        cells: 2,
        text: b"ncols 2 nrows 1 xllcorner 0 yllcorner 0 cellsize 10\nnodata_value 42949673.96\n1 42949673.96\n",
    },
    // Grids.
    Case {
        name: "1 by 1",
        cells: 1,
        text: b"ncols 1 nrows 1 xllcorner 0 yllcorner 0 cellsize 10\n0",
    },
    Case {
        name: "2 by 3, line ends anywhere",
        cells: 6,
        text: b"ncols 3 nrows 2 xllcorner 0 yllcorner 0 cellsize 10 1\n2 3.5 4 -5\n6",
    },
    Case {
        name: "pit",
        cells: 9,
        text: b"ncols 3 nrows 3 xllcorner 0 yllcorner 0 cellsize 10\n5 5 5\n5 2 4\n5 5 5\n",
    },
];
