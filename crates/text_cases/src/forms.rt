// The form of a number, at corners, side, NoData number and heights, and numbers that are too fine.
use crate::show::Case;

pub(crate) const CASES: &[Case] = &[
    // Numbers of the header.
    Case {
        name: "corners with a minus, nine digits and six decimals; height +5",
        cells: 2,
        text: b"ncols 2 nrows 1 xllcorner -12.123456 yllcorner 999999999.999999 cellsize 10\n+5 1\n",
    },
    Case {
        name: "xllcorner 1e3",
        cells: 2,
        text: b"ncols 2 nrows 1 xllcorner 1e3 yllcorner 0 cellsize 10\n1 2\n",
    },
    Case {
        name: "yllcorner -",
        cells: 2,
        text: b"ncols 2 nrows 1 xllcorner 0 yllcorner - cellsize 10\n1 2\n",
    },
    Case {
        name: "side 5.",
        cells: 2,
        text: b"ncols 2 nrows 1 xllcorner 0 yllcorner 0 cellsize 5.\n1 2\n",
    },
    Case {
        name: "NoData number 0.001",
        cells: 2,
        text: b"ncols 2 nrows 1 xllcorner 0 yllcorner 0 cellsize 10\nnodata_value 0.001\n1 2\n",
    },
    Case {
        name: "NoData number --5",
        cells: 2,
        text: b"ncols 2 nrows 1 xllcorner 0 yllcorner 0 cellsize 10\nnodata_value --5\n1 2\n",
    },
    // The first height.
    Case {
        name: "first height 12,5",
        cells: 2,
        text: b"ncols 2 nrows 1 xllcorner 0 yllcorner 0 cellsize 10\n12,5 1\n",
    },
    Case {
        name: "first height .5",
        cells: 2,
        text: b"ncols 2 nrows 1 xllcorner 0 yllcorner 0 cellsize 10\n.5 1\n",
    },
    Case {
        name: "first height of seven decimals",
        cells: 2,
        text: b"ncols 2 nrows 1 xllcorner 0 yllcorner 0 cellsize 10\n0.0000001 1\n",
    },
    // A later height.
    Case {
        name: "later height 12.505",
        cells: 2,
        text: b"ncols 2 nrows 1 xllcorner 0 yllcorner 0 cellsize 10\n1 12.505\n",
    },
    Case {
        name: "later height 1.2.3",
        cells: 2,
        text: b"ncols 2 nrows 1 xllcorner 0 yllcorner 0 cellsize 10\n1 1.2.3\n",
    },
    Case {
        name: "later height of ten digits",
        cells: 2,
        text: b"ncols 2 nrows 1 xllcorner 0 yllcorner 0 cellsize 10\n1 0000000005\n",
    },
    // Commas.
    Case {
        name: "xllcorner 1,5",
        cells: 2,
        text: b"ncols 2 nrows 1 xllcorner 1,5 yllcorner 0 cellsize 10\n1 2\n",
    },
    Case {
        name: "yllcorner 1,2,3",
        cells: 2,
        text: b"ncols 2 nrows 1 xllcorner 0 yllcorner 1,2,3 cellsize 10\n1 2\n",
    },
    Case {
        name: "side -2,5",
        cells: 2,
        text: b"ncols 2 nrows 1 xllcorner 0 yllcorner 0 cellsize -2,5\n1 2\n",
    },
    Case {
        name: "NoData number -9999,00",
        cells: 2,
        text: b"ncols 2 nrows 1 xllcorner 0 yllcorner 0 cellsize 10\nnodata_value -9999,00\n1 2\n",
    },
    Case {
        name: "later height 12,505, which is too fine too",
        cells: 2,
        text: b"ncols 2 nrows 1 xllcorner 0 yllcorner 0 cellsize 10\n1 12,505\n",
    },
    Case {
        name: "later height 5,",
        cells: 2,
        text: b"ncols 2 nrows 1 xllcorner 0 yllcorner 0 cellsize 10\n1 5,\n",
    },
    Case {
        name: "later height 1.5,3",
        cells: 2,
        text: b"ncols 2 nrows 1 xllcorner 0 yllcorner 0 cellsize 10\n1 1.5,3\n",
    },
    Case {
        name: "later height 12,1234567",
        cells: 2,
        text: b"ncols 2 nrows 1 xllcorner 0 yllcorner 0 cellsize 10\n1 12,1234567\n",
    },
];
