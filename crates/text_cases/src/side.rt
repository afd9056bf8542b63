// The cell side: form, then fineness, then the range of 1 to 100,000 cm.
use crate::show::Case;

pub(crate) const CASES: &[Case] = &[
    // In range.
    Case {
        name: "side 1000; nan as a later height",
        cells: 2,
        text: b"ncols 2 nrows 1 xllcorner 0 yllcorner 0 cellsize 1000\n1 nan\n",
    },
    Case {
        name: "side 0.01; height 5-",
        cells: 2,
        text: b"ncols 2 nrows 1 xllcorner 0 yllcorner 0 cellsize 0.01\n1 5-\n",
    },
    // Too fine.
    Case {
        name: "side 0.001",
        cells: 2,
        text: b"ncols 2 nrows 1 xllcorner 0 yllcorner 0 cellsize 0.001\n1 2\n",
    },
    Case {
        name: "side -0.001",
        cells: 2,
        text: b"ncols 2 nrows 1 xllcorner 0 yllcorner 0 cellsize -0.001\n1 2\n",
    },
    Case {
        name: "side 1000.001",
        cells: 2,
        text: b"ncols 2 nrows 1 xllcorner 0 yllcorner 0 cellsize 1000.001\n1 2\n",
    },
    // Out of range.
    Case {
        name: "side 0",
        cells: 2,
        text: b"ncols 2 nrows 1 xllcorner 0 yllcorner 0 cellsize 0\n1 2\n",
    },
    Case {
        name: "side -0",
        cells: 2,
        text: b"ncols 2 nrows 1 xllcorner 0 yllcorner 0 cellsize -0\n1 2\n",
    },
    Case {
        name: "side -1",
        cells: 2,
        text: b"ncols 2 nrows 1 xllcorner 0 yllcorner 0 cellsize -1\n1 2\n",
    },
    Case {
        name: "side 1000.01",
        cells: 2,
        text: b"ncols 2 nrows 1 xllcorner 0 yllcorner 0 cellsize 1000.01\n1 2\n",
    },
    Case {
        name: "side of 2^32 + 1000 cm",
        cells: 2,
        text: b"ncols 2 nrows 1 xllcorner 0 yllcorner 0 cellsize 42949682.96\n1 2\n",
    },
];
