// The two counts: digits only, each 1 to 1,024, columns first.
use crate::show::Case;

pub(crate) const CASES: &[Case] = &[
    // The range.
    Case {
        name: "columns 000000000",
        cells: 2,
        text: b"ncols 000000000 nrows 1 xllcorner 0 yllcorner 0 cellsize 10\n1 2\n",
    },
    Case {
        name: "columns 1025, before rows -5",
        cells: 2,
        text: b"ncols 1025 nrows -5 xllcorner 0 yllcorner 0 cellsize 10\n1 2\n",
    },
    Case {
        name: "rows 0",
        cells: 2,
        text: b"ncols 2 nrows 0 xllcorner 0 yllcorner 0 cellsize 10\n1 2\n",
    },
    Case {
        name: "rows 1025",
        cells: 2,
        text: b"ncols 2 nrows 1025 xllcorner 0 yllcorner 0 cellsize 10\n1 2\n",
    },
    Case {
        name: "columns 1024 and rows 1024",
        cells: 2,
        text: b"ncols 1024 nrows 1024 xllcorner 0 yllcorner 0 cellsize 10\n1 2\n",
    },
    // Digits only.
    Case {
        name: "columns 007; NoData spelt in two ways",
        cells: 7,
        text: b"ncols 007 nrows 1 xllcorner 0 yllcorner 0 cellsize 10\n1 2 3 4 5 -9999 -9999.00\n",
    },
    Case {
        name: "columns -5",
        cells: 2,
        text: b"ncols -5 nrows 1 xllcorner 0 yllcorner 0 cellsize 10\n1 2\n",
    },
    Case {
        name: "columns of ten digits",
        cells: 2,
        text: b"ncols 0000000002 nrows 1 xllcorner 0 yllcorner 0 cellsize 10\n1 2\n",
    },
    Case {
        name: "rows 5.0",
        cells: 2,
        text: b"ncols 2 nrows 5.0 xllcorner 0 yllcorner 0 cellsize 10\n1 2\n",
    },
    Case {
        name: "columns 1,5",
        cells: 2,
        text: b"ncols 1,5 nrows 1 xllcorner 0 yllcorner 0 cellsize 10\n1 2\n",
    },
    Case {
        name: "rows 1,",
        cells: 2,
        text: b"ncols 2 nrows 1, xllcorner 0 yllcorner 0 cellsize 10\n1 2\n",
    },
];
