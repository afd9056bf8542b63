// The names of the header, and the eleventh word, which is nodata_value or the first height.
use crate::show::Case;

pub(crate) const CASES: &[Case] = &[
    // Upper and lower case.
    Case {
        name: "upper case names; NoData number 0 and height -0",
        cells: 2,
        text: b"NCOLS 2 NROWS 1 XLLCORNER 0 YLLCORNER 0 CELLSIZE 10\nNODATA_VALUE 0\n-0 0.01\n",
    },
    Case {
        name: "mixed case names; NoData number inside the height range",
        cells: 3,
        text: b"nCols 3 NRows 1 XllCorner 0 yLLcORNER 0 CellSize 10\nNoData_Value 12.5\n12.50 12 12.500000\n",
    },
    // Other names.
    Case {
        name: "nrows before ncols",
        cells: 2,
        text: b"nrows 1 ncols 2 xllcorner 0 yllcorner 0 cellsize 10\n1 2\n",
    },
    Case {
        name: "nrow, a letter short",
        cells: 2,
        text: b"ncols 2 nrow 1 xllcorner 0 yllcorner 0 cellsize 10\n1 2\n",
    },
    Case {
        name: "xllcenter",
        cells: 2,
        text: b"ncols 2 nrows 1 xllcenter 0 yllcenter 0 cellsize 10\n1 2\n",
    },
    Case {
        name: "cellsizes, a letter long",
        cells: 2,
        text: b"ncols 2 nrows 1 xllcorner 0 yllcorner 0 cellsizes 10\n1 2\n",
    },
    // The eleventh word.
    Case {
        name: "x as the eleventh word",
        cells: 2,
        text: b"ncols 2 nrows 1 xllcorner 0 yllcorner 0 cellsize 10\nx 2\n",
    },
    Case {
        name: "nan as the eleventh word",
        cells: 2,
        text: b"ncols 2 nrows 1 xllcorner 0 yllcorner 0 cellsize 10\nnan 2\n",
    },
    Case {
        name: "nodata as the eleventh word, and one height lent too few",
        cells: 1,
        text: b"ncols 2 nrows 1 xllcorner 0 yllcorner 0 cellsize 10\nnodata -9999\n1 2\n",
    },
    Case {
        name: "DEL in the place of nodata_value's underscore",
        cells: 2,
        text: b"ncols 2 nrows 1 xllcorner 0 yllcorner 0 cellsize 10\nnodata\x7fvalue -9999\n1 2\n",
    },
    Case {
        name: "bracket as the eleventh word",
        cells: 2,
        text: b"ncols 2 nrows 1 xllcorner 0 yllcorner 0 cellsize 10\n[1 2\n",
    },
    Case {
        name: "nodata_value a second time",
        cells: 2,
        text: b"ncols 2 nrows 1 xllcorner 0 yllcorner 0 cellsize 10\nnodata_value -1\nnodata_value -1\n1 2\n",
    },
];
