// Blanks and words: which bytes part words, and texts that end inside the header.
use crate::show::Case;

pub(crate) const CASES: &[Case] = &[
    // Blanks.
    Case {
        name: "empty text",
        cells: 0,
        text: b"",
    },
    Case {
        name: "blanks only",
        cells: 1,
        text: b"\t \r\n",
    },
    Case {
        name: "CR LF line ends; heights 12.5000 and -0",
        cells: 2,
        text: b"ncols 2\r\nnrows 1\r\nxllcorner 0\r\nyllcorner 0\r\ncellsize 10\r\n12.5000 -0\r\n",
    },
    Case {
        name: "tabs, blanks in front and behind; nine digits and six decimals",
        cells: 2,
        text: b"\n \tncols\t2\tnrows\t1\txllcorner\t0\tyllcorner\t0\tcellsize\t10\t000000005\t5.250000 \t\r\n\n",
    },
    Case {
        name: "CR as the only blank; the least and the greatest height",
        cells: 2,
        text: b"ncols\r2\rnrows\r1\rxllcorner\r0\ryllcorner\r0\rcellsize\r10\r-500\r9000\r",
    },
    // Bytes that part no words.
    Case {
        name: "vertical tab between name and number",
        cells: 2,
        text: b"ncols\x0b2 nrows 1 xllcorner 0 yllcorner 0 cellsize 10\n1 2\n",
    },
    Case {
        name: "form feed between heights",
        cells: 2,
        text: b"ncols 2 nrows 1 xllcorner 0 yllcorner 0 cellsize 10\n1\x0c2 3\n",
    },
    Case {
        name: "byte order mark",
        cells: 2,
        text: b"\xef\xbb\xbfncols 2 nrows 1 xllcorner 0 yllcorner 0 cellsize 10\n1 2\n",
    },
    Case {
        name: "byte above 127 as the eleventh word",
        cells: 2,
        text: b"ncols 2 nrows 1 xllcorner 0 yllcorner 0 cellsize 10\n\xe9 2\n",
    },
    Case {
        name: "NUL at the end of the last height",
        cells: 2,
        text: b"ncols 2 nrows 1 xllcorner 0 yllcorner 0 cellsize 10\n1 2\0",
    },
    Case {
        name: "NUL after the last height",
        cells: 2,
        text: b"ncols 2 nrows 1 xllcorner 0 yllcorner 0 cellsize 10\n1 2\n\0",
    },
    Case {
        name: "0x1A after the last height",
        cells: 2,
        text: b"ncols 2 nrows 1 xllcorner 0 yllcorner 0 cellsize 10\r\n1 2\r\n\x1a\r\n",
    },
    // Texts that end inside the header.
    Case {
        name: "name cut short",
        cells: 9,
        text: b"ncols 3 nro",
    },
    Case {
        name: "text ends after columns 0",
        cells: 9,
        text: b"ncols 0",
    },
    Case {
        name: "text ends after a name, blanks behind",
        cells: 9,
        text: b"ncols 3 nrows 3 xllcorner \r\n",
    },
];
