// Small fields, drawn with a digit for each cell's height in metres and a point for NoData.
use crate::land::{Field, Land};
use text::NO_DATA;

// A bowl of 7 by 9 with a level rim.
pub(crate) const LEVEL_BOWL: &[u8] = b"999999999\
    987654329\
    976543219\
    965432109\
    976543219\
    987654329\
    999999999";

pub(crate) const BASINS: &[Field] = &[
    Field {
        name: "pit",
        land: Land::Drawn(
            b"555\
        524\
        555",
        ),
        rows: 3,
        columns: 3,
    },
    Field {
        name: "bowl with a level rim",
        land: Land::Drawn(LEVEL_BOWL),
        rows: 7,
        columns: 9,
    },
    Field {
        name: "pit within a pit, its mouth at a corner",
        land: Land::Drawn(
            b"8888888\
        8222228\
        8255528\
        8251528\
        8255528\
        8222228\
        8888883",
        ),
        rows: 7,
        columns: 7,
    },
    Field {
        name: "corridor with two mouths",
        land: Land::Drawn(
            b"999999999\
        444444444\
        999999999",
        ),
        rows: 3,
        columns: 9,
    },
];

pub(crate) const SLOPES: &[Field] = &[
    Field {
        name: "flat that ends at the rim and at a slope",
        land: Land::Drawn(
            b"99999999\
        94444449\
        94444449\
        44444439\
        94444429\
        99999919",
        ),
        rows: 6,
        columns: 8,
    },
    Field {
        name: "peak with eight equal drops",
        land: Land::Drawn(
            b"222\
        252\
        222",
        ),
        rows: 3,
        columns: 3,
    },
    Field {
        name: "drops to the four corners",
        land: Land::Drawn(
            b"393\
        959\
        393",
        ),
        rows: 3,
        columns: 3,
    },
    Field {
        name: "drops north-east and north-west",
        land: Land::Drawn(
            b"393\
        959\
        999",
        ),
        rows: 3,
        columns: 3,
    },
];

pub(crate) const HOLES: &[Field] = &[
    Field {
        name: "all NoData",
        land: Land::Drawn(
            b"....\
        ....\
        ....",
        ),
        rows: 3,
        columns: 4,
    },
    Field {
        name: "single cells in NoData",
        land: Land::Drawn(
            b"5.5.5\
        .....\
        5.9.4\
        ..8..",
        ),
        rows: 4,
        columns: 5,
    },
    Field {
        name: "pit behind one NoData cell",
        land: Land::Drawn(
            b"99999\
        9111.\
        91919\
        91119\
        99999",
        ),
        rows: 5,
        columns: 5,
    },
];

pub(crate) const STRIPS: &[Field] = &[
    Field {
        name: "one cell",
        land: Land::Drawn(b"0"),
        rows: 1,
        columns: 1,
    },
    Field {
        name: "one cell of NoData",
        land: Land::Drawn(b"."),
        rows: 1,
        columns: 1,
    },
    Field {
        name: "strip 9 8 7 5",
        land: Land::Drawn(b"9875"),
        rows: 1,
        columns: 4,
    },
    Field {
        name: "strip 9 7 6",
        land: Land::Drawn(b"976"),
        rows: 1,
        columns: 3,
    },
];

pub(crate) const PITS_IN_STRIPS: &[Field] = &[
    Field {
        name: "strip with pits, flats and NoData",
        land: Land::Drawn(b"5533777.2444"),
        rows: 1,
        columns: 12,
    },
    Field {
        name: "strip with pits, flats and NoData",
        land: Land::Drawn(b"5533777.2444"),
        rows: 12,
        columns: 1,
    },
    Field {
        name: "two rows, all of them rim",
        land: Land::Drawn(
            b"523455\
        313542",
        ),
        rows: 2,
        columns: 6,
    },
];

// A plateau within a higher edge, with a pit and with a lake around an island of one cell.
pub(crate) const PLATEAU: &[Field] = &[Field {
    name: "plateau",
    land: Land::Drawn(
        b"999999999999999999999999\
        988888888888888888888889\
        988888888888888888888889\
        988888888.88888888888889\
        9888888.....888888888889\
        98888.........8888888889\
        988......8......88888889\
        98888.........8888888889\
        9888888.....888888888889\
        988888888.88888888888889\
        988888888888888888888889\
        988888888888888333338889\
        988888888888888333338889\
        988888888888888333338889\
        988888888888888888888889\
        999999999999999999999999",
    ),
    rows: 16,
    columns: 24,
}];

// The height that a picture shows at the cell x.
pub(crate) fn height(picture: &[u8], x: usize) -> i32 {
    match picture.get(x) {
        Some(digit @ b'0'..=b'9') => i32::from(digit - b'0') * 100,
        _ => NO_DATA,
    }
}
