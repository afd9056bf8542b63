// Our own directions given back: the map call must then leave what it left with its own.
use crate::drawn::LEVEL_BOWL;
use crate::land::{Field, Land};
use crate::show::{MOST, Places, Room, became, map};
use factor::Source;
use std::io;

pub(crate) fn own(rt: &impl Print) -> io::Result<()> {
    for field in OWN {
        field_back(rt, *field)?;
    }
    Ok(())
}

const OWN: &[Field] = &[
    Field {
        name: "bowl with a level rim",
        land: Land::Drawn(LEVEL_BOWL),
        rows: 7,
        columns: 9,
    },
    Field {
        name: "noise and NoData",
        land: Land::StepNoise,
        rows: 20,
        columns: 30,
    },
];

// Gives each cell its height, and maps the field with our own directions, then with these given back.
fn field_back(rt: &impl Print, field: Field) -> io::Result<()> {
    let Field {
        name,
        land,
        rows,
        columns,
    } = field;
    let mut heights = [0; MOST];
    let ground = &mut heights[..field.cells()];
    land.shape(columns, ground);
    let places = Places::of(ground.len());
    let mut own_room = Room::new();
    let mut own = own_room.lend(places);
    let mut back_room = Room::new();
    let mut back = back_room.lend(places);
    print!(rt; "{name} {rows} {columns}")?;
    map(rt, rows, columns, Source::Own, ground, &mut own)?;
    back.give(own.direction);
    map(rt, rows, columns, Source::Given, ground, &mut back)?;
    println!(rt; "\nworkspace {}", became(back.workspace))?;
    let same = *back.filled == *own.filled
        && *back.direction == *own.direction
        && *back.count == *own.count
        && *back.lengths == *own.lengths
        && *back.factors == *own.factors;
    let answer = if same { "same" } else { "different" };
    println!(rt; "given back {answer}")
}
