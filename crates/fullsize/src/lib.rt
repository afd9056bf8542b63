// The calls of the layers at full size, for a program in another language that lends the memory.
//
// Each call hands on what it is lent and gives the number of the refusal, 0 where the input is accepted; the place and the other
// numbers go to single numbers that are lent too. The promise of each call is that of the call it wraps, for every input. No call has a
// `requires`: a caller owes only what no call can see, that each pointer with its length is memory of its own. Each list of parameters is
// C's: numbers and lent memory, no structs.
#![tactic(auto)]

mod answers;
mod crossing;
mod farms;
mod mapping;
mod reports;

ghost use Rattle.std.specs.Prelude.{◌≡◌, []};
ghost use Rattle.text.specs.Answers.{header_answer, corners_answer, grid_answer};
ghost use Rattle.floats.specs.Answers.{floats_answer};
ghost use Rattle.settings.specs.Settings.{default_settings};
ghost use Rattle.terrain.specs.Drainage.{Trails, Totals, Surface};
ghost use Rattle.factor.specs.Farms.{one, two};
ghost use Rattle.factor.specs.Answers.{told, lent_before, lent_after};
ghost use Rattle.writer.specs.Text.{frame};
ghost use Rattle.writer.specs.Answers.{height_cells, count_cells, factor_cells, direction_cells};
ghost use Rattle.writer.specs.Answers as W;
ghost use Rattle.writer.specs.Rooms.{room_for, Holds};
ghost use Rattle.fullsize.specs.Outcomes.{grid_reading};
ghost use Rattle.fullsize.specs.Crossing.{numbers_of, settings_of, source_of, one_formula, two_formulas};
ghost use Rattle.fullsize.specs.Mapping.{answer_by, after_by};
ghost use Rattle.report.specs.Maps.{map_of};
ghost use Rattle.report.specs.Reports.{report_of};
ghost use Rattle.report.specs.Answers.{after_join};
ghost use Rattle.fullsize.specs.Reporting.{report_from, numbers_from, reporting_for, reporting_after, added_by};
ghost use Rattle.fullsize.specs.Lent.{reading_after, corners_after, mapping_after, numbers_after, writing_after};

use report::Report;
use settings::Settings;

// Reads the header alone: `text::read_header`. The last four numbers tell where the words of the two corner numbers stand.
#[unsafe(no_mangle)]
pub extern "C" fn lsmap_read_header(
    text: &[u8],
    place: &mut usize,
    rows: &mut usize,
    columns: &mut usize,
    side: &mut u32,
    no_data: &mut i64,
    x_first: &mut usize,
    x_length: &mut usize,
    y_first: &mut usize,
    y_length: &mut usize,
) -> u32
    ensures answers { reading_after result place rows columns side no_data ≡ header_answer text.now }
    ensures corners { corners_after x_first x_length y_first y_length ≡ corners_answer text.now }
{
    let answer = text::read_header(text);
    answers::hand_out_corners(answer, x_first, x_length, y_first, y_length);
    let header = answer.map(|head| head.header);
    answers::hand_out_reading(header, place, rows, columns, side, no_data)
}

// Reads the whole text into the lent heights: `text::read_grid`.
#[unsafe(no_mangle)]
pub extern "C" fn lsmap_read_grid(
    text: &[u8],
    heights: &mut [i32],
    place: &mut usize,
    rows: &mut usize,
    columns: &mut usize,
    side: &mut u32,
    no_data: &mut i64,
) -> u32
    ensures { grid_reading (reading_after result place rows columns side no_data) heights.new
        ≡ grid_answer heights.old text.now }
{
    let answer = text::read_grid(text, heights);
    answers::hand_out_reading(answer, place, rows, columns, side, no_data)
}

// Reads a grid of floats into the lent heights, by the header: `floats::read_floats`.
#[unsafe(no_mangle)]
pub extern "C" fn lsmap_read_floats(
    header: &[u8],
    floats: &[u8],
    heights: &mut [i32],
    place: &mut usize,
    rows: &mut usize,
    columns: &mut usize,
    side: &mut u32,
    no_data: &mut i64,
) -> u32
    ensures { grid_reading (reading_after result place rows columns side no_data) heights.new
        ≡ floats_answer heights.old header.now floats.now }
{
    let answer = floats::read_floats(header, floats, heights);
    answers::hand_out_reading(answer, place, rows, columns, side, no_data)
}

// The library's default settings, as the numbers that `lsmap_map` takes: `Settings::default`.
#[unsafe(no_mangle)]
pub extern "C" fn lsmap_default_settings(
    low: &mut f64,
    high: &mut f64,
    kind: &mut u32,
    cells: &mut u32,
    percentage: &mut f64,
    formula: &mut u32,
)
    ensures { numbers_after low high kind cells percentage formula ≡ numbers_of default_settings }
{
    let settings = Settings::default();
    crossing::hand_out(settings, low, high, kind, cells, percentage, formula)
}

// Maps a ground into the lent grids: `factor::map`, with the settings of the six numbers, and with the directions that the lent
// grid holds if they are given.
#[unsafe(no_mangle)]
pub extern "C" fn lsmap_map(
    rows: usize,
    columns: usize,
    side: u32,
    low: f64,
    high: f64,
    kind: u32,
    cells: u32,
    percentage: f64,
    formula: u32,
    given: bool,
    elevation: &[i32],
    filled: &mut [i32],
    direction: &mut [u8],
    count: &mut [u32],
    lengths: &mut [u64],
    factors: &mut [u32],
    workspace: &mut [u32],
    place: &mut usize,
    valid: &mut u32,
    longest: &mut u32,
) -> u32
    ensures answers { mapping_after result place valid longest
        ≡ told (answer_by rows columns side (one (settings_of low high kind cells percentage formula)) (one_formula formula) (source_of given) elevation.now
        (lent_before filled direction count lengths factors workspace)) }
    ensures leaves { lent_after filled direction count lengths factors workspace
        ≡ after_by rows columns side (one (settings_of low high kind cells percentage formula)) (one_formula formula) (source_of given) elevation.now
        (lent_before filled direction count lengths factors workspace) }
    ensures trails { result ≡ 0 → Trails rows columns elevation.now filled.new direction.new }
    ensures totals { result ≡ 0 →
        Totals rows columns elevation.now direction.new count.new valid.new }
    ensures surface { result ≡ 0 → Surface rows columns elevation.now filled.new }
{
    let settings = crossing::settings_of(low, high, kind, cells, percentage, formula);
    let source = crossing::source_of(given);
    let answer = mapping::map(
        rows, columns, side, settings, formula, source, elevation, filled, direction, count,
        lengths, factors, workspace,
    );
    answers::hand_out_mapping(answer, place, valid, longest)
}

// Maps a ground for two farms into the lent grids: `factor::map_farms`, with each farm's settings as six numbers, those of farm 1
// after those of farm 0, and a mark for each cell.
#[unsafe(no_mangle)]
pub extern "C" fn lsmap_map_farms(
    rows: usize,
    columns: usize,
    side: u32,
    low: f64,
    high: f64,
    kind: u32,
    cells: u32,
    percentage: f64,
    formula: u32,
    low1: f64,
    high1: f64,
    kind1: u32,
    cells1: u32,
    percentage1: f64,
    formula1: u32,
    marks: &[u8],
    given: bool,
    elevation: &[i32],
    filled: &mut [i32],
    direction: &mut [u8],
    count: &mut [u32],
    lengths: &mut [u64],
    factors: &mut [u32],
    workspace: &mut [u32],
    place: &mut usize,
    valid: &mut u32,
    longest: &mut u32,
) -> u32
    ensures answers { mapping_after result place valid longest
        ≡ told (answer_by rows columns side
        (two (settings_of low high kind cells percentage formula) (settings_of low1 high1 kind1 cells1 percentage1 formula1) marks.now)
        (two_formulas formula formula1) (source_of given) elevation.now
        (lent_before filled direction count lengths factors workspace)) }
    ensures leaves { lent_after filled direction count lengths factors workspace
        ≡ after_by rows columns side
        (two (settings_of low high kind cells percentage formula) (settings_of low1 high1 kind1 cells1 percentage1 formula1) marks.now)
        (two_formulas formula formula1) (source_of given) elevation.now
        (lent_before filled direction count lengths factors workspace) }
    ensures trails { result ≡ 0 → Trails rows columns elevation.now filled.new direction.new }
    ensures totals { result ≡ 0 →
        Totals rows columns elevation.now direction.new count.new valid.new }
    ensures surface { result ≡ 0 → Surface rows columns elevation.now filled.new }
{
    let settings = crossing::settings_of(low, high, kind, cells, percentage, formula);
    let second = crossing::settings_of(low1, high1, kind1, cells1, percentage1, formula1);
    let source = crossing::source_of(given);
    let answer = farms::map(
        rows, columns, side, settings, second, formula, formula1, marks, source, elevation, filled,
        direction, count, lengths, factors, workspace,
    );
    answers::hand_out_mapping(answer, place, valid, longest)
}

// Writes ground or filled heights as a text into the lent room: `writer::write_heights`.
#[unsafe(no_mangle)]
pub extern "C" fn lsmap_write_heights(
    rows: usize,
    columns: usize,
    side: u32,
    x_corner: &[u8],
    y_corner: &[u8],
    heights: &[i32],
    room: &mut [u8],
    place: &mut usize,
    length: &mut usize,
) -> u32
    ensures answers { writing_after result place length ≡ W.told (W.answer (frame rows columns side x_corner.now y_corner.now)
        (height_cells (frame rows columns side x_corner.now y_corner.now) heights.now) room.old) }
    ensures leaves { room.new ≡ W.after (frame rows columns side x_corner.now y_corner.now)
        (height_cells (frame rows columns side x_corner.now y_corner.now) heights.now) room.old }
{
    let answer = writer::write_heights(rows, columns, side, x_corner, y_corner, heights, room);
    answers::hand_out_writing(answer, place, length)
}

// Writes flow counts: `writer::write_counts`.
#[unsafe(no_mangle)]
pub extern "C" fn lsmap_write_counts(
    rows: usize,
    columns: usize,
    side: u32,
    x_corner: &[u8],
    y_corner: &[u8],
    counts: &[u32],
    room: &mut [u8],
    place: &mut usize,
    length: &mut usize,
) -> u32
    ensures answers { writing_after result place length ≡ W.told (W.answer (frame rows columns side x_corner.now y_corner.now)
        (count_cells counts.now) room.old) }
    ensures leaves { room.new ≡ W.after (frame rows columns side x_corner.now y_corner.now)
        (count_cells counts.now) room.old }
{
    let answer = writer::write_counts(rows, columns, side, x_corner, y_corner, counts, room);
    answers::hand_out_writing(answer, place, length)
}

// Writes LS: `writer::write_factors`.
#[unsafe(no_mangle)]
pub extern "C" fn lsmap_write_factors(
    rows: usize,
    columns: usize,
    side: u32,
    x_corner: &[u8],
    y_corner: &[u8],
    factors: &[u32],
    room: &mut [u8],
    place: &mut usize,
    length: &mut usize,
) -> u32
    ensures answers { writing_after result place length ≡ W.told (W.answer (frame rows columns side x_corner.now y_corner.now)
        (factor_cells factors.now) room.old) }
    ensures leaves { room.new ≡ W.after (frame rows columns side x_corner.now y_corner.now)
        (factor_cells factors.now) room.old }
{
    let answer = writer::write_factors(rows, columns, side, x_corner, y_corner, factors, room);
    answers::hand_out_writing(answer, place, length)
}

// Writes directions as a text into the lent room: `writer::write_directions`.
#[unsafe(no_mangle)]
pub extern "C" fn lsmap_write_directions(
    rows: usize,
    columns: usize,
    side: u32,
    x_corner: &[u8],
    y_corner: &[u8],
    directions: &[u8],
    room: &mut [u8],
    place: &mut usize,
    length: &mut usize,
) -> u32
    ensures answers { writing_after result place length ≡ W.told (W.answer (frame rows columns side x_corner.now y_corner.now)
        (direction_cells directions.now) room.old) }
    ensures leaves { room.new ≡ W.after (frame rows columns side x_corner.now y_corner.now)
        (direction_cells directions.now) room.old }
{
    let answer = writer::write_directions(
        rows, columns, side, x_corner, y_corner, directions, room,
    );
    answers::hand_out_writing(answer, place, length)
}

// How many bytes a room needs for any text of a shape: `writer::room`.
#[unsafe(no_mangle)]
pub extern "C" fn lsmap_room(rows: usize, columns: usize) -> usize
    ensures is { result ≡ room_for rows columns }
    ensures holds { Holds rows columns result }
{
    writer::room(rows, columns)
}

// The report of no maps, as fourteen numbers: `Report::empty`.
#[unsafe(no_mangle)]
pub extern "C" fn lsmap_report_empty(report: &mut [u64; 14])
    ensures { report.new ≡ numbers_from (report_of []) }
{
    reports::hand_out(Report::empty(), report)
}

// Adds a map to a report: `report::add`, with the settings of the six numbers.
#[unsafe(no_mangle)]
pub extern "C" fn lsmap_report_add(
    rows: usize,
    columns: usize,
    low: f64,
    high: f64,
    kind: u32,
    cells: u32,
    percentage: f64,
    formula: u32,
    count: &[u32],
    factors: &[u32],
    report: &mut [u64; 14],
    place: &mut usize,
) -> u32
    ensures { reporting_after result place report
        ≡ reporting_for report.old (added_by (report_from report.old)
        (map_of rows columns (one (settings_of low high kind cells percentage formula)) count.now factors.now) (one_formula formula)) }
{
    let settings = crossing::settings_of(low, high, kind, cells, percentage, formula);
    let mut total = reports::report_of(report);
    let answer = reports::add(&mut total, rows, columns, settings, formula, count, factors);
    reports::hand_out_answer(answer, total, report, place)
}

// Adds a map of two farms to the report: `report::add_farms`, with each farm's settings as six numbers and a mark for each cell.
#[unsafe(no_mangle)]
pub extern "C" fn lsmap_report_add_farms(
    rows: usize,
    columns: usize,
    low: f64,
    high: f64,
    kind: u32,
    cells: u32,
    percentage: f64,
    formula: u32,
    low1: f64,
    high1: f64,
    kind1: u32,
    cells1: u32,
    percentage1: f64,
    formula1: u32,
    marks: &[u8],
    count: &[u32],
    factors: &[u32],
    report: &mut [u64; 14],
    place: &mut usize,
) -> u32
    ensures { reporting_after result place report
        ≡ reporting_for report.old (added_by (report_from report.old)
        (map_of rows columns
        (two (settings_of low high kind cells percentage formula) (settings_of low1 high1 kind1 cells1 percentage1 formula1) marks.now)
        count.now factors.now) (two_formulas formula formula1)) }
{
    let settings = crossing::settings_of(low, high, kind, cells, percentage, formula);
    let second = crossing::settings_of(low1, high1, kind1, cells1, percentage1, formula1);
    let mut total = reports::report_of(report);
    let answer = farms::add(
        &mut total, rows, columns, settings, second, formula, formula1, marks, count, factors,
    );
    reports::hand_out_answer(answer, total, report, place)
}

// Joins a second report to a first: `report::join`.
#[unsafe(no_mangle)]
pub extern "C" fn lsmap_report_join(
    report: &mut [u64; 14],
    other: &[u64; 14],
    place: &mut usize,
) -> u32
    ensures { reporting_after result place report
        ≡ reporting_for report.old (after_join (report_from report.old) (report_from other.now)) }
{
    let mut joined = reports::report_of(report);
    let later = reports::report_of(other);
    let answer = report::join(&mut joined, later);
    reports::hand_out_answer(answer, joined, report, place)
}
