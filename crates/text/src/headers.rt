// The header: five names, each followed by its number, and optionally the NoData number.
ghost use Rattle.std.specs.Prelude.{◌≡◌, ◌≤◌, length, pos, IfOk};
ghost use Rattle.text.specs.Quantities.{side_in};
ghost use Rattle.text.specs.Headers.{lower, letter, letter_next, named, name};
ghost use Rattle.text.specs.Headers.{corner, side, any_measure, no_data, extent, corners, side_and_no_data, head};
ghost use Rattle.text.specs.InnerWords.{moved_of, step_of};
ghost use Rattle.text.specs.InnerHeaders.{extent_of, head_of, Fits, HeadFits};

use crate::words::{Cursor, Read, Reading};
use crate::{Corners, Fault, Head, Header, Refusal, Span, numbers, words};

// RULES 2: the NoData number where the text gives none, -9999 m, in cm.
const ABSENT_NO_DATA: i64 = -9999 * 100;

// Rows and columns.
#[derive(Clone, Copy)]
pub(crate) struct Extent {
    pub(crate) rows: usize,
    pub(crate) columns: usize,
}

// The byte as a small letter, if it is a letter.
fn lower_case(b: u8) -> u8
    ensures { result ≡ lower b }
{
    b.to_ascii_lowercase()
}

fn is_letter(b: u8) -> bool
    ensures { result ≡ letter b }
{
    b.is_ascii_alphabetic()
}

// Whether the bytes from `a` up to `e` are those of the name `n`, but for letter case.
fn is_named(s: &[u8], a: usize, e: usize, n: &[u8]) -> bool
    requires { (a ≤ e) × (e ≤ length s.now) }
    ensures { result ≡ named s.now a e n.now }
{
    if e - a != n.len() {
        return false;
    }
    for i in 0..n.len() {
        if lower_case(s[a + i]) != n[i] {
            return false;
        }
    }
    true
}

// The header name `n`: the cursor after it.
#[tactic(auto, using(crate::proofs::InnerFields::of_name))]
fn read_name(s: &[u8], k: Cursor, n: &[u8]) -> Result<Cursor, Refusal>
    ensures { moved_of result ≡ name n.now s.now k.at }
{
    let Some(word) = k.word(s) else {
        return Err(Refusal {
            fault: Fault::Ended,
            place: s.len(),
        });
    };
    if is_named(s, word.value.start, word.value.end, n) {
        return Ok(word.rest);
    }
    Err(Refusal {
        fault: Fault::Name,
        place: word.value.start,
    })
}

// Where a corner number stands, of which only the form is judged.
#[tactic(auto, using(crate::proofs::InnerFields::of_corner))]
fn read_corner(s: &[u8], k: Cursor) -> Reading<Span>
    ensures { step_of (λ x. x) result ≡ corner s.now k.at }
{
    let number = k.number(s)?;
    let first = number.value.start;
    Ok(Read {
        value: Span {
            first,
            length: number.rest.at - first,
        },
        rest: number.rest,
    })
}

// Whether a cell side of so many cm is allowed.
fn side_in(cm: i64) -> bool
    ensures { result ≡ side_in cm }
{
    (1..=100000).contains(&cm)
}

// A cell side.
#[tactic(auto, using(crate::proofs::InnerFields::of_side))]
fn read_side(s: &[u8], k: Cursor) -> Reading<u32>
    ensures { step_of pos result ≡ side s.now k.at }
{
    let measure = numbers::read_measure(s, k)?;
    if side_in(measure.value.cm) {
        return Ok(Read {
            value: measure.value.cm as u32,
            rest: measure.rest,
        });
    }
    Err(Refusal {
        fault: Fault::Side,
        place: measure.value.start,
    })
}

// A number in cm of any size.
#[tactic(auto, using(crate::proofs::InnerFields::of_length))]
fn read_length(s: &[u8], k: Cursor) -> Reading<i64>
    ensures { step_of (λ x. x) result ≡ any_measure s.now k.at }
{
    let measure = numbers::read_measure(s, k)?;
    Ok(Read {
        value: measure.value.cm,
        rest: measure.rest,
    })
}

// Whether the next word begins with a letter.
fn letter_next(s: &[u8], k: Cursor) -> bool
    ensures { result ≡ letter_next s.now k.at }
{
    let a = words::word_start(s, k.at);
    a < s.len() && is_letter(s[a])
}

// The NoData number in cm: the one given, or -9999 m.
#[tactic(auto, using(crate::proofs::InnerFields::of_no_data))]
fn read_no_data(s: &[u8], k: Cursor) -> Reading<i64>
    ensures { step_of (λ x. x) result ≡ no_data s.now k.at }
{
    if letter_next(s, k) {
        return read_length(s, read_name(s, k, b"nodata_value")?);
    }
    Ok(Read {
        value: ABSENT_NO_DATA,
        rest: k,
    })
}

// The number of columns, then that of rows.
fn read_extent(s: &[u8], k: Cursor) -> Reading<Extent>
    ensures { (step_of extent_of result ≡ extent s.now k.at) × IfOk result (λ x. Fits x.value.rows x.value.columns) }
{
    let columns = numbers::read_count(s, read_name(s, k, b"ncols")?)?;
    let rows = numbers::read_count(s, read_name(s, columns.rest, b"nrows")?)?;
    Ok(Read {
        value: Extent {
            rows: rows.value,
            columns: columns.value,
        },
        rest: rows.rest,
    })
}

// The two corner numbers.
fn read_corners(s: &[u8], k: Cursor) -> Reading<Corners>
    ensures { step_of (λ x. x) result ≡ corners s.now k.at }
{
    let x = read_corner(s, read_name(s, k, b"xllcorner")?)?;
    let y = read_corner(s, read_name(s, x.rest, b"yllcorner")?)?;
    Ok(Read {
        value: Corners {
            x: x.value,
            y: y.value,
        },
        rest: y.rest,
    })
}

// The cell side and the NoData number, after the extent `e` and the corners.
fn read_side_and_no_data(s: &[u8], k: Cursor, e: Extent, corners: Corners) -> Reading<Head>
    requires { Fits e.rows e.columns }
    ensures { (step_of head_of result ≡ side_and_no_data (extent_of e) corners s.now k.at) × HeadFits result }
{
    let side = read_side(s, read_name(s, k, b"cellsize")?)?;
    let no_data = read_no_data(s, side.rest)?;
    Ok(Read {
        value: Head {
            header: Header {
                rows: e.rows,
                columns: e.columns,
                side: side.value,
                no_data: no_data.value,
            },
            corners,
        },
        rest: no_data.rest,
    })
}

// The header that begins at `k`.
#[tactic(auto, using(crate::proofs::InnerFields::of_head))]
pub(crate) fn read(s: &[u8], k: Cursor) -> Reading<Head>
    ensures { (step_of head_of result ≡ head s.now k.at) × HeadFits result }
{
    let extent = read_extent(s, k)?;
    let corners = read_corners(s, extent.rest)?;
    read_side_and_no_data(s, corners.rest, extent.value, corners.value)
}
