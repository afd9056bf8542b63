// The heights and the text's end: all is judged before the first height is stored.
ghost use Rattle.std.specs.Prelude.{◌≡◌, length};
ghost use Rattle.text.specs.Quantities.{height_in};
ghost use Rattle.text.specs.Heights.{height, heights, end};
ghost use Rattle.text.specs.Answers.{header_of, grid_outcome_of};
ghost use Rattle.text.specs.InnerWords.{moved_of, step_of};
ghost use Rattle.text.specs.InnerHeaders.{Fits};
ghost use Rattle.text.specs.InnerHeights.{HeightFits, forget, Good, values_of, body_answer};

use crate::words::{Cursor, Read, Reading};
use crate::{Fault, Header, NO_DATA, Refusal, numbers, words};

// Whether a height of so many cm is allowed.
fn height_in(cm: i64) -> bool
    ensures { result ≡ height_in cm }
{
    (-50000..=900000).contains(&cm)
}

// The next height; `n` is the NoData number.
#[tactic(auto, using(crate::proofs::InnerGrids::of_height))]
fn read_height(s: &[u8], k: Cursor, n: i64) -> Reading<i64>
    ensures { (step_of (λ x. x) result ≡ height n s.now k.at) × HeightFits result }
{
    let measure = numbers::read_measure(s, k)?;
    let rest = measure.rest;
    if measure.value.cm == n {
        return Ok(Read {
            value: i64::from(NO_DATA),
            rest,
        });
    }
    if height_in(measure.value.cm) {
        return Ok(Read {
            value: measure.value.cm,
            rest,
        });
    }
    Err(Refusal {
        fault: Fault::Height,
        place: measure.value.start,
    })
}

// Judges `count` heights: the cursor after them.
fn judge_heights(s: &[u8], k: Cursor, n: i64, count: usize) -> Result<Cursor, Refusal>
    ensures { moved_of result ≡ forget (heights n count s.now k.at) }
{
    let mut rest = k;
    for _judged in 0..count {
        rest = read_height(s, rest, n)?.rest;
    }
    Ok(rest)
}

// Judges that no word is left.
#[tactic(auto, using(crate::proofs::InnerGrids::of_end))]
pub(crate) fn judge_end(s: &[u8], k: Cursor) -> Result<Cursor, Refusal>
    ensures { moved_of result ≡ end s.now k.at }
{
    let a = words::word_start(s, k.at);
    if a < s.len() {
        return Err(Refusal {
            fault: Fault::Trailing,
            place: a,
        });
    }
    Ok(k)
}

// Stores the heights, which were judged to be good.
fn store_heights(s: &[u8], k: Cursor, n: i64, out: &mut [i32])
    requires { Good (heights n (length out.old) s.now k.at) }
    ensures { out.new ≡ values_of (heights n (length out.old) s.now k.at) }
{
    let mut rest = k;
    for h in out {
        let Ok(height) = read_height(s, rest, n) else {
            return;
        };
        *h = height.value as i32;
        rest = height.rest;
    }
}

// What follows the header: all heights are stored, or none.
#[tactic(auto, using(crate::proofs::InnerGrids::of_body))]
pub(crate) fn read(s: &[u8], k: Cursor, header: Header, out: &mut [i32]) -> Result<Header, Refusal>
    requires { Fits header.rows header.columns }
    ensures { grid_outcome_of result out.new ≡ body_answer (header_of header) out.old s.now k.at }
{
    if out.len() != header.rows * header.columns {
        return Err(Refusal {
            fault: Fault::Length,
            place: 0,
        });
    }
    let rest = judge_heights(s, k, header.no_data, out.len())?;
    judge_end(s, rest)?;
    store_heights(s, k, header.no_data, out);
    Ok(header)
}
