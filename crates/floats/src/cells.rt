// The floats of the cells: all are judged before the first height is stored. RULES 11.3.
ghost use Rattle.std.specs.Prelude.{◌≡◌, ◌+◌, ◌*◌, ◌≤◌, ◌<◌, length};
ghost use Rattle.laws.specs.Lists.{tab};
ghost use Rattle.text.specs.Answers.{header_of, grid_outcome_of};
ghost use Rattle.floats.specs.Floats.{equal, bits_at};
ghost use Rattle.floats.specs.Answers.{height_of, fault_of, first_fault};
ghost use Rattle.floats.specs.InnerCells.{number_or_none, judged_of, judged, Fits, body_answer};

use crate::rounding;
use text::{Fault, Header, NO_DATA, Refusal};

// Bits from here on have the sign minus.
const MINUS: u32 = 2147483648;

// The bits of plus infinity.
const INFINITE: u32 = 2139095040;

// The bits of the greatest floats that round to 9,000 m and, without their sign, to -500 m.
const HIGHEST: u32 = 1175232517;

const LOWEST: u32 = 1140457635;

// The bits of the float of the cell `x`.
#[tactic(auto, unfolding(crate::specs::Floats::bits_at))]
fn bits_at(floats: &[u8], x: usize) -> u32
    requires { 4 * x + 3 < length floats.now }
    ensures { result ≡ bits_at floats.now x }
{
    let i = 4 * x;
    u32::from_le_bytes([floats[i], floats[i + 1], floats[i + 2], floats[i + 3]])
}

// Whether two floats are equal.
#[tactic(auto, unfolding(crate::specs::Floats::equal))]
fn is_equal(a: u32, b: u32) -> bool
    ensures { result ≡ equal a b }
{
    a == b || a % MINUS == 0 && b % MINUS == 0
}

// Why a float is refused, if it is; `v` is the NoData float. The first test says no more than the others do: it is for grids of NoData,
// where it is all that a cell takes.
fn fault_of(v: u32, bits: u32) -> Option<Fault>
    ensures { number_or_none result ≡ fault_of v bits }
{
    if bits == v && v % MINUS < INFINITE {
        return None;
    }
    let m = bits % MINUS;
    if INFINITE <= m {
        return Some(Fault::NotFinite);
    }
    let most = if bits < MINUS { HIGHEST } else { LOWEST };
    if is_equal(bits, v) || m <= most {
        return None;
    }
    Some(Fault::Height)
}

// The height of a float without a fault.
fn height_of(v: u32, bits: u32) -> i32
    requires { fault_of v bits ≡ 0 }
    ensures { result ≡ height_of v bits }
{
    if is_equal(bits, v) {
        return NO_DATA;
    }
    let cm = rounding::centimetres(bits % MINUS) as i32;
    if bits < MINUS { cm } else { -cm }
}

// Judges that none of `count` cells has a fault.
fn judge(v: u32, floats: &[u8], count: usize) -> Result<(), Refusal>
    requires { (4 * count ≤ length floats.now) × (count ≤ 1048576) }
    ensures { judged_of result ≡ judged v floats.now count }
{
    for place in 0..count {
        if let Some(fault) = fault_of(v, bits_at(floats, place)) {
            return Err(Refusal { fault, place });
        }
    }
    Ok(())
}

// Stores the heights of floats without a fault.
fn store(v: u32, floats: &[u8], out: &mut [i32])
    requires { (length floats.now ≡ 4 * length out.old) × (length out.old ≤ 1048576)
        × (first_fault v floats.now (length out.old) ≡ length out.old) }
    ensures { out.new ≡ tab (length out.old) (λ x. height_of v (bits_at floats.now x)) }
{
    for (x, h) in out.iter_mut().enumerate() {
        *h = height_of(v, bits_at(floats, x));
    }
}

// What follows a good header: all heights are stored, or none.
#[tactic(auto, using(crate::proofs::InnerCells::of_body))]
pub(crate) fn read(floats: &[u8], header: Header, out: &mut [i32]) -> Result<Header, Refusal>
    requires { Fits header.rows header.columns }
    ensures { grid_outcome_of result out.new ≡ body_answer (header_of header) out.old floats.now }
{
    if out.len() != header.rows * header.columns {
        return Err(Refusal {
            fault: Fault::Length,
            place: 0,
        });
    }
    if floats.len() != 4 * out.len() {
        return Err(Refusal {
            fault: Fault::FloatBytes,
            place: 0,
        });
    }
    let v = rounding::nearest_float(header.no_data);
    judge(v, floats, out.len())?;
    store(v, floats, out);
    Ok(header)
}
