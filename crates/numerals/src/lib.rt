// Numbers as decimal digits in a lent room, for every crate that writes text. RULES 9.2.
//
// Each call writes from the place `at` on, as far as the room goes, and answers how many bytes there were to write. No call has a
// `requires`.
#![tactic(auto)]

ghost use Rattle.std.specs.Prelude.{[], ◌∷◌, ◌≡◌, ◌+◌, ◌≤◌, nat_abs, length, set};
ghost use Rattle.numerals.specs.Words.{decimal, padded};
ghost use Rattle.numerals.specs.Writing.{overlay, Lays};

// One byte. No `get_mut`: its contract doesn't say what the room holds afterwards, so that the proof doesn't close.
pub fn put(out: &mut [u8], at: usize, b: u8)
    ensures { out.new ≡ overlay out.old at (b ∷ []) }
{
    if at < out.len() {
        out[at] = b;
    }
}

// One byte, `i` places past `at`. One test of both: a test of `at` alone would make two loops of each loop over this.
fn put_past(out: &mut [u8], at: usize, i: usize, b: u8)
    ensures { out.new ≡ set out.old (at + i) b }
{
    if i < out.len().saturating_sub(at) {
        out[at + i] = b;
    }
}

// All of `bytes`.
pub fn put_all(out: &mut [u8], at: usize, bytes: &[u8]) -> usize
    ensures { Lays out at bytes.now result }
{
    for (i, b) in bytes.iter().enumerate() {
        put_past(out, at, i, *b);
    }
    bytes.len()
}

// How many decimal digits `n` has.
pub fn digit_count(n: u64) -> usize
    ensures { (result ≡ length (decimal n)) × (result ≤ 20) }
{
    let mut count = 1;
    let mut left = n;
    while 10 <= left {
        left /= 10;
        count += 1;
    }
    count
}

// `n` in decimal digits, the last one first. The first is what is left: `put_padded` would divide once more for it.
pub fn put_natural(out: &mut [u8], at: usize, n: u64) -> usize
    ensures { Lays out at (decimal n) result × (result ≤ 20) }
{
    let count = digit_count(n);
    let mut left = n;
    for i in (1..count).rev() {
        put_past(out, at, i, b'0' + (left % 10) as u8);
        left /= 10;
    }
    put(out, at, b'0' + left as u8);
    count
}

// The last `count` decimal digits of `n`, zeros too, the last one first.
pub fn put_padded(out: &mut [u8], at: usize, n: u64, count: usize) -> usize
    ensures { Lays out at (padded count n) result }
{
    let mut left = n;
    for i in (0..count).rev() {
        put_past(out, at, i, b'0' + (left % 10) as u8);
        left /= 10;
    }
    count
}

// `z` without its sign.
pub fn size(z: i32) -> u64
    ensures { (result ≡ nat_abs z) × (result ≤ 2147483648) }
{
    u64::from(z.unsigned_abs())
}
