// Numbers, read from their first byte in one pass: a sign, whole digits, a point, decimals, and the word's end.
ghost use Rattle.std.specs.Prelude.{◌≡◌, true, false, cond, ◌&&◌, ◌+◌, ◌-◌, ◌*◌, ◌≤◌, ◌<◌, eqb, length, get_or, IfOk};
ghost use Rattle.text.specs.Words.{run, solid, word_end};
ghost use Rattle.text.specs.Numbers.{digit, digit_of, zero, after_sign, value, number_at, decimals, is_formed, is_number, comma_decimal, centimetres, number};
ghost use Rattle.text.specs.Numbers as D;
ghost use Rattle.text.specs.Faults.{number_of};
ghost use Rattle.text.specs.InnerWords.{step_of};
ghost use Rattle.text.specs.InnerNumbers.{Limit, DigitsFrom, HundredthsFrom, TailFrom, Parsed, placed_of, measure_of, SizeFits};

use crate::words::{Cursor, Read, Reading};
use crate::{Fault, Refusal, is_size, words};

// Digits that were read: what they stand for, and the place after them.
#[derive(Clone, Copy)]
pub(crate) struct Digits {
    pub(crate) value: u64,
    pub(crate) end: usize,
}

// What follows the first two decimals: the place after all of them, and whether a digit past the second is not 0.
#[derive(Clone, Copy)]
pub(crate) struct Tail {
    pub(crate) end: usize,
    pub(crate) fine: bool,
}

// A word's number: of `size` cm, `fine` where a digit past the second decimal is not 0; and the place after it.
#[derive(Clone, Copy)]
pub(crate) struct Formed {
    pub(crate) minus: bool,
    pub(crate) size: u64,
    pub(crate) fine: bool,
    pub(crate) end: usize,
}

// The place at which a word stops being a number.
#[derive(Clone, Copy)]
pub(crate) struct Malformed {
    pub(crate) at: usize,
}

fn is_digit(b: u8) -> bool
    ensures { result ≡ digit b }
{
    b.is_ascii_digit()
}

// What a digit stands for.
fn digit_of(b: u8) -> u64
    requires { digit b ≡ true }
    ensures { (result ≡ digit_of b) × (result ≤ 9) }
{
    u64::from(b - b'0')
}

// The place `most` places after `a`, or the text's length if that comes first.
fn limit(s: &[u8], a: usize, most: usize) -> usize
    requires { a ≤ length s.now }
    ensures { Limit (length s.now) a most result }
{
    a + most.min(s.len() - a)
}

// The digits from `a` on, at most `most` of them.
fn read_digits(s: &[u8], a: usize, most: usize) -> Digits
    requires { (a ≤ length s.now) × (most ≤ 9) }
    ensures { DigitsFrom s.now a most result.value result.end }
{
    let stop = limit(s, a, most);
    let mut value: u64 = 0;
    for i in a..stop {
        let b = s[i];
        if !is_digit(b) {
            return Digits { value, end: i };
        }
        value = value * 10 + digit_of(b);
    }
    Digits { value, end: stop }
}

// The place after the zeros from `a` on, at most `most` of them.
fn zeros_end(s: &[u8], a: usize, most: usize) -> usize
    requires { a ≤ length s.now }
    ensures { result ≡ run zero s.now a most }
{
    let stop = limit(s, a, most);
    for i in a..stop {
        if s[i] != b'0' {
            return i;
        }
    }
    stop
}

// The byte at `i`; 0 past the text's end.
fn byte_at(s: &[u8], i: usize) -> u8
    ensures { result ≡ get_or s.now i 0 }
{
    s.get(i).copied().unwrap_or(0)
}

// Whether the word that goes on up to `i` ends there.
fn ends(s: &[u8], i: usize) -> bool
    ensures { result ≡ eqb i (word_end s.now i) }
{
    if i < s.len() {
        return words::is_blank(s[i]);
    }
    true
}

// What follows the first two decimals, which stand from `p` up to `q`.
fn read_tail(s: &[u8], p: usize, q: usize) -> Tail
    requires { (p ≤ length s.now) × (q ≡ run digit s.now p 2) }
    ensures { TailFrom s.now p result.end result.fine }
{
    if q - p < 2 {
        return Tail {
            end: q,
            fine: false,
        };
    }
    let z = zeros_end(s, q, 4);
    let d = read_digits(s, z, 4 - (z - q));
    let f = d.end;
    Tail {
        end: f,
        fine: z < f,
    }
}

// The first two decimals, from `p` on, as hundredths.
fn read_hundredths(s: &[u8], p: usize) -> Digits
    requires { p ≤ length s.now }
    ensures { HundredthsFrom s.now p result.value result.end }
{
    let d = read_digits(s, p, 2);
    if d.end - p < 2 {
        return Digits {
            value: d.value * 10,
            end: d.end,
        };
    }
    d
}

// The number of `size` whole cm whose decimals begin at `p`.
fn read_decimals(s: &[u8], minus: bool, size: u64, p: usize) -> Result<Formed, Malformed>
    requires { (p ≤ length s.now) × (size < 100000000000) }
    ensures { Parsed (word_end s.now p) (decimals s.now (word_end s.now p) minus size p) result }
{
    let h = read_hundredths(s, p);
    let q = h.end;
    if q == p {
        return Err(Malformed { at: p });
    }
    if ends(s, q) {
        return Ok(Formed {
            minus,
            size: size + h.value,
            fine: false,
            end: q,
        });
    }
    let t = read_tail(s, p, q);
    let f = t.end;
    if ends(s, f) {
        return Ok(Formed {
            minus,
            size: size + h.value,
            fine: t.fine,
            end: f,
        });
    }
    Err(Malformed { at: f })
}

// The place after the minus, where there is one.
fn after_sign(s: &[u8], a: usize) -> usize
    requires { a < length s.now }
    ensures { result ≡ after_sign s.now a }
{
    if s[a] == b'-' {
        return a + 1;
    }
    a
}

// The number whose word begins at `a`.
fn read_form(s: &[u8], a: usize) -> Result<Formed, Malformed>
    requires { (a < length s.now) × (solid (get_or s.now a 0) ≡ true) }
    ensures { Parsed (word_end s.now a) (number_at s.now a (word_end s.now a)) result }
{
    let b = after_sign(s, a);
    let w = read_digits(s, b, 9);
    let d = w.end;
    if d == b {
        return Err(Malformed { at: d });
    }
    let size = w.value * 100;
    if byte_at(s, d) == b'.' {
        return read_decimals(s, a < b, size, d + 1);
    }
    if ends(s, d) {
        return Ok(Formed {
            minus: a < b,
            size,
            fine: false,
            end: d,
        });
    }
    Err(Malformed { at: d })
}

// Whether the bytes of `word` are those of a number's word.
pub fn is_number(word: &[u8]) -> bool
    ensures { result ≡ is_number word.now }
{
    if word.is_empty() {
        return false;
    }
    let b = after_sign(word, 0);
    let w = read_digits(word, b, 9);
    let d = w.end;
    if d == b {
        return false;
    }
    if byte_at(word, d) != b'.' {
        return d == word.len();
    }
    let t = read_digits(word, d + 1, 6);
    let f = t.end;
    if f == d + 1 {
        return false;
    }
    f == word.len()
}

// Whether the word that begins at `a`, which is no number, would be one if its first comma were a point. Only then do its whole
// digits end at that comma.
fn is_comma_decimal(s: &[u8], a: usize) -> bool
    requires { (a < length s.now) × (solid (get_or s.now a 0) ≡ true) × (is_formed (number_at s.now a (word_end s.now a)) ≡ false) }
    ensures { result ≡ comma_decimal number_at s.now a (word_end s.now a) }
{
    let b = after_sign(s, a);
    let w = read_digits(s, b, 9);
    let d = w.end;
    if d == b {
        return false;
    }
    if byte_at(s, d) != b',' {
        return false;
    }
    let t = read_digits(s, d + 1, 6);
    let f = t.end;
    if f == d + 1 {
        return false;
    }
    ends(s, f)
}

// The refusal of the word that begins at `a` and breaks at `place`. `point` says whether its position allows a point.
fn refuse(s: &[u8], a: usize, place: usize, point: bool) -> Refusal
    requires { (a < length s.now) × (solid (get_or s.now a 0) ≡ true) × (point ≡ true → is_formed (number_at s.now a (word_end s.now a)) ≡ false) }
    ensures { (number_of result.fault ≡ cond (point && comma_decimal number_at s.now a (word_end s.now a)) 12 7) × (result.place ≡ place) }
{
    let fault = if point && is_comma_decimal(s, a) {
        Fault::Comma
    } else {
        Fault::Malformed
    };
    Refusal { fault, place }
}

// A number with the place of its word.
#[derive(Clone, Copy)]
pub(crate) struct Number {
    pub(crate) start: usize,
    pub(crate) minus: bool,
    pub(crate) size: u64,
    pub(crate) fine: bool,
}

impl Cursor {
    // The next word as a number, and the moved cursor.
    pub(crate) fn number(self, s: &[u8]) -> Reading<Number>
        ensures { (step_of placed_of result ≡ number s.now self.at) × SizeFits result }
    {
        let start = words::word_start(s, self.at);
        if s.len() <= start {
            return Err(Refusal {
                fault: Fault::Ended,
                place: s.len(),
            });
        }
        match read_form(s, start) {
            Err(malformed) => Err(refuse(s, start, malformed.at, true)),
            Ok(x) => Ok(Read {
                value: Number {
                    start,
                    minus: x.minus,
                    size: x.size,
                    fine: x.fine,
                },
                rest: Cursor { at: x.end },
            }),
        }
    }
}

// A size in cm with its sign.
fn signed(minus: bool, size: u64) -> i64
    requires { size < 200000000000 }
    ensures { result ≡ centimetres minus size }
{
    let c = size as i64;
    if minus { -c } else { c }
}

// A number in whole cm with the place of its word.
#[derive(Clone, Copy)]
pub(crate) struct Measure {
    pub(crate) start: usize,
    pub(crate) cm: i64,
}

// The next number in whole cm.
#[tactic(auto, using(crate::proofs::InnerSteps::of_measure))]
pub(crate) fn read_measure(s: &[u8], k: Cursor) -> Reading<Measure>
    ensures { step_of measure_of result ≡ D.measure s.now k.at }
{
    let number = k.number(s)?;
    let x = number.value;
    if x.fine {
        return Err(Refusal {
            fault: Fault::Fine,
            place: x.start,
        });
    }
    Ok(Read {
        value: Measure {
            start: x.start,
            cm: signed(x.minus, x.size),
        },
        rest: number.rest,
    })
}

// The next count of rows or columns. It has no point, so a comma in it is like any other byte.
pub(crate) fn read_count(s: &[u8], k: Cursor) -> Reading<usize>
    ensures { (step_of (λ x. x) result ≡ D.count s.now k.at) × IfOk result (λ x. x.value ≤ 1024) }
{
    let a = words::word_start(s, k.at);
    if s.len() <= a {
        return Err(Refusal {
            fault: Fault::Ended,
            place: s.len(),
        });
    }
    let d = read_digits(s, a, 9);
    let e = d.end;
    if e == a || !ends(s, e) {
        return Err(refuse(s, a, e, false));
    }
    let n = d.value as usize;
    if !is_size(n) {
        return Err(Refusal {
            fault: Fault::Size,
            place: a,
        });
    }
    Ok(Read {
        value: n,
        rest: Cursor { at: e },
    })
}
