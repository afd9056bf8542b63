// The word of a cell: its length, and its bytes in the room. RULES 10.2.
ghost use Rattle.std.specs.Prelude.{◌≡◌, ◌+◌, ◌^◌, ◌≤◌, ℕ, List, length};
ghost use Rattle.numerals.specs.Words.{fixed};
ghost use Rattle.numerals.specs.Writing.{Wrote};
ghost use Rattle.writer.specs.Words.{height_word, count_word, factor_word, direction_word};

use factor::TOO_LONG;
use text::NO_DATA;

// The code of a cell that is NoData.
const NO_CODE: u8 = 255;

// How many bytes `n` has with so many decimals.
pub(crate) fn fixed_length<const DECIMALS: u32>(n: u64) -> usize
    requires { DECIMALS ≤ 5 }
    ensures { (result ≡ length (fixed DECIMALS n)) × (result ≤ 21 + DECIMALS) }
{
    numerals::digit_count(n / 10_u64.pow(DECIMALS)) + 1 + DECIMALS as usize
}

// `n` with so many decimals.
pub(crate) fn put_fixed<const DECIMALS: u32>(out: &mut [u8], at: usize, n: u64) -> usize
    requires few { DECIMALS ≤ 5 }
    requires low { at ≤ 2 ^ 63 }
    ensures { Wrote out.old at (fixed DECIMALS n) result out.new }
{
    let point = at + numerals::put_natural(out, at, n / 10_u64.pow(DECIMALS));
    numerals::put(out, point, b'.');
    point + 1 + numerals::put_padded(out, point + 1, n, DECIMALS as usize)
}

// How the cells of a grid are written: the word of each.
pub(crate) trait Word {
    // What a cell holds.
    type Cell: Copy;

    ghost word: { Self.Cell → List ℕ };

    // How many bytes a cell's word has.
    fn length(cell: Self::Cell) -> usize
        ensures { (result ≡ length (word cell)) × (result ≤ 26) };

    // A cell's word.
    fn put(out: &mut [u8], at: usize, cell: Self::Cell) -> usize
        requires { at + length (word cell) ≤ length out.old }
        ensures { Wrote out.old at (word cell) result out.new };
}

// Heights in cm, ground or filled.
pub(crate) struct Heights;

impl Word for Heights {
    type Cell = i32;

    ghost word = { height_word };

    fn length(height: i32) -> usize {
        if height == NO_DATA {
            return 5;
        }
        let length = fixed_length::<2>(numerals::size(height));
        if height < 0 {
            return length + 1;
        }
        length
    }

    fn put(out: &mut [u8], at: usize, height: i32) -> usize {
        if height == NO_DATA {
            return at + numerals::put_all(out, at, b"-9999");
        }
        if height < 0 {
            numerals::put(out, at, b'-');
            return put_fixed::<2>(out, at + 1, numerals::size(height));
        }
        put_fixed::<2>(out, at, numerals::size(height))
    }
}

// Flow counts.
pub(crate) struct Counts;

impl Word for Counts {
    type Cell = u32;

    ghost word = { count_word };

    fn length(count: u32) -> usize {
        if count == 0 {
            return 5;
        }
        numerals::digit_count(u64::from(count))
    }

    fn put(out: &mut [u8], at: usize, count: u32) -> usize {
        if count == 0 {
            return at + numerals::put_all(out, at, b"-9999");
        }
        at + numerals::put_natural(out, at, u64::from(count))
    }
}

// LS in hundred-thousandths.
pub(crate) struct Factors;

impl Word for Factors {
    type Cell = u32;

    ghost word = { factor_word };

    fn length(factor: u32) -> usize {
        if TOO_LONG <= factor {
            return 5;
        }
        fixed_length::<5>(u64::from(factor))
    }

    fn put(out: &mut [u8], at: usize, factor: u32) -> usize {
        if TOO_LONG <= factor {
            return at + numerals::put_all(out, at, b"-9999");
        }
        put_fixed::<5>(out, at, u64::from(factor))
    }
}

// Directions as their codes.
pub(crate) struct Directions;

impl Word for Directions {
    type Cell = u8;

    ghost word = { direction_word };

    fn length(code: u8) -> usize {
        if code == NO_CODE {
            return 5;
        }
        numerals::digit_count(u64::from(code))
    }

    fn put(out: &mut [u8], at: usize, code: u8) -> usize {
        if code == NO_CODE {
            return at + numerals::put_all(out, at, b"-9999");
        }
        at + numerals::put_natural(out, at, u64::from(code))
    }
}
