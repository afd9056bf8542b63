// The six lines of the header: how many bytes they have, and their bytes in the room. RULES 10.3.
ghost use Rattle.std.specs.Prelude.{[], ◌∷◌, ◌≡◌, ◌+◌, ◌≤◌, length};
ghost use Rattle.numerals.specs.Words.{decimal, fixed, line};
ghost use Rattle.numerals.specs.Writing.{Wrote};
ghost use Rattle.writer.specs.Text.{header_words, lines};
ghost use Rattle.writer.specs.InnerFrame.{frame_of, CornersShort};

use crate::words;

// What the header says: shape, cell side in cm, and the two corner words.
#[derive(Clone, Copy)]
pub(crate) struct Frame<'a> {
    pub(crate) rows: usize,
    pub(crate) columns: usize,
    pub(crate) side: u32,
    pub(crate) x: &'a [u8],
    pub(crate) y: &'a [u8],
}

impl Frame<'_> {
    // How many bytes the lines have.
    pub(crate) fn length(&self) -> usize
        requires { CornersShort self.now }
        ensures { (result ≡ length (lines (header_words (frame_of self.now)))) × (result ≤ 162) }
    {
        let columns = numerals::digit_count(self.columns as u64);
        let rows = numerals::digit_count(self.rows as u64);
        let corners = self.x.len() + self.y.len();
        65 + columns + rows + corners + words::fixed_length::<2>(u64::from(self.side))
    }

    // The lines.
    pub(crate) fn put(&self, out: &mut [u8]) -> usize
        requires { CornersShort self.now }
        ensures { Wrote out.old 0 (lines (header_words (frame_of self.now))) result out.new }
    {
        let a = put_count_field(out, 0, b"ncols", self.columns);
        let b = put_count_field(out, a, b"nrows", self.rows);
        let c = put_field(out, b, b"xllcorner", self.x);
        let d = put_field(out, c, b"yllcorner", self.y);
        let e = put_side_field(out, d, b"cellsize", self.side);
        put_field(out, e, b"nodata_value", b"-9999")
    }
}

// A name and a word on a line; a trait for what a word, a count and a side have in common would have more functions than these three.
fn put_field(out: &mut [u8], at: usize, name: &[u8], word: &[u8]) -> usize
    requires { (at ≤ 200) × (length name.now ≤ 12) × (length word.now ≤ 17) }
    ensures { Wrote out.old at (line (name.now ∷ word.now ∷ [])) result out.new × (result ≤ at + 31) }
{
    let a = at + numerals::put_all(out, at, name);
    numerals::put(out, a, b' ');
    let b = a + 1 + numerals::put_all(out, a + 1, word);
    numerals::put(out, b, b'\n');
    b + 1
}

// A name and a number on a line.
fn put_count_field(out: &mut [u8], at: usize, name: &[u8], n: usize) -> usize
    requires { (at ≤ 200) × (length name.now ≤ 12) }
    ensures { Wrote out.old at (line (name.now ∷ decimal n ∷ [])) result out.new × (result ≤ at + 34) }
{
    let a = at + numerals::put_all(out, at, name);
    numerals::put(out, a, b' ');
    let b = a + 1 + numerals::put_natural(out, a + 1, n as u64);
    numerals::put(out, b, b'\n');
    b + 1
}

// A name and a number of hundredths on a line.
fn put_side_field(out: &mut [u8], at: usize, name: &[u8], n: u32) -> usize
    requires { (at ≤ 200) × (length name.now ≤ 12) }
    ensures { Wrote out.old at (line (name.now ∷ fixed 2 n ∷ [])) result out.new × (result ≤ at + 37) }
{
    let a = at + numerals::put_all(out, at, name);
    numerals::put(out, a, b' ');
    let b = words::put_fixed::<2>(out, a + 1, u64::from(n));
    numerals::put(out, b, b'\n');
    b + 1
}
