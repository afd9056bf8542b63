// Blanks and words. Words are read left to right, each from where the last ended.
ghost use Rattle.std.specs.Prelude.{◌≡◌, ◌<◌, length};
ghost use Rattle.text.specs.Words.{blank, word_start, word_end, word};
ghost use Rattle.text.specs.InnerWords.{word_of, Inside};

use crate::Refusal;

// Where reading goes on.
#[derive(Clone, Copy)]
pub(crate) struct Cursor {
    pub(crate) at: usize,
}

// A value that was read, with the cursor after it.
#[derive(Clone, Copy)]
pub(crate) struct Read<T> {
    pub(crate) value: T,
    pub(crate) rest: Cursor,
}

// What reading a value comes to.
pub(crate) type Reading<T> = Result<Read<T>, Refusal>;

// A word: its first byte, and the place after it.
#[derive(Clone, Copy)]
pub(crate) struct Word {
    pub(crate) start: usize,
    pub(crate) end: usize,
}

// A blank: space, tab, CR or LF.
pub(crate) fn is_blank(b: u8) -> bool
    ensures { result ≡ blank b }
{
    matches!(b, b' ' | b'\t' | b'\r' | b'\n')
}

// The place of the next word's first byte; the text's length where no word is left.
pub(crate) fn word_start(s: &[u8], at: usize) -> usize
    ensures { result ≡ word_start s.now at }
{
    for i in at..s.len() {
        if !is_blank(s[i]) {
            return i;
        }
    }
    s.len().max(at)
}

// The place after the word that goes on at `at`.
fn word_end(s: &[u8], at: usize) -> usize
    ensures { result ≡ word_end s.now at }
{
    for i in at..s.len() {
        if is_blank(s[i]) {
            return i;
        }
    }
    s.len().max(at)
}

impl Cursor {
    // The next word and the moved cursor, where a word is left.
    pub(crate) fn word(self, s: &[u8]) -> Option<Read<Word>>
        ensures { (word_of s.now result ≡ word s.now self.at) × Inside (length s.now) result }
    {
        let start = word_start(s, self.at);
        if start < s.len() {
            let end = word_end(s, start);
            Some(Read {
                value: Word { start, end },
                rest: Cursor { at: end },
            })
        } else {
            None
        }
    }
}
