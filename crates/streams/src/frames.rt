// The frames of a stream of texts: a text's length in bytes, in decimal digits, a line end, and the text.
ghost use Rattle.std.specs.Prelude.{IfSome};
ghost use Rattle.streams.specs.Frames.{Framed};

use std::str;

// The text of the stream's first frame and what follows the frame, if it is whole.
pub(crate) fn next(stream: &[u8]) -> Option<(&[u8], &[u8])>
    ensures { IfSome result (λ frame. Framed stream.now frame.0.now frame.1.now) }
{
    let end = stream.iter().position(|byte| !byte.is_ascii_digit())?;
    let digits = str::from_utf8(&stream[..end]).ok()?;
    let count = digits.parse::<usize>().ok()?;
    let rest = stream[end..].strip_prefix(b"\n")?;
    rest.split_at_checked(count)
}
