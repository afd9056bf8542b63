// Prints the sheets of a stream of texts, for the programs that run stored cases. Standard input has, for each text, a line with its
// length in bytes and then those bytes. What is printed no contract can say. A read or a write that fails is handed up.
#![tactic(auto)]

mod frames;

ghost use Rattle.std.specs.Prelude.{◌≡◌, length};

use settings::Settings;
use std::io;

// Prints one text's sheet.
fn print_case(rt: &impl Print, number: usize, text: &[u8], rules: Settings) -> io::Result<()> {
    let mut lines = sheet::room();
    let end = sheet::print(text, rules, &mut lines);
    println!(rt; "case {number}")?;
    // By `write_all`, since the sheet is bytes, and `print!` takes text.
    rt.write_all(&lines[..end])
}

// Prints the sheet of each text, as far as the frames are whole. There are fewer frames than bytes.
fn print_cases(rt: &impl Print, stream: &[u8], rules: Settings) -> io::Result<()> {
    let mut rest = stream;
    for number in 0..stream.len() {
        if rest.is_empty() {
            break;
        }
        let Some((text, after)) = frames::next(rest) else {
            return println!(rt; "bad frame");
        };
        print_case(rt, number, text, rules)?;
        rest = after;
    }
    Ok(())
}

// Room for a stream. The contract gives its length alone, which is what lending it needs: with the array in `print_sheets` the check
// of that function takes more than six minutes.
fn room() -> [u8; 524288]
    ensures { 524288 ≡ length result }
{
    [0; 524288]
}

// Prints the sheets of the stream on standard input, each after a line `case N`.
pub fn print_sheets(rt: &(impl Input + Print), rules: Settings) -> io::Result<()> {
    let mut stream = room();
    let length = input::read_full(&mut rt.reader(), &mut stream)?;
    print_cases(rt, &stream[..length], rules)
}
