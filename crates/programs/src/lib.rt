// What the printer and the job share, the sheet of standard input; and the settings of both. RULES 9.3.
#![tactic(auto)]

ghost use Rattle.std.specs.Prelude.{◌≡◌};
ghost use Rattle.programs.specs.Settings.{job_settings, printer_settings};

use settings::{Channel, Formula, Settings};
use std::io;

// The printer's settings: cutoffs 0.5, no channels, and the older steepness formula.
pub fn printer_settings() -> Settings
    ensures { result ≡ printer_settings }
{
    Settings {
        low: 0.5,
        high: 0.5,
        channel: Channel::NoChannel,
        formula: Formula::Older,
    }
}

// The job's settings: the printer's, but for channels by the library's default.
pub fn job_settings() -> Settings
    ensures { result ≡ job_settings }
{
    let default = Settings::default();
    Settings {
        channel: default.channel,
        ..printer_settings()
    }
}

// Reads a text grid from standard input and prints its sheet. All work is done before the first byte is printed. One byte more
// than a text may have is read, so that a longer text shows; and no sheet is longer than its room. What is printed no
// contract can say. A read or a write that fails is handed up.
pub fn print(rt: &(impl Input + Print), rules: Settings) -> io::Result<()> {
    let mut text = [0u8; 32769];
    let mut lines = sheet::room();
    let length = input::read_full(&mut rt.reader(), &mut text)?;
    let end = sheet::print(&text[..length], rules, &mut lines);
    // By `write_all`, since the sheet is bytes, and `print!` takes text.
    rt.write_all(&lines[..end])
}
