// The settings of a map: the two cutoffs and the channel rule, judged and turned into whole percentages, and the steepness formula.
// RULES 7.1.
#![tactic(auto)]

ghost use Rattle.std.specs.Prelude.{◌≡◌, ◌≤◌};
ghost use Rattle.settings.specs.Settings.{whole_of, whole_up_to, judged_of, place_of, default_settings};

// Above which flow count a cell is a channel: a percentage of the largest flow count, a number of cells, or none.
#[derive(Clone, Copy)]
pub enum Channel {
    Percentage(f64),
    Cells(u32),
    NoChannel,
}

// The steepness formula: the older one of Handbook 537, or the newer one of Handbook 703 (RUSLE).
#[derive(Clone, Copy)]
pub enum Formula {
    Older,
    Newer,
}

// The cutoff for slopes under 5 percent, the one for the rest, the channel rule and the steepness formula.
#[derive(Clone, Copy)]
pub struct Settings {
    pub low: f64,
    pub high: f64,
    pub channel: Channel,
    pub formula: Formula,
}

// The library's defaults: for gentle ground, under 5 percent, a cutoff of 0.7.
impl Default for Settings {
    ghost is_default = { λ s. s ≡ default_settings };

    fn default() -> Self {
        Settings {
            low: 0.7,
            high: 0.5,
            channel: Channel::Percentage(1.0),
            formula: Formula::Older,
        }
    }
}

// The channel rule in whole numbers: tenths of a percent of the largest flow count, a number of cells, or none.
#[derive(Clone, Copy)]
pub enum Threshold {
    Share(u32),
    Over(u32),
    Never,
}

// Settings that were accepted: the cutoffs in percent, the channel rule and the steepness formula.
#[derive(Clone, Copy)]
pub struct Rules {
    pub low: u32,
    pub high: u32,
    pub threshold: Threshold,
    pub formula: Formula,
}

// A setting that is not accepted: the first one, in this order. Its number is the place of the refusal.
#[derive(Clone, Copy, PartialEq, Eq)]
pub enum Setting {
    Low = 1,
    High = 2,
    Channel = 3,
}

impl Setting {
    // The place of the refusal.
    pub fn place(self) -> usize
        ensures { result ≡ place_of self }
    {
        self as usize
    }
}

// The whole n up to top whose float quotient n / parts equals x.
fn whole_of(x: f64, parts: u32, top: u32) -> Option<u32>
    requires { top ≤ 1000 }
    ensures { result ≡ whole_up_to top (whole_of parts top x) }
{
    for n in 0..top + 1 {
        if x == f64::from(n) / f64::from(parts) {
            return Some(n);
        }
    }
    None
}

// Judges the low cutoff, the high one and the channel rule, in that order. Either formula is accepted.
pub fn judge(s: Settings) -> Result<Rules, Setting>
    ensures { result ≡ judged_of s }
{
    let low = whole_of(s.low, 100, 100).ok_or(Setting::Low)?;
    let high = whole_of(s.high, 100, 100).ok_or(Setting::High)?;
    let threshold = match s.channel {
        Channel::Percentage(x) => Threshold::Share(whole_of(x, 10, 1000).ok_or(Setting::Channel)?),
        Channel::Cells(n) => Threshold::Over(n),
        Channel::NoChannel => Threshold::Never,
    };
    Ok(Rules {
        low,
        high,
        threshold,
        formula: s.formula,
    })
}
