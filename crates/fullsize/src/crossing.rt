// Settings as plain numbers: the two cutoffs, the kind of channel rule (0 none, 1 a number of cells, 2 a percentage), the number of cells and
// the percentage, of which the kind says which one counts, and the steepness formula (0 older, 1 newer). Whether directions are given.
ghost use Rattle.std.specs.Prelude.{◌≡◌};
ghost use Rattle.fullsize.specs.Crossing.{numbers_of, channel_of, formula_of, formula_number, settings_of, source_of};
ghost use Rattle.fullsize.specs.InnerMapping.{formula_place, refusal_before};
ghost use Rattle.fullsize.specs.Lent.{numbers_after};

use factor::Source;
use settings::{Channel, Formula, Settings};
use text::{Fault, Refusal};

// The channel rule of a kind; any other kind gives a percentage that the map call refuses.
fn channel_of(kind: u32, cells: u32, percentage: f64) -> Channel
    ensures { result ≡ channel_of kind cells percentage }
{
    match kind {
        0 => Channel::NoChannel,
        1 => Channel::Cells(cells),
        2 => Channel::Percentage(percentage),
        _ => Channel::Percentage(101.0),
    }
}

// The formula of a number; what is above 1 is judged before it is used.
fn formula_of(number: u32) -> Formula
    ensures { result ≡ formula_of number }
{
    match number {
        0 => Formula::Older,
        _ => Formula::Newer,
    }
}

#[tactic(auto, unfolding(crate::specs::Crossing::formula_number))]
fn formula_number(formula: Formula) -> u32
    ensures { result ≡ formula_number formula }
{
    match formula {
        Formula::Older => 0,
        Formula::Newer => 1,
    }
}

// The place of the first of two numbers that is no formula.
pub(crate) fn formula_place(formula: u32, second: u32) -> Option<usize>
    ensures { result ≡ formula_place formula second }
{
    if 1 < formula {
        return Some(7);
    }
    if 1 < second {
        return Some(8);
    }
    None
}

// The refusal where a number is no formula: one that the tests found before it, or its own at this place. 19 comes after it.
pub(crate) fn refusal_before(place: usize, found: Option<Refusal>) -> Refusal
    ensures { result ≡ refusal_before place found }
{
    match found {
        Some(refusal) if refusal.fault != Fault::Mark => refusal,
        _ => Refusal {
            fault: Fault::Setting,
            place,
        },
    }
}

// Whose directions a map takes.
pub(crate) fn source_of(given: bool) -> Source
    ensures { result ≡ source_of given }
{
    if given { Source::Given } else { Source::Own }
}

pub(crate) fn settings_of(
    low: f64,
    high: f64,
    kind: u32,
    cells: u32,
    percentage: f64,
    formula: u32,
) -> Settings
    ensures { result ≡ settings_of low high kind cells percentage formula }
{
    Settings {
        low,
        high,
        channel: channel_of(kind, cells, percentage),
        formula: formula_of(formula),
    }
}

// Hands out settings; the number that the kind leaves out is 0.
pub(crate) fn hand_out(
    settings: Settings,
    low: &mut f64,
    high: &mut f64,
    kind: &mut u32,
    cells: &mut u32,
    percentage: &mut f64,
    formula: &mut u32,
)
    ensures { numbers_after low high kind cells percentage formula ≡ numbers_of settings }
{
    *formula = formula_number(settings.formula);
    *low = settings.low;
    *high = settings.high;
    match settings.channel {
        Channel::NoChannel => {
            *kind = 0;
            *cells = 0;
            *percentage = 0.0;
        }
        Channel::Cells(n) => {
            *kind = 1;
            *cells = n;
            *percentage = 0.0;
        }
        Channel::Percentage(x) => {
            *kind = 2;
            *cells = 0;
            *percentage = x;
        }
    }
}
