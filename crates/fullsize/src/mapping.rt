// The map call with the formula as a number: 0 older, 1 newer. Any other number is refused with 4 at 7, after the map call's tests 1 to 4 and before
// 5. RULES 7.3.
ghost use Rattle.std.specs.Prelude.{◌≡◌, true};
ghost use Rattle.terrain.specs.Drainage.{Trails, Totals, Surface};
ghost use Rattle.factor.specs.Answers.{told, accepts, lent_before, lent_after};
ghost use Rattle.factor.specs.Farms.{one};
ghost use Rattle.fullsize.specs.Crossing.{one_formula};
ghost use Rattle.fullsize.specs.Mapping.{answer_by, after_by};

use crate::crossing::refusal_before;
use factor::{Source, Summary};
use settings::Settings;
use text::Refusal;

// Maps a ground into the lent grids, by settings, the number of their formula, and whose directions it takes.
pub(crate) fn map(
    rows: usize,
    columns: usize,
    side: u32,
    settings: Settings,
    formula: u32,
    source: Source,
    elevation: &[i32],
    filled: &mut [i32],
    direction: &mut [u8],
    count: &mut [u32],
    lengths: &mut [u64],
    factors: &mut [u32],
    workspace: &mut [u32],
) -> Result<Summary, Refusal>
    ensures answers { result ≡ answer_by rows columns side (one settings) (one_formula formula) source elevation.now
        (lent_before filled direction count lengths factors workspace) }
    ensures leaves { lent_after filled direction count lengths factors workspace
        ≡ after_by rows columns side (one settings) (one_formula formula) source elevation.now
        (lent_before filled direction count lengths factors workspace) }
    ensures trails { accepts result ≡ true → Trails rows columns elevation.now filled.new direction.new }
    ensures totals { accepts result ≡ true →
        Totals rows columns elevation.now direction.new count.new (told result).valids }
    ensures surface { accepts result ≡ true → Surface rows columns elevation.now filled.new }
{
    if 1 < formula {
        let judged = factor::judge(
            rows, columns, side, settings, elevation, filled, direction, count, lengths, factors,
            workspace,
        );
        return Err(refusal_before(7, judged.err()));
    }
    factor::map(
        rows, columns, side, settings, source, elevation, filled, direction, count, lengths,
        factors, workspace,
    )
}
