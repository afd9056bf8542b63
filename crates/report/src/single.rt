// The report of one map. RULES 12.2.
ghost use Rattle.std.specs.Prelude.{◌≡◌, List, [], ◌∷◌, ℕ, ◌*◌, ◌≤◌, length};
ghost use Rattle.settings.specs.declared.Settings.{Settings};
ghost use Rattle.settings.specs.Settings.{rules_of};
ghost use Rattle.factor.specs.Farms.{Farms, one, two, Marked};
ghost use Rattle.report.specs.Maps.{is_long, map_of, valid_at, channel_in};
ghost use Rattle.report.specs.Reports.{over, cells_with, report_of};
ghost use Rattle.report.specs.InnerCells.{Numbers32, count_to, factors_to, Tallied};

use crate::classes::NO_DATA;
use crate::flow::Flow;
use crate::tally::Tally;
use crate::{Report, flow, lead, tally};
use factor::{FarmRules, TOO_LONG};
use settings::Rules;

// The cells too long: those that have neither an LS nor NoData.
fn long_of(factors: &[u32], tally: Tally) -> u64
    requires { Numbers32 factors.now × Tallied factors.now (length factors.now) tally }
    ensures { result ≡ count_to is_long factors.now (length factors.now) }
{
    // No From leads from usize to u64.
    (factors.len() as u64) - u64::from(tally.known) - u64::from(tally.no_data)
}

// The sum of all LS: that of all numbers, less those of the cells too long and of the NoData cells.
fn sum_of(factors: &[u32], tally: Tally) -> u64
    requires { Numbers32 factors.now × Tallied factors.now (length factors.now) tally }
    ensures { result ≡ factors_to factors.now (length factors.now) }
{
    let long = long_of(factors, tally);
    tally.sum - long * u64::from(TOO_LONG) - u64::from(tally.no_data) * u64::from(NO_DATA)
}

// The report of a map with these valid cells, channel cells and LS.
fn report_with(flow: Flow, factors: &[u32]) -> Report
    requires { length factors.now ≤ 1048576 }
    ensures { (rows columns : ℕ) (farms : Farms) (count : List ℕ) →
        let m = map_of rows columns farms count factors.now in
        rows * columns ≡ length factors.now → flow.valid ≡ over (m ∷ []) (cells_with valid_at) → flow.channel ≡ over (m ∷ []) (cells_with channel_in) →
        result ≡ report_of (m ∷ []) }
{
    let t = tally::tally_of(factors);
    Report {
        maps: 1,
        valid: u64::from(flow.valid),
        channel: u64::from(flow.channel),
        zero: u64::from(t.zero),
        long: long_of(factors, t),
        sum: sum_of(factors, t),
        under1: u64::from(t.under1),
        from1: u64::from(t.under5 - t.under1),
        from5: u64::from(t.under10 - t.under5),
        from10: u64::from(t.known - t.under10),
        greatest: lead::greatest_of(factors, t.lead),
    }
}

// The report of a map with these rules, counts and LS.
pub(crate) fn report_of(rules: Rules, count: &[u32], factors: &[u32]) -> Report
    requires { (length count.now ≤ 1048576) × (length factors.now ≡ length count.now) }
    ensures { (rows columns : ℕ) (settings : Settings) → rules ≡ rules_of settings → rows * columns ≡ length count.now →
        result ≡ report_of (map_of rows columns (one settings) count.now factors.now ∷ []) }
{
    report_with(flow::flow_of(rules.threshold, count), factors)
}

// The report of a map of two farms with these rules, marks, counts and LS.
pub(crate) fn report_in(rules: FarmRules, marks: &[u8], count: &[u32], factors: &[u32]) -> Report
    requires { (length count.now ≤ 1048576) × (length factors.now ≡ length count.now) × Marked (length count.now) marks.now }
    ensures { (rows columns : ℕ) (s t : Settings) → rules.first ≡ rules_of s → rules.second ≡ rules_of t → rows * columns ≡ length count.now →
        result ≡ report_of (map_of rows columns (two s t marks.now) count.now factors.now ∷ []) }
{
    report_with(flow::flow_in(rules, marks, count), factors)
}
