// Channel cells. RULES 5. The channel rule becomes one bound, the greatest count that is no channel's, so that marking a
// cell is one comparison.
ghost use Rattle.std.specs.Prelude.{◌≡◌, ℕ, ◌≤◌, length, ltb};
ghost use Rattle.factor.specs.Channel.{is_channel, largest_of};

use settings::Threshold;

// The largest flow count.
pub fn largest(count: &[u32]) -> u32
    ensures { result ≡ largest_of (length count.now) count.now }
{
    let mut most: u32 = 0;
    for x in count {
        most = most.max(*x);
    }
    most
}

// The greatest count up to the largest that is no channel's.
pub fn channel_bound(threshold: Threshold, largest: u32) -> u64
    ensures { (c : ℕ) → c ≤ largest → ltb result c ≡ is_channel threshold largest c }
{
    match threshold {
        Threshold::Share(n) => u64::from(n) * u64::from(largest) / 1000,
        Threshold::Over(n) => u64::from(n),
        Threshold::Never => u64::from(largest),
    }
}
