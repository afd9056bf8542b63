// What one inflow brings to a cell: the cutoff, the cut, the step and the amount (Hickey 2000). RULES 5.
ghost use Rattle.std.specs.Prelude.{◌≡◌, ℕ, ◌≤◌};
ghost use Rattle.factor.specs.Inflow.{is_cut, start_length, step_over, amount_of};
ghost use Rattle.factor.specs.Inner.{steepest, greatest_length, left_by};

// Where the length of a cell with this direction starts, in ten-thousandths of a cell side: half the diagonal where its flow leaves
// diagonally, else half the side.
pub(crate) fn start_length(direction: u8) -> u64
    ensures { result ≡ start_length direction }
{
    if (direction == 2) | (direction == 8) | (direction == 32) | (direction == 128) {
        return 7071;
    }
    5000
}

// The length of the step to the neighbour k.
pub(crate) fn step_over(k: usize) -> u64
    ensures { result ≡ step_over k }
{
    if k % 2 == 0 {
        return 10000;
    }
    14142
}

// What a cutoff of n percent leaves of 100, squared: 0 from 100 percent on.
pub(crate) fn left_by(n: u32) -> u64
    ensures { result ≡ left_by n }
{
    let rest = u64::from(100u32.saturating_sub(n));
    rest * rest
}

// Whether the slope is cut between an inflow of steepness p and a cell of steepness q, by a cutoff that leaves `left`.
// A cutoff leaves some just where it is below 100 percent.
fn is_cut(left: u64, q: u64, p: u64) -> bool
    requires { (left ≤ 10000) × (q ≤ steepest) × (p ≤ steepest) }
    ensures { (n : ℕ) → left ≡ left_by n → result ≡ is_cut n q p }
{
    (0 < left) & (q < p) & (10000 * q <= left * p)
}

// What an inflow of steepness p brings to a cell of steepness q, by that cutoff: the step is the inflow's, and so is the length.
// Between two flat cells the length starts afresh, with the receiving cell's start.
pub(crate) fn amount_of(left: u64, q: u64, p: u64, start: u64, step: u64, length: u64) -> u64
    requires { (left ≤ 10000) × (q ≤ steepest) × (p ≤ steepest) × (step ≤ 14142) × (length ≤ greatest_length) }
    ensures { (n : ℕ) → left ≡ left_by n → result ≡ amount_of n q p start step length }
{
    if (q == 0) & (p == 0) {
        return start;
    }
    if is_cut(left, q, p) {
        return 0;
    }
    length + step
}
