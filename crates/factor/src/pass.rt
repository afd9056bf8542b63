// One pass along the order from the ridges down. When a cell's turn comes all its inflows have handed on, so its length is final:
// its LS is worked out, and its own amount goes to the cell that it points at. RULES 5 and 6.
//
// The grid of lengths holds what is gathered until a cell's turn comes: one more than the greatest amount brought, 0 for none. The
// grid of factors holds the cells' falls until then, and NoData's LS, which is NoData's fall too.
ghost use Rattle.std.specs.Prelude.{◌≡◌, List, length, get_or, ltb, ℕ, ◌*◌, ◌≤◌, ◌<◌};
ghost use Rattle.terrain.specs.InnerCells.{Beside, beside_of};
ghost use Rattle.terrain.specs.Cells.{Shifts};
ghost use Rattle.settings.specs.declared.Rules.{Rules};
ghost use Rattle.factor.specs.Farms.{of_farm};
ghost use Rattle.factor.specs.Inflow.{cutoff_for};
ghost use Rattle.factor.specs.Length.{lengths_of};
ghost use Rattle.factor.specs.Grid.{factors_of};
ghost use Rattle.factor.specs.Inner.{steepest, greatest_length, steepness_of, final_length, left_by, brought_by, Sloping, Listed};
ghost use Rattle.factor.specs.InnerPass.{farm_by, farm_in, Marking, Naming, Sided, Ruled, Farmed, Settling, Settled, Receiving, lengths_with, Turning, Turned, Measuring};

use crate::cell::factor_of;
use crate::channel::{channel_bound, largest};
use crate::guess::Guesses;
use crate::inflow::{amount_of, left_by, start_length, step_over};
use crate::slope::{Slope, steepness_of};
use crate::tests::FarmRules;
use crate::thresholds;
use crate::thresholds::Lists;
use settings::{Formula, Rules};

// What the cells of a farm are measured by: what its high and its low cutoff leave, squared, the greatest count that is no channel's, and its
// steepness formula.
#[derive(Clone, Copy)]
pub(crate) struct Farm {
    high: u64,
    low: u64,
    most: u64,
    formula: Formula,
}

impl Farm {
    // By the farm's rules and the largest flow count of the map.
    fn new(rules: Rules, largest: u32) -> Farm
        ensures { Farmed rules largest result }
    {
        Farm {
            high: left_by(rules.high),
            low: left_by(rules.low),
            most: channel_bound(rules.threshold, largest),
            formula: rules.formula,
        }
    }
}

// What lengths and LS are measured by: the columns of the map, its cell side in cm, and farm 0 and farm 1.
#[derive(Drop)]
pub(crate) struct Terms {
    columns: usize,
    side: u32,
    first: Farm,
    second: Farm,
}

// The farm that the cell x names; farm 0 without marks.
fn farm_of(terms: &Terms, marks: Option<&[u8]>, x: usize) -> Farm
    requires { Marking marks x }
    ensures { result ≡ farm_in terms.now (farm_by marks.entry x) }
{
    match marks {
        None => terms.first,
        Some(marks) => {
            if marks[x] == 0 {
                terms.first
            } else {
                terms.second
            }
        }
    }
}

// The length of a cell of this count, from where it would start and what is gathered there. Counts above `most` are those of channels. An
// Option of what is gathered has no place in the lent grid, so 0 stands for none there.
fn final_length(most: u64, count: u32, start: u64, gathered: u64) -> u64
    ensures { result ≡ final_length (ltb most count) start gathered }
{
    if most < u64::from(count) {
        return 0;
    }
    gathered.checked_sub(1).unwrap_or(start)
}

// The neighbour k of a cell x that has it, by the shifts.
fn beside(columns: usize, shifts: &[usize; 8], x: usize, k: usize) -> usize
    requires { Beside columns x k × Shifts columns shifts.now }
    ensures { result ≡ beside_of columns x k }
{
    x + shifts[k] - columns - 1
}

// What is left, squared, by the cutoff that a cell of this farm and of steepness q uses for its inflows.
fn left_for(side: u32, farm: Farm, q: u64) -> u64
    requires { Sloping side q }
    ensures { (rules : Rules) → Ruled rules farm → result ≡ left_by (cutoff_for rules.low rules.high side q) }
{
    if (Slope { side, q }).is_at_least(5) {
        return farm.high;
    }
    farm.low
}

// What an inflow of steepness p and this length brings to its neighbour k, a cell of this farm and of steepness q whose length would start with `start`.
fn brought(side: u32, farm: Farm, k: usize, p: u64, q: u64, start: u64, length: u64) -> u64
    requires { Sided side × (p ≤ steepest) × (q ≤ steepest) × (length ≤ greatest_length) × ((rules : Rules) × Ruled rules farm) }
    ensures { (rules : Rules) → Ruled rules farm → result ≡ brought_by side rules k p q start length }
{
    let left = left_for(side, farm, q);
    amount_of(left, q, p, start, step_over(k), length)
}

// Stores the length and the LS of the cell x of this farm and fall, of steepness q, whose inflows have handed on; gives the length.
fn settle(
    side: u32,
    farm: Farm,
    direction: &[u8],
    count: &[u32],
    lengths: &mut [u64],
    factors: &mut [u32],
    x: usize,
    fall: u32,
    q: u64,
    lists: &Lists,
    guesses: &mut Guesses,
) -> u64
    requires { Settling side direction.now count.now lengths.old factors.old x
        × (fall ≡ get_or factors.old x 0) × (q ≡ steepness_of (get_or factors.old x 0)) × Listed lists.now }
    ensures { Settled side farm direction.now count.now lengths.old factors.old x result
        lengths.new factors.new }
{
    let length = final_length(farm.most, count[x], start_length(direction[x]), lengths[x]);
    lengths[x] = length;
    factors[x] = factor_of(farm.formula, side, q, length, fall, lists, guesses);
    length
}

// Hands on to the cell y of this farm, the neighbour k of an inflow of steepness p and this length.
fn hand_on(
    side: u32,
    farm: Farm,
    direction: &[u8],
    lengths: &mut [u64],
    factors: &[u32],
    y: usize,
    k: usize,
    p: u64,
    length: u64,
)
    requires { Receiving side farm direction.now lengths.old factors.now y p length }
    ensures { (rules : Rules) → Ruled rules farm →
        lengths.new ≡ lengths_with side rules direction.now lengths.old factors.now y k p length }
{
    let amount = brought(
        side,
        farm,
        k,
        p,
        steepness_of(factors[y]),
        start_length(direction[y]),
        length,
    );
    lengths[y] = lengths[y].max(amount + 1);
}

// The turn of the cell x.
fn turn(
    terms: &Terms,
    marks: Option<&[u8]>,
    direction: &[u8],
    count: &[u32],
    lengths: &mut [u64],
    factors: &mut [u32],
    x: usize,
    shifts: &[usize; 8],
    lists: &Lists,
    guesses: &mut Guesses,
)
    requires { Turning terms.now (λ y. farm_in terms.now (farm_by marks y)) direction.now count.now lengths.old factors.old x
        × Listed lists.now × Shifts terms.now.columns shifts.now × Naming (length direction.now) marks }
    ensures { Turned terms.now (λ y. farm_in terms.now (farm_by marks.entry y)) direction.now count.now lengths.old factors.old x
        lengths.new factors.new }
{
    let fall = factors[x];
    let p = steepness_of(fall);
    let length = settle(
        terms.side,
        farm_of(terms, marks, x),
        direction,
        count,
        lengths,
        factors,
        x,
        fall,
        p,
        lists,
        guesses,
    );
    let k = u8::trailing_zeros(direction[x]) as usize;
    if 8 <= k {
        return;
    }
    let y = beside(terms.columns, shifts, x, k);
    hand_on(
        terms.side,
        farm_of(terms, marks, y),
        direction,
        lengths,
        factors,
        y,
        k,
        p,
        length,
    );
}

// The length and the LS of every cell by the rules of the farm that it names, from the falls in `factors`, along the order of the
// valid cells.
pub(crate) fn measure(
    columns: usize,
    side: u32,
    rules: FarmRules,
    marks: Option<&[u8]>,
    direction: &[u8],
    count: &[u32],
    order: &[u32],
    lengths: &mut [u64],
    factors: &mut [u32],
)
    requires { (rows : ℕ) × (lv : List ℕ) × Measuring rows columns side lv direction.now count.now order.now lengths.old factors.old
        × Naming (rows * columns) marks }
    ensures { (rows : ℕ) (lv : List ℕ) →
        Measuring rows columns side lv direction.now count.now order.now
        lengths.old factors.old →
        Naming (rows * columns) marks.entry →
        (lengths.new
        ≡ lengths_of rows columns side (λ x. of_farm rules.first rules.second (farm_by marks.entry x)) lv direction.now count.now)
        × (factors.new
        ≡ factors_of rows columns side (λ x. of_farm rules.first rules.second (farm_by marks.entry x)) lv direction.now lengths.new) }
{
    let most = largest(count);
    let terms = Terms {
        columns,
        side,
        first: Farm::new(rules.first, most),
        second: Farm::new(rules.second, most),
    };
    let shifts = terrain::shifts_of(columns);
    let lists = thresholds::all();
    let mut guesses: Guesses = [0; 7708];
    lengths.fill(0);
    for &cell in order {
        turn(
            &terms,
            marks,
            direction,
            count,
            lengths,
            factors,
            cell as usize,
            &shifts,
            &lists,
            &mut guesses,
        );
    }
}
