// The greatest LS of one map, and the first cell that has it. RULES 12.1.
//
// An LS is ranked by one more than itself, and what is none by 0. A block of cells is looked through only if some cell of it ranks
// higher than all before it, and the cell is searched from the last such block on.
ghost use Rattle.std.specs.Prelude.{◌≡◌, [], ◌∷◌, ◌≤◌, length, eqb};
ghost use Rattle.std.specs.List.{position};
ghost use Rattle.report.specs.Maps.{Map, cells_of};
ghost use Rattle.report.specs.Reports.{rank_of, greatest_of};
ghost use Rattle.report.specs.InnerCells.{highest_to, Leading};

use crate::Greatest;
use factor::TOO_LONG;

// The highest rank so far, and the start of the block in which the first cell that has it stands.
#[derive(Clone, Copy)]
pub(crate) struct Lead {
    pub(crate) rank: u32,
    pub(crate) from: usize,
}

fn rank_of(v: u32) -> u32
    ensures { result ≡ rank_of v }
{
    if v < TOO_LONG { v + 1 } else { 0 }
}

// The highest rank in a block.
pub(crate) fn highest_in(block: &[u32]) -> u32
    ensures { result ≡ highest_to block.now (length block.now) }
{
    let mut highest: u32 = 0;
    for v in block {
        highest = highest.max(rank_of(*v));
    }
    highest
}

// The place of the first cell that has this LS.
fn place_of(factors: &[u32], v: u32) -> Option<usize>
    ensures { result ≡ position (λ w. eqb w v) factors.now }
{
    factors.iter().position(|w| *w == v)
}

// The greatest that a lead over all cells gives, of the map 0.
pub(crate) fn greatest_of(factors: &[u32], lead: Lead) -> Option<Greatest>
    requires { Leading factors.now (length factors.now) lead }
    ensures { (m : Map) → m.factors ≡ factors.now → cells_of m ≡ length factors.now → result ≡ greatest_of (m ∷ []) }
{
    let v = lead.rank.checked_sub(1)?;
    let after = place_of(&factors[lead.from..], v)?;
    Some(Greatest {
        factor: u64::from(v),
        map: 0,
        // No From leads from usize to u64.
        cell: (lead.from + after) as u64,
    })
}
