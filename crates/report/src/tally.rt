// The numbers that the LS of one map give, block by block, so that a block is still in the nearest memory for its second loop.
// RULES 12.1.
ghost use Rattle.std.specs.Prelude.{List, ℕ, ◌+◌, ◌≤◌, length};
ghost use Rattle.report.specs.InnerCells.{Block, Counted, Leading, Tallied};

use crate::classes::Counts;
use crate::lead::Lead;
use crate::{classes, lead};

// The counts, the sum of all numbers and the lead of the cells so far.
#[derive(Clone, Copy)]
pub(crate) struct Tally {
    pub(crate) zero: u32,
    pub(crate) under1: u32,
    pub(crate) under5: u32,
    pub(crate) under10: u32,
    pub(crate) known: u32,
    pub(crate) no_data: u32,
    pub(crate) sum: u64,
    pub(crate) lead: Lead,
}

// The lead after a block that begins at a cell, and of which these counts are known.
fn lead_after(block: &[u32], from: usize, before: Lead, counts: Counts) -> Lead
    ensures { (l : List ℕ) → Block l from block.now → Leading l from before →
        Counted block.now (length block.now) before.rank counts → Leading l (from + length block.now) result }
{
    if counts.lower < counts.known {
        return Lead {
            rank: lead::highest_in(block),
            from,
        };
    }
    before
}

// The tally of no cells.
fn none() -> Tally
    ensures { (l : List ℕ) → Tallied l 0 result }
{
    Tally {
        zero: 0,
        under1: 0,
        under5: 0,
        under10: 0,
        known: 0,
        no_data: 0,
        sum: 0,
        lead: Lead { rank: 0, from: 0 },
    }
}

// The tally of all cells.
pub(crate) fn tally_of(factors: &[u32]) -> Tally
    requires { length factors.now ≤ 1048576 }
    ensures { Tallied factors.now (length factors.now) result }
{
    let mut tally = none();
    let mut from: usize = 0;
    for block in factors.chunks(4096) {
        let counts = classes::count_below(block, tally.lead.rank);
        let sum = classes::sum_all(block);
        let lead = lead_after(block, from, tally.lead, counts);
        tally = Tally {
            zero: tally.zero + counts.zero,
            under1: tally.under1 + counts.under1,
            under5: tally.under5 + counts.under5,
            under10: tally.under10 + counts.under10,
            known: tally.known + counts.known,
            no_data: tally.no_data + counts.no_data,
            sum: tally.sum + sum,
            lead,
        };
        from += block.len();
    }
    tally
}
