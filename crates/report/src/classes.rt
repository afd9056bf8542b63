// How many cells of a block have an LS below each bound, and the sum of the block's numbers: branch-free loops, each class being the
// difference of two counts. RULES 12.1.
ghost use Rattle.std.specs.Prelude.{◌≡◌, ◌*◌, ◌≤◌, length};
ghost use Rattle.report.specs.InnerCells.{Counted, Few, all_to};

use factor::TOO_LONG;

// The LS of a NoData cell.
pub(crate) const NO_DATA: u32 = 4294967295;

// How many numbers are 0, below 1, 5 and 10 in hundred-thousandths, below too long, NoData, and below a given one.
#[derive(Clone, Copy)]
pub(crate) struct Counts {
    pub(crate) zero: u32,
    pub(crate) under1: u32,
    pub(crate) under5: u32,
    pub(crate) under10: u32,
    pub(crate) known: u32,
    pub(crate) no_data: u32,
    pub(crate) lower: u32,
}

// Counts the cells of a block. A test that adds 0 or 1 does not branch, so that the loop counts several cells at once.
pub(crate) fn count_below(block: &[u32], given: u32) -> Counts
    requires { length block.now ≤ 1048576 }
    ensures counted { Counted block.now (length block.now) given result }
    ensures few { Few result (length block.now) }
{
    let mut counts = Counts {
        zero: 0,
        under1: 0,
        under5: 0,
        under10: 0,
        known: 0,
        no_data: 0,
        lower: 0,
    };
    for v in block {
        counts.zero += u32::from(*v < 1);
        counts.under1 += u32::from(*v < 100000);
        counts.under5 += u32::from(*v < 500000);
        counts.under10 += u32::from(*v < 1000000);
        counts.known += u32::from(*v < TOO_LONG);
        counts.no_data += u32::from(*v == NO_DATA);
        counts.lower += u32::from(*v < given);
    }
    counts
}

// The sum of a block's numbers.
pub(crate) fn sum_all(block: &[u32]) -> u64
    requires { length block.now ≤ 1048576 }
    ensures is { result ≡ all_to block.now (length block.now) }
    ensures few { result ≤ length block.now * 4294967295 }
{
    let mut sum: u64 = 0;
    for v in block {
        sum += u64::from(*v);
    }
    sum
}
