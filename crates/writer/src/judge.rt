// The tests of what stands in the header: refusals 1, 2, 3 and 7. RULES 10.1.
ghost use Rattle.std.specs.Prelude.{◌≡◌};
ghost use Rattle.laws.specs.Tests.{failed, verdict};
ghost use Rattle.writer.specs.Answers.{frame_tests};
ghost use Rattle.writer.specs.InnerFrame.{frame_of};
ghost use Rattle.writer.specs.InnerJudging.{found};

use crate::header::Frame;
use text::{Fault, Refusal};

impl Frame<'_> {
    // Makes these tests, in that order, of a grid of so many cells.
    pub(crate) fn judge(&self, cells: usize) -> Result<(), Refusal>
        ensures { found result ≡ verdict (frame_tests (frame_of self.now) cells) }
    {
        if !text::is_size(self.rows) {
            return Err(Refusal {
                fault: Fault::Size,
                place: 0,
            });
        }
        if !text::is_size(self.columns) {
            return Err(Refusal {
                fault: Fault::Size,
                place: 0,
            });
        }
        if cells != self.rows * self.columns {
            return Err(Refusal {
                fault: Fault::Length,
                place: 0,
            });
        }
        if !text::is_side(self.side) {
            return Err(Refusal {
                fault: Fault::Side,
                place: 0,
            });
        }
        if !text::is_number(self.x) {
            return Err(Refusal {
                fault: Fault::Malformed,
                place: 1,
            });
        }
        if !text::is_number(self.y) {
            return Err(Refusal {
                fault: Fault::Malformed,
                place: 2,
            });
        }
        Ok(())
    }
}
