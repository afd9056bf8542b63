// Writing bytes and numbers into a lent room, by the calls of the crate `numerals`. Each function writes from the place `at` on, as far
// as the room goes, and answers the place after all that there was to write.
ghost use Rattle.std.specs.Prelude.{[], ◌∷◌, ◌<◌, ◌-◌, ◌^◌};
ghost use Rattle.numerals.specs.Words.{decimal, integer};
ghost use Rattle.numerals.specs.Writing.{Wrote};

// One byte.
pub(crate) fn put(out: &mut [u8], at: usize, b: u8) -> usize
    requires { at < 2 ^ 64 - 1 }
    ensures { Wrote out.old at (b ∷ []) result out.new }
{
    numerals::put(out, at, b);
    at + 1
}

// All of `bytes`.
pub(crate) fn put_all(out: &mut [u8], at: usize, bytes: &[u8]) -> usize
    requires { at < 2 ^ 62 }
    ensures { Wrote out.old at bytes.now result out.new }
{
    at + numerals::put_all(out, at, bytes)
}

// The decimal digits of `n`.
pub(crate) fn put_natural(out: &mut [u8], at: usize, n: u64) -> usize
    requires { at < 2 ^ 62 }
    ensures { Wrote out.old at (decimal n) result out.new }
{
    at + numerals::put_natural(out, at, n)
}

// `z` in decimal digits, with a minus where it is below 0.
pub(crate) fn put_integer(out: &mut [u8], at: usize, z: i32) -> usize
    requires { at < 2 ^ 61 }
    ensures { Wrote out.old at (integer z) result out.new }
{
    if z < 0 {
        let next = put(out, at, b'-');
        return put_natural(out, next, numerals::size(z));
    }
    put_natural(out, at, numerals::size(z))
}
