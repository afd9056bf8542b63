// The step of a search by halves.
ghost use Rattle.std.specs.Prelude.{◌≡◌, cond, ◌+◌, ◌^◌, ◌<◌};

// at + n where the test holds, else at. It does not branch, since nobody can foresee which way a search goes.
pub(crate) fn moved_if(test: bool, at: usize, n: usize) -> usize
    requires { at + n < 2 ^ 64 }
    ensures { result ≡ cond test (at + n) at }
{
    at + n * usize::from(test)
}
