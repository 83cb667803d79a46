//! For callers outside; the program goes by `Either::new`.

ghost use Rattle.std.specs.Prelude.{◌≡◌, None};
ghost use Rattle.muni_keep.specs.EitherOut.{out_by};

use crate::{Cabinet, Either};

/// Two cabinets as one. A name that begins with `journal:` goes to `second` without these eight
/// bytes, any other to `first`. Of neither may a keeper be out.
pub fn either<A: Cabinet, B: Cabinet>(first: A, second: B) -> Either<A, B>
    requires { (A.out first ≡ None) × (B.out second ≡ None) }
    ensures first { result.first ≡ first }
    ensures second { result.second ≡ second }
    ensures none_out { out_by (A.out result.first) (B.out result.second) ≡ None }
{
    Either::new(first, second)
}
