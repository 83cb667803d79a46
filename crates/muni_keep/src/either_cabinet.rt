//! Two cabinets as one.

ghost use Rattle.std.specs.Prelude.{◌≡◌, None};
ghost use Rattle.std.specs.Option.{option_map, ForSome};
ghost use Rattle.muni_keep.specs.EitherName as spec;
ghost use Rattle.muni_keep.specs.EitherOut.{out_by};

use crate::cabinet::Cabinet;
use crate::either_keeper::EitherKeeper;
use crate::fault::KeepFault;

/// Two cabinets as one. A name that begins with `journal:` goes to the second without these eight
/// bytes, any other to the first.
#[derive(Drop)]
pub struct Either<A: Cabinet, B: Cabinet> {
    first: A,
    second: B,
    // One of them at most has lent a keeper, and the first only under a name of its own.
    ghost one: { ForSome (A.out first) (λ _. B.out second ≡ None) },
    ghost own: { ForSome (A.out first) (λ lent. spec.journal_name lent.0 ≡ None) },
}

impl<A: Cabinet, B: Cabinet> Either<A, B> {
    /// Two cabinets as one. Of neither may a keeper be out.
    pub fn new(first: A, second: B) -> Either<A, B>
        requires { (A.out first ≡ None) × (B.out second ≡ None) }
        ensures first { result.first ≡ first }
        ensures second { result.second ≡ second }
        ensures none_out { out_by (A.out result.first) (B.out result.second) ≡ None }
    {
        Either { first, second }
    }
}

/// What follows `journal:`, if a name begins so.
fn journal_name(name: &[u8]) -> Option<&[u8]>
    ensures { option_map (λ rest. rest.now) result ≡ spec.journal_name name.now }
{
    if name.len() >= 8 && &name[..8] == b"journal:".as_slice() {
        return Some(&name[8..]);
    }
    None
}

impl<A: Cabinet, B: Cabinet> Cabinet for Either<A, B> {
    ghost use Rattle.muni_edge.specs.Calls.{raised};
    ghost use Rattle.muni_keep.specs.EitherName.{journal_name, told_by};
    ghost use Rattle.muni_keep.specs.EitherOut.{out_by};

    type K = EitherKeeper<A::K, B::K>;

    ghost told = { λ c name. told_by (A.told c.first) (B.told c.second) name (journal_name name) };

    ghost faults = { λ c. raised (A.faults c.first) (B.faults c.second) };

    ghost out = { λ c. out_by (A.out c.first) (B.out c.second) };

    fn fetch(&mut self, name: &[u8]) -> Result<EitherKeeper<A::K, B::K>, KeepFault> {
        match journal_name(name) {
            Some(rest) => match self.second.fetch(rest) {
                Ok(keeper) => Ok(EitherKeeper::Second(keeper)),
                Err(fault) => Err(fault),
            },
            None => match self.first.fetch(name) {
                Ok(keeper) => Ok(EitherKeeper::First(keeper)),
                Err(fault) => Err(fault),
            },
        }
    }

    fn give_back(&mut self, keeper: EitherKeeper<A::K, B::K>) {
        match keeper {
            EitherKeeper::First(keeper) => self.first.give_back(keeper),
            EitherKeeper::Second(keeper) => self.second.give_back(keeper),
        }
    }
}
