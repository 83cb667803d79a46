//! What lends keepers by name.

ghost use Rattle.std.specs.Prelude.{◌≡◌, ◌≢◌, ◌≤◌, ℕ, List, Option, Some, None, is_some, IfOk, IfSome, IsSomeAnd, OnErr, IsErrOf};
ghost use Rattle.muni_edge.specs.Calls.{raised};
ghost use Rattle.muni_edge.specs.Faults.{Rose};
ghost use Rattle.muni_keep.specs.Tables.{Tables};

use crate::fault::KeepFault;
use crate::keeper::Keeper;

/// What lends keepers by name, one at a time.
pub trait Cabinet {
    type K: Keeper;

    /// The tables under a name, if it exposes them. For the name whose keeper is out they are
    /// unspecified.
    ghost told: { Self → List ℕ → Option Tables };

    /// How often it has failed.
    ghost faults: { Self → ℕ };

    /// The name of the keeper that is out, and the number that it was lent as.
    ghost out: { Self → Option (List ℕ × ℕ) };

    /// Lends the keeper of a name. None may be out.
    fn fetch(&mut self, name: &[u8]) -> Result<Self::K, KeepFault>
        requires { out self.old ≡ None }

        // promise 6: a keeper that is lent has the tables under the name
        ensures tables { IfOk result
            (λ keeper. IfSome (told self.old name.now) (λ t. Self.K.tables keeper ≡ Some t)) }
        ensures count { IfOk result (λ keeper. Self.K.faults keeper ≡ 0) }
        ensures out { IfOk result (λ keeper. out self.new ≡ Some (name.now, Self.K.lent_as keeper)) }

        // The tables of the other names stay as they are, and after a refusal those of all names.
        // promise 6: tables are told after a fetch exactly if they were before
        ensures tells { (other : List ℕ) → is_some (told self.new other) ≡ is_some (told self.old other) }
        // promise 7: the tables of other names stay
        ensures others { (other : List ℕ) → other ≢ name.now → told self.new other ≡ told self.old other }
        ensures unchanged { OnErr result ((other : List ℕ) → told self.new other ≡ told self.old other) }
        ensures none_out { OnErr result (out self.new ≡ None) }
        // promise 9: a count of faults never falls
        ensures later { faults self.old ≤ faults self.new }
        // promise 9: a fetch fails only if the count rose
        ensures failed { IsErrOf result KeepFault.Failed → Rose (faults self.old) (faults self.new) };

    /// Takes back the keeper that is out, under the name by which it was lent.
    fn give_back(&mut self, keeper: Self::K)
        requires { IsSomeAnd (out self.old) (λ lent. lent.1 ≡ Self.K.lent_as keeper) }

        // promise 6: a keeper that is given back leaves its tables under the name
        ensures tables { IfSome (out self.old) (λ lent. IfSome (told self.old lent.0)
            (λ _. IfSome (Self.K.tables keeper) (λ t. told self.new lent.0 ≡ Some t))) }
        // promise 6: tables are told after it exactly if they were before
        ensures tells { (other : List ℕ) → is_some (told self.new other) ≡ is_some (told self.old other) }
        // promise 7: the tables of other names stay
        ensures others { IfSome (out self.old) (λ lent.
            (other : List ℕ) → other ≢ lent.0 → told self.new other ≡ told self.old other) }
        ensures none_out { out self.new ≡ None }
        // promise 9: a cabinet counts what its keepers counted
        ensures counted { faults self.new ≡ raised (faults self.old) (Self.K.faults keeper) };
}
