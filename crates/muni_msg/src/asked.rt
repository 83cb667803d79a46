//! What a trade or a quote asks for.

ghost use Rattle.std.specs.Prelude.{◌≡◌, ◌↔◌, true};
ghost use Rattle.std.specs.Cmp.Rules.{comparing};
ghost use Rattle.std.proofs.Common.{rules};

use muni_days::Day;
use muni_dec::{Fee, Par, Price, Yield};

/// On which basis a trade is done.
#[derive(Clone, Copy, Debug)]
pub enum Given {
    /// At a yield; the price is computed.
    AtYield(Yield),
    /// At a dollar price; the yield is computed.
    AtPrice(Price),
    /// At a discount rate; the price and the return are computed.
    AtRate(Yield),
}

/// The side of a trade of the party who is confirmed.
#[derive(Clone, Copy, Debug)]
pub enum Side {
    Buy,
    Sell,
}

/// What figures are asked for.
#[derive(Clone, Copy, Debug)]
pub struct Asked {
    pub cusip: [u8; 9],
    pub par: Par,
    /// The settlement date.
    pub settle: Day,
    pub given: Given,
    pub side: Side,
    /// The commission per 100 of par, on top of the given price for a buy and out of it for a sale.
    pub fee: Fee,
}

/// The terms of a trade.
#[derive(Clone, Copy, Debug)]
pub struct Terms {
    pub asked: Asked,
}

impl PartialEq for Given {
    ghost use Rattle.muni_msg.specs.Asked.{given_eq};

    ghost eq = { given_eq };

    ghost laws = { Prim.search (comparing, rules) };

    #[tactic(auto, using(crate::proofs::AskedLemmas::given_decides))]
    fn eq(&self, other: &Given) -> bool
        ensures value { result ≡ given_eq self.now other.now }
        ensures same { (result ≡ true) ↔ (self.now ≡ other.now) }
    {
        match (self, other) {
            (Given::AtYield(y), Given::AtYield(other)) => *y == *other,
            (Given::AtPrice(price), Given::AtPrice(other)) => *price == *other,
            (Given::AtRate(rate), Given::AtRate(other)) => *rate == *other,
            _ => false,
        }
    }
}

impl Eq for Given {
    ghost laws = { Prim.search (comparing, rules) };
}

impl PartialEq for Side {
    ghost use Rattle.muni_msg.specs.Asked.{side_eq};

    ghost eq = { side_eq };

    ghost laws = { Prim.search (comparing, rules) };

    #[tactic(auto, using(crate::proofs::AskedLemmas::side_decides))]
    fn eq(&self, other: &Side) -> bool
        ensures value { result ≡ side_eq self.now other.now }
        ensures same { (result ≡ true) ↔ (self.now ≡ other.now) }
    {
        match (self, other) {
            (Side::Buy, Side::Buy) => true,
            (Side::Sell, Side::Sell) => true,
            _ => false,
        }
    }
}

impl Eq for Side {
    ghost laws = { Prim.search (comparing, rules) };
}

impl PartialEq for Asked {
    ghost use Rattle.muni_msg.specs.Asked.{asked_eq};

    ghost eq = { asked_eq };

    ghost laws = { Prim.search (comparing, rules) depth 12 };

    #[tactic(auto, using(crate::proofs::AskedLemmas::asked_decides))]
    fn eq(&self, other: &Asked) -> bool
        ensures value { result ≡ asked_eq self.now other.now }
        // promise 5: requests are equal exactly if they are the same
        ensures same { (result ≡ true) ↔ (self.now ≡ other.now) }
    {
        let same_amount = self.cusip == other.cusip && self.par == other.par;
        let same_price = self.given == other.given && self.fee == other.fee;
        same_amount && same_price && self.settle == other.settle && self.side == other.side
    }
}

impl Eq for Asked {
    ghost laws = { Prim.search (comparing, rules) depth 12 };
}

impl PartialEq for Terms {
    ghost use Rattle.muni_msg.specs.Asked.{terms_eq};

    ghost eq = { terms_eq };

    ghost laws = { Prim.search (comparing, rules) depth 12 };

    #[tactic(auto, using(crate::proofs::AskedLemmas::terms_decides))]
    fn eq(&self, other: &Terms) -> bool
        ensures value { result ≡ terms_eq self.now other.now }
        // promise 5: terms of trades are equal exactly if they are the same
        ensures same { (result ≡ true) ↔ (self.now ≡ other.now) }
    {
        self.asked == other.asked
    }
}

impl Eq for Terms {
    ghost laws = { Prim.search (comparing, rules) depth 12 };
}
