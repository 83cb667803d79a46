//! The lines after the figures of a quote.

ghost use Rattle.std.specs.Prelude.{◌≡◌, ◌≤◌, ◌+◌, ◌++◌};
ghost use Rattle.arrayvec.specs.ArrayVec.{array_vec_len};
ghost use Rattle.muni_confirm.specs.Details.{details_text, no_details};

use crate::each::push_each;
use crate::risk::push_risk;
use arrayvec::ArrayVec;
use muni_msg::EachRedemption;
use muni_risk::Risk;

/// What a quote shows after its figures.
#[derive(Drop)]
pub struct Details {
    /// The redemption candidates, each with its own figure. None of them if they are not to be shown.
    pub each: ArrayVec<EachRedemption, 100>,
    /// How the price moves with the yield. None if it is not to be shown, and for a discounted note.
    pub risk: Option<Risk>,
}

impl Details {
    /// Nothing after the figures.
    pub fn none() -> Details
        ensures { result ≡ no_details }
    {
        Details {
            each: ArrayVec::new(),
            risk: None,
        }
    }
}

/// Appends the lines after the figures of a quote: those of the redemption candidates, and then those of how the
/// price moves with the yield.
pub fn push_details<const ROOM: usize>(text: &mut ArrayVec<u8, ROOM>, details: &Details)
    requires { array_vec_len text.old + 10_241 ≤ ROOM }
    ensures { text.new.items ≡ text.old.items ++ details_text details.now }
{
    push_each(text, &details.each);
    push_risk(text, details.risk);
}
