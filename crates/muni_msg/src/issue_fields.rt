//! The texts of the terms of an issue, which rows and messages share.

ghost use Rattle.std.specs.Prelude.{◌≡◌};
ghost use Rattle.std.specs.List.{list_all};
ghost use Rattle.muni_rule.specs.Cusip.{is_cusip_character};
ghost use Rattle.muni_terms.specs.Check as terms;
ghost use Rattle.muni_msg.specs.IssueFields as spec;

use arrayvec::ArrayVec;
use muni_dec::Coupon;
use muni_terms::Kind;

/// The CUSIP that a text names: nine digits and capital letters, whatever the check digit.
pub fn read_cusip(text: &[u8]) -> Option<[u8; 9]>
    ensures { result ≡ spec.cusip_reading text.now }
{
    if !are_cusip_characters(text) {
        return None;
    }
    <[u8; 9]>::try_from(text).ok()
}

fn are_cusip_characters(text: &[u8]) -> bool
    ensures { result ≡ list_all is_cusip_character text.now }
{
    text.iter()
        .all(|c| c.is_ascii_digit() || c.is_ascii_uppercase())
}

/// The name of an issue: 1 to 60 bytes, whatever they are.
pub fn read_issue_name(text: &[u8]) -> Option<ArrayVec<u8, 60>>
    ensures { result ≡ spec.issue_name_reading text.now }
{
    if text.is_empty() {
        return None;
    }
    ArrayVec::try_from(text).ok()
}

/// The coupon that a text names, in dollars per 100 of par and year. An empty text is 0 if the kind
/// pays no interest.
pub fn read_coupon(kind: Kind, text: &[u8]) -> Option<Coupon>
    ensures { result ≡ spec.coupon_by (terms.pays_interest kind) text.now }
{
    if text.is_empty() && !kind.pays_interest() {
        return Some(Coupon::new(0));
    }
    Coupon::read(text).ok()
}
