//! The calls of an issue in one field.

ghost use Rattle.std.specs.Prelude.{◌≡◌, ◌∷◌};
ghost use Rattle.std.specs.Option.{option_map};
ghost use Rattle.muni_msg.specs.Calls as spec;

use crate::read_call;
use arrayvec::ArrayVec;
use muni_dec::text::find;
use muni_terms::Call;

/// At most 40 calls, as `2027-01-01:102 2028-01-01:100+`. An empty text names none.
#[tactic(auto, unfolding(crate::specs::Calls::calls_field))]
pub fn read_calls(text: &[u8]) -> Option<ArrayVec<Call, 40>>
    // promise 4: calls are read exactly by their format, 40 at most
    ensures { option_map (λ calls. calls.items) result ≡ spec.calls_field text.now }
{
    if text.is_empty() {
        return Some(ArrayVec::new());
    }
    read_some_calls(text)
}

fn read_some_calls(text: &[u8]) -> Option<ArrayVec<Call, 40>>
    ensures { option_map (λ calls. calls.items) result
        ≡ spec.few_calls (spec.cut_at_blanks text.now) }
{
    let mut calls = ArrayVec::new();
    let mut rest = text;
    for count in 0..40usize {
        // Proofs alone read the count.
        let _count = count;
        let (call, behind) = split_at_blank(rest);
        calls.push(read_call(call)?);
        let Some(behind) = behind else {
            return Some(calls);
        };
        rest = behind;
    }
    None
}

// What is before the first blank, and what is after it, if there is one.
#[tactic(auto, using(crate::proofs::BlankLemmas::cut_at, crate::proofs::BlankLemmas::uncut))]
fn split_at_blank(text: &[u8]) -> (&[u8], Option<&[u8]>)
    ensures { spec.cut_at_blanks text.now
        ≡ result.0.now ∷ spec.cut_behind (option_map (λ behind. behind.now) result.1) }
{
    match find(text, b' ') {
        Some(blank) => (&text[..blank], Some(&text[blank + 1..])),
        None => (text, None),
    }
}
