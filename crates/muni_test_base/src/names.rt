use arrayvec::ArrayVec;
use muni_days::Day;
use muni_dec::text::{push, push_number};
use muni_dec::{Fee, Par, Price, Yield};
use muni_msg::{
    Asked, DeskName, Given, NameFault, Range, Reference, Refusal, Side, Terms, refusal_name,
};
use std::test::Fail;

// A kind of name, its text, and the name that is read or the number and the place of the fault.
const NAMES: &str = "\
desk||fault 1
desk|9|9
desk|0123456789ABCDYZ|0123456789ABCDYZ
desk|0123456789ABCDYZ-|fault 2
desk|ALPHa|fault 3 4
desk|-A-|fault 3 0
desk|A[|fault 3 1
reference||fault 1
reference|z|z
reference|0129ABYZabyzABYZabyz|0129ABYZabyzABYZabyz
reference|0129ABYZabyzABYZabyz0|fault 2
reference|T 1|fault 3 1
reference|T1_|fault 3 2";

type Text = ArrayVec<u8, 64>;

fn fault_text(fault: NameFault) -> Text {
    let mut text = ArrayVec::new();
    push(&mut text, b"fault");
    push_number(&mut text, fault.number());
    if let NameFault::BadByte { at } = fault {
        push_number(&mut text, at);
    }
    text
}

fn copied(bytes: &[u8]) -> Text {
    let mut text = ArrayVec::new();
    let _ = text.try_extend_from_slice(bytes);
    text
}

fn read(kind: &str, text: &[u8]) -> Text {
    if kind == "desk" {
        return match DeskName::read(text) {
            Ok(name) => copied(name.bytes()),
            Err(fault) => fault_text(fault),
        };
    }
    match Reference::read(text) {
        Ok(name) => copied(name.bytes()),
        Err(fault) => fault_text(fault),
    }
}

fn first_bad(cases: &str) -> Option<&str> {
    for case in cases.lines() {
        let (kind, rest) = case.split_once('|').unwrap_or((case, ""));
        let (text, wanted) = rest.split_once('|').unwrap_or((rest, ""));
        if read(kind, text.as_bytes()).as_slice() != wanted.as_bytes() {
            return Some(case);
        }
    }
    None
}

#[test]
fn names_are_read_to_the_ends_of_their_range(rt: HostRuntime) {
    assert_eq!(rt; first_bad(NAMES), None);
    assert_eq!(rt; NAMES.lines().count(), 13);
}

// Whether each reference of a list is before the next.
fn is_rising(texts: &str) -> Option<bool> {
    let mut last = None;
    for text in texts.split(' ') {
        let reference = Reference::read(text.as_bytes()).ok()?;
        if let Some(before) = &last {
            if !(*before < reference) {
                return Some(false);
            }
        }
        last = Some(reference);
    }
    Some(true)
}

#[test]
fn references_are_in_the_order_of_their_bytes(rt: HostRuntime) {
    assert_eq!(rt; is_rising("0 T T10 T2 a"), Some(true));
}

#[test]
fn refusals_have_numbers_and_names(rt: HostRuntime) {
    let number = Refusal::GivenOutOfRange(Range::Above).number();
    assert_eq!(rt; number, 6);
    let names = (refusal_name(number), refusal_name(1), refusal_name(15));
    assert_eq!(rt; names, ("GivenOutOfRange", "UnknownIssue", "WrongBasis"));
}

fn asked() -> Option<Asked> {
    Some(Asked {
        cusip: *b"123456AA3",
        par: Par::of(25_000)?,
        settle: Day::of(2024, 4, 1)?,
        given: Given::AtYield(Yield::of(40_000)?),
        side: Side::Buy,
        fee: Fee::of(0)?,
    })
}

// The same with the part of a number changed.
fn changed(asked: &Asked, part: u32) -> Option<Asked> {
    let asked = *asked;
    match part {
        1 => Some(Asked {
            cusip: *b"123456AB1",
            ..asked
        }),
        2 => Some(Asked {
            par: Par::of(30_000)?,
            ..asked
        }),
        3 => Some(Asked {
            settle: Day::of(2024, 4, 2)?,
            ..asked
        }),
        4 => Some(Asked {
            given: Given::AtRate(Yield::of(40_000)?),
            ..asked
        }),
        5 => Some(Asked {
            given: Given::AtPrice(Price::of(40_000)?),
            ..asked
        }),
        6 => Some(Asked {
            side: Side::Sell,
            ..asked
        }),
        7 => Some(Asked {
            fee: Fee::of(1)?,
            ..asked
        }),
        _ => None,
    }
}

fn are_same(one: &Asked, other: &Asked) -> bool {
    Terms { asked: *one } == Terms { asked: *other }
}

// The first number of a part whose change does not show, or 0 if the same differs.
fn first_bad_part(asked: &Asked) -> Option<u32> {
    if !are_same(asked, asked) {
        return Some(0);
    }
    for part in 1..8u32 {
        match changed(asked, part) {
            Some(other) if !are_same(asked, &other) => {}
            _ => return Some(part),
        }
    }
    None
}

#[test]
fn terms_are_the_same_where_every_part_is(rt: HostRuntime) -> Result<(), Fail> {
    let asked = asked().ok_or("what is asked")?;
    assert_eq!(rt; first_bad_part(&asked), None);
    Ok(())
}
