//! Positions after lists of puts, and if calls of the keeper inside fail.

mod put_cases;
mod unlisted;

ghost use Rattle.std.specs.Prelude.{IsSome};

use crate::desks::{fill, put, trade_of};
use arrayvec::ArrayVec;
use muni_dec::{Cents, Par};
use muni_keep::{KeepFault, Keeper, MemKeeper};
use muni_msg::{Act, Asked, DeskName, Figures, Key, Reference, Side, Terms, Version, read_cusip};
use muni_position::{Positioned, follow, over, position_line};
use muni_test_samples::bytes_of;
use put_cases::CASES;
use std::alloc::Global;
use std::test::Fail;
use unlisted::Unlisted;

fn desk(name: &str) -> Result<DeskName, Fail> {
    Ok(DeskName::read(name.as_bytes()).ok().ok_or("a desk")?)
}

fn reference(text: &[u8]) -> Result<Reference, Fail> {
    Ok(Reference::read(text).ok().ok_or("a reference")?)
}

// A version of a trade. Only what is summed matters.
fn version(act: Act, cusip: [u8; 9], side: Side, par: Par, total: Cents) -> Version {
    let empty = Version::default();
    let asked = Asked {
        cusip,
        par,
        side,
        ..empty.terms.asked
    };
    Version {
        act,
        terms: Terms { asked },
        figures: Figures {
            total,
            ..empty.figures
        },
        ..empty
    }
}

fn act_of(word: &str) -> Result<Act, Fail> {
    match word {
        "e" => Ok(Act::Entered),
        "c" => Ok(Act::Corrected),
        "x" => Ok(Act::Canceled),
        _ => Err(Fail::from("an act")),
    }
}

// The put of a line of a case: act, trade, CUSIP, side, par and total.
fn read_put(line: &str) -> Result<(Key, Version), Fail> {
    let mut words = line.split(' ');
    let act = act_of(words.next().ok_or("an act")?)?;
    let (name, trade) = words
        .next()
        .ok_or("a trade")?
        .split_once('/')
        .ok_or("a desk")?;
    let cusip = words.next().ok_or("a CUSIP")?;
    let cusip = read_cusip(cusip.as_bytes()).ok_or("a CUSIP")?;
    let side = if words.next() == Some("b") {
        Side::Buy
    } else {
        Side::Sell
    };
    let par = Par::of(words.next().ok_or("a par")?.parse::<u64>()?).ok_or("a par")?;
    let total = Cents::of(words.next().ok_or("a total")?.parse::<u64>()?).ok_or("a total")?;
    let key = Key {
        desk: desk(name)?,
        reference: reference(trade.as_bytes())?,
    };
    Ok((key, version(act, cusip, side, par, total)))
}

// The lines that `next` leads through, if each is that of `position`.
fn lines_by_next<K: Keeper>(alloc: Global, keeper: &Positioned<K>) -> Result<Vec<u8>, Fail>
    requires { IsSome keeper.now.desk }
{
    let mut text = Vec::new(alloc);
    let mut line = ArrayVec::new();
    let mut after = None;
    for _turn in 0..8u32 {
        let Some(held) = keeper.next(&after) else {
            return Ok(text);
        };
        let cusip = held.0;
        let position = held.1;
        if keeper.position(&cusip) == position {
            position_line(&cusip, &position, &mut line);
            text.extend_from_slice(line.as_slice())?;
        }
        after = Some(cusip);
    }
    Err(Fail::from("no end of CUSIPs"))
}

// The lines of the watched desk, which `next` gives too.
fn lines<K: Keeper>(alloc: Global, keeper: &Positioned<K>) -> Result<Vec<u8>, Fail> {
    let Some(_) = keeper.watched() else {
        return Err(Fail::from("no desk is watched"));
    };
    let lines = keeper.lines(alloc)?;
    if lines_by_next(alloc, keeper)? != lines {
        return Err(Fail::from("other lines by next"));
    }
    Ok(lines)
}

// The lines of ALPHA after the puts of a case over an empty keeper, which is watched before the put of
// this place.
fn lines_after<K: Keeper + Drop>(
    alloc: Global,
    inner: K,
    puts: &str,
    watched: usize,
) -> Result<Vec<u8>, Fail> {
    let alpha = desk("ALPHA")?;
    let mut keeper = over(alloc, inner);
    for (place, line) in puts.split(';').enumerate() {
        if place == watched {
            keeper.watch(&alpha)?;
        }
        if !line.is_empty() {
            let (key, version) = read_put(line)?;
            put(&mut keeper, &key, &version)?;
        }
    }
    lines(alloc, &keeper)
}

// Whether ALPHA holds what a case says, watched from the first put on and from the middle one.
fn holds(alloc: Global, case: &str) -> Result<bool, Fail> {
    let (puts, wanted) = case.split_once('|').ok_or("a case")?;
    let wanted = bytes_of(alloc, wanted).ok_or("bytes")?;
    let middle = puts.split(';').count() / 2;
    let first = lines_after(alloc, MemKeeper::new(alloc, &[])?, puts, 0)?;
    let second = lines_after(alloc, MemKeeper::new(alloc, &[])?, puts, middle)?;
    Ok(first == wanted && second == wanted)
}

#[test]
fn a_desk_holds_what_its_trades_come_to_from_wherever_it_is_watched(
    rt: HostRuntime,
) -> Result<(), Fail> {
    for case in CASES.lines() {
        assert!(rt; holds(rt.alloc(), case)?, "{case}");
    }
    assert_eq!(rt; CASES.lines().count(), 45);
    Ok(())
}

// Puts 120 trades of ALPHA.
fn put_many<K: Keeper>(keeper: &mut K) -> Result<(), Fail> {
    for place in 0..120_u32 {
        put(keeper, &trade_of(place)?, &sale())?;
    }
    Ok(())
}

// How ALPHA with 120 trades can be watched for the first time, if no desk is watched then, and what it
// holds by the second time.
fn watched_twice<K: Keeper + Drop>(
    alloc: Global,
    inner: K,
) -> Result<(Option<KeepFault>, Vec<u8>), Fail> {
    let alpha = desk("ALPHA")?;
    let mut keeper = over(alloc, inner);
    put_many(&mut keeper)?;
    keeper.watch(&desk("BETA")?)?;
    let fault = keeper.watch(&alpha).err();
    if keeper.watched().is_some() {
        return Err(Fail::from("a desk is watched"));
    }
    keeper.watch(&alpha)?;
    Ok((fault, lines(alloc, &keeper)?))
}

// Its trades take 240 calls and the watch of another desk one. Three pages have trades, and a fourth
// has none.
#[test]
fn no_desk_is_watched_where_a_page_could_not_be_read(rt: HostRuntime) -> Result<(), Fail> {
    for call in 241..245u64 {
        let inner = MemKeeper::new(rt.alloc(), &[call])?;
        let (fault, lines) = watched_twice(rt.alloc(), inner)?;
        assert_eq!(rt; fault, Some(KeepFault::Failed));
        assert_eq!(rt;
            lines.as_slice(),
            b"123456AA3 120 0 600 -600 -601.20\n".as_slice()
        );
    }
    Ok(())
}

// What ALPHA holds after a put that fails and when it is made again, and its trades in the keeper inside.
fn put_twice<K: Keeper + Drop>(alloc: Global, inner: K) -> Result<(Vec<u8>, Vec<u8>, u32), Fail> {
    let alpha = desk("ALPHA")?;
    let (key, entered) = read_put("e ALPHA/T1 123456AA3 b 25000 2549375")?;
    let (_, corrected) = read_put("c ALPHA/T1 64966MZZ5 s 10000 1019750")?;
    let mut keeper = over(alloc, inner);
    keeper.watch(&alpha)?;
    put(&mut keeper, &key, &entered)?;
    if put(&mut keeper, &key, &corrected) != Err(KeepFault::Failed) {
        return Err(Fail::from("no fault"));
    }
    let before = lines(alloc, &keeper)?;
    put(&mut keeper, &key, &corrected)?;
    let after = lines(alloc, &keeper)?;
    let mut inner = keeper.back();
    Ok((before, after, inner.trades(&alpha)?))
}

// The watch takes one call and each put three: the test asks for the last version, the keeper asks for
// it again, and then the version is put.
#[test]
fn totals_stay_where_a_put_fails(rt: HostRuntime) -> Result<(), Fail> {
    for call in 4..7u64 {
        let inner = MemKeeper::new(rt.alloc(), &[call])?;
        let (before, after, trades) = put_twice(rt.alloc(), inner)?;
        assert_eq!(rt;
            before.as_slice(),
            b"123456AA3 1 25000 0 25000 25493.75\n".as_slice()
        );
        assert_eq!(rt;
            after.as_slice(),
            b"64966MZZ5 1 0 10000 -10000 -10197.50\n".as_slice()
        );
        assert_eq!(rt; trades, 1);
    }
    Ok(())
}

fn sale() -> Version {
    version(
        Act::Entered,
        *b"123456AA3",
        Side::Sell,
        Par::new(5),
        Cents::new(501),
    )
}

const MANY: &[u8] = b"123456AA3 100001 0 500005 -500005 -501005.01\n";

// Puts more than 100,000 trades of ALPHA, which is watched. Whether it is watched still, with the positions over
// all of them, and those over its trades are the same.
fn follows_many<K: Keeper + Drop>(alloc: Global, inner: K) -> Result<bool, Fail> {
    let alpha = desk("ALPHA")?;
    let mut keeper = over(alloc, inner);
    keeper.watch(&alpha)?;
    let mut following = follow(keeper);
    fill(&mut following, &sale())?;
    put(&mut following, &trade_of(100_000)?, &sale())?;
    let mut keeper = following.back();
    let is_put = keeper.watches(&alpha) && keeper.trades(&alpha)? == 100_001;
    let followed = lines(alloc, &keeper)?;
    keeper.watch(&alpha)?;
    let summed = lines(alloc, &keeper)?;
    Ok(is_put && followed.as_slice() == MANY && summed.as_slice() == MANY)
}

#[test]
fn a_desk_with_more_than_the_usual_trades_is_watched(rt: HostRuntime) -> Result<(), Fail> {
    let inner = MemKeeper::new(rt.alloc(), &[])?;
    assert!(rt; follows_many(rt.alloc(), inner)?);
    Ok(())
}

// A version whose sums have no room: what the trade was last is taken off, which was never counted.
fn bought() -> Version {
    version(
        Act::Entered,
        *b"123456AA3",
        Side::Buy,
        Par::new(1_000),
        Cents::new(100_500),
    )
}

// Whether a put for which there is no room fails and puts nothing, with the watch as it was; and while puts are
// followed is put and ends the watch.
fn refuses_or_ends(alloc: Global) -> Result<bool, Fail> {
    let alpha = desk("ALPHA")?;
    let key = trade_of(1)?;
    let mut keeper = over(alloc, Unlisted::new(bought()));
    keeper.watch(&alpha)?;
    let refused = keeper.put_version(&key, 2, &sale());
    let is_watched = keeper.watches(&alpha) && lines(alloc, &keeper)?.is_empty();
    let unlisted = keeper.back();
    let is_refused = refused == Err(KeepFault::Failed) && is_watched && unlisted.puts() == 0;
    let mut keeper = over(alloc, unlisted);
    keeper.watch(&alpha)?;
    let mut following = follow(keeper);
    following.put_version(&key, 2, &sale())?;
    let keeper = following.back();
    let is_ended = keeper.watched().is_none();
    Ok(is_refused && is_ended && keeper.back().puts() == 1)
}

#[test]
fn a_trade_for_which_there_is_no_room_is_refused_or_ends_the_watch(
    rt: HostRuntime,
) -> Result<(), Fail> {
    assert!(rt; refuses_or_ends(rt.alloc())?);
    Ok(())
}
