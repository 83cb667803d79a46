//! What a store keeps, written out, and the words that ask for it.

use super::{NONE_FAILS, Outcome, ask_both};
use muni_desk::Status;
use std::alloc::Global;
use std::test::Fail;
use std::thread::Threads;

const IMPORT: &str = "import --store=S";

const ROWS: &[u8] =
    b"issue,990081AB7,\"MARLOW, \"\"COUNTY\"\" NOTES 2025\",at-redemption,2024-02-29,,2025-02-28,3.9,,actual/365
issue,990034AA8,ELM GROVE SCHOOLS 4.125S 2039,periodic,2023-08-01,2024-02-01,2039-08-01,4.125,2033-08-01:102+ 2035-08-01:100+
trade,BETA,T0001,990034AA8,buy,10000,2024-04-03,yield,4
trade,ALPHA,T0002,990034AA8,sell,25000,2024-04-03,price,104.25,0.375
trade,ALPHA,T0001,990081AB7,buy,500000,2024-04-01,yield,3.545
correct,ALPHA,T0002,2,990034AA8,sell,30000,2024-04-03,price,104.25,0.375
cancel,ALPHA,T0001,2
";

const EVERYTHING: &str =
    "issue,990034AA8,ELM GROVE SCHOOLS 4.125S 2039,periodic,2023-08-01,2024-02-01,2039-08-01,4.1250000,2033-08-01:102.000000+ 2035-08-01:100.000000+,30/360
issue,990081AB7,\"MARLOW, \"\"COUNTY\"\" NOTES 2025\",at-redemption,2024-02-29,,2025-02-28,3.9000000,,actual/365
trade,ALPHA,T0001,990081AB7,buy,500000,2024-04-01,yield,3.5450,0.000
cancel,ALPHA,T0001,2
trade,ALPHA,T0002,990034AA8,sell,25000,2024-04-03,price,104.250000,0.375
correct,ALPHA,T0002,2,990034AA8,sell,30000,2024-04-03,price,104.250000,0.375
trade,BETA,T0001,990034AA8,buy,10000,2024-04-03,yield,4.0000,0.000
";

const ISSUES: &str =
    "issue,990034AA8,ELM GROVE SCHOOLS 4.125S 2039,periodic,2023-08-01,2024-02-01,2039-08-01,4.1250000,2033-08-01:102.000000+ 2035-08-01:100.000000+,30/360
issue,990081AB7,\"MARLOW, \"\"COUNTY\"\" NOTES 2025\",at-redemption,2024-02-29,,2025-02-28,3.9000000,,actual/365
";

const OF_BETA: &str =
    "issue,990034AA8,ELM GROVE SCHOOLS 4.125S 2039,periodic,2023-08-01,2024-02-01,2039-08-01,4.1250000,2033-08-01:102.000000+ 2035-08-01:100.000000+,30/360
trade,BETA,T0001,990034AA8,buy,10000,2024-04-03,yield,4.0000,0.000
";

const LIST: &str =
    "reference,version,state,cusip,side,par,settlement,basis,value,fee,price,yield,redemption,redemption_price,redemption_label,days,principal,accrued,commission,total
T0001,2,CANCELED,990081AB7,buy,500000,2024-04-01,yield,3.5450,0.000,100.303,3.545,2025-02-28,100.000000,MATURITY,32,501515.00,1709.59,0.00,503224.59
T0002,2,LIVE,990034AA8,sell,30000,2024-04-03,price,104.250000,0.375,104.250,3.703,2035-08-01,100.000000,PAR OPTION,62,31275.00,213.13,112.50,31375.63
";

const COUNTS: &str = "ISSUES 2\nDESK ALPHA 4\nDESK BETA 1\nSOUND\n";

const EMPTY_LIST: &str =
    "reference,version,state,cusip,side,par,settlement,basis,value,fee,price,yield,redemption,redemption_price,redemption_label,days,principal,accrued,commission,total
";

const CONFIRMATIONS: &str = "CANCELED CONFIRMATION 2
DESK ALPHA
REFERENCE T0001
BOUGHT 500000
CUSIP 990081AB7
ISSUE MARLOW, \"COUNTY\" NOTES 2025
COUPON 3.9000000
DATED 2024-02-29
MATURITY 2025-02-28
BASIS ACTUAL/365
SETTLEMENT 2024-04-01
PRICE 100.303 COMPUTED
YIELD 3.545 GIVEN
REDEMPTION 2025-02-28 100.000000 MATURITY
ACCRUED DAYS 32
PRINCIPAL 501515.00
ACCRUED 1709.59
TOTAL 503224.59

CORRECTED CONFIRMATION 2
DESK ALPHA
REFERENCE T0002
SOLD 30000
CUSIP 990034AA8
ISSUE ELM GROVE SCHOOLS 4.125S 2039
COUPON 4.1250000
DATED 2023-08-01
MATURITY 2039-08-01
SETTLEMENT 2024-04-03
PRICE 104.250 GIVEN
YIELD 3.703 COMPUTED
REDEMPTION 2035-08-01 100.000000 PAR OPTION
ACCRUED DAYS 62
PRINCIPAL 31275.00
ACCRUED 213.13
COMMISSION 112.50
TOTAL 31375.63
";

const LOAD: &str = "load --store=S";

// A command over the tables of an import.
fn said_over<'a, R: Threads + Sync>(
    rt: &R,
    alloc: Global,
    rows: &'a [u8],
    words: &'a str,
) -> Result<Outcome, Fail> {
    let both = [NONE_FAILS, NONE_FAILS];
    let (_, outcome) = ask_both(rt, alloc, both, (IMPORT, rows), (words, b""))?;
    Ok(outcome)
}

#[test]
fn what_a_store_keeps_is_written(rt: HostRuntime) -> Result<(), Fail> {
    for (words, text) in [
        ("export --store=S", EVERYTHING),
        ("export --issues --store=S", ISSUES),
        ("export --store=S --desk=BETA", OF_BETA),
        ("export --desk=GAMMA --store=S", ""),
        ("list --desk=ALPHA --store=S", LIST),
        ("list --store=S --desk=GAMMA", EMPTY_LIST),
        ("confirm --store=S --all --desk=ALPHA", CONFIRMATIONS),
        ("confirm --desk=GAMMA --store=S --all", ""),
        ("check-store --store=S", COUNTS),
    ] {
        let outcome = said_over(&rt, rt.alloc(), ROWS, words)?;
        assert_eq!(rt; outcome.status, Status::Done, "{words}");
        assert_eq!(rt;
            str::from_utf8(outcome.output.bytes()).ok(),
            Some(text),
            "{words}"
        );
    }
    Ok(())
}

#[test]
fn an_export_that_is_imported_is_exported_again(rt: HostRuntime) -> Result<(), Fail> {
    let outcome = said_over(&rt, rt.alloc(), EVERYTHING.as_bytes(), "export --store=S")?;
    assert_eq!(rt;
        str::from_utf8(outcome.output.bytes()).ok(),
        Some(EVERYTHING)
    );
    Ok(())
}

#[test]
fn a_load_does_what_an_import_does(rt: HostRuntime) -> Result<(), Fail> {
    let both = [NONE_FAILS, NONE_FAILS];
    let export = ("export --store=S", b"".as_slice());
    let (imported, kept) = ask_both(&rt, rt.alloc(), both, (IMPORT, ROWS), export)?;
    let (loaded, also) = ask_both(&rt, rt.alloc(), both, (LOAD, ROWS), export)?;
    assert_eq!(rt; loaded.status, Status::Done);
    assert_eq!(rt; loaded.output.bytes(), imported.output.bytes());
    assert_eq!(rt; also.output.bytes(), kept.output.bytes());
    Ok(())
}

#[test]
fn a_desk_has_as_many_trades_as_the_words_let_it_have(rt: HostRuntime) -> Result<(), Fail> {
    for (words, is_full) in [
        ("import --desk-limit=1 --store=S", true),
        ("import --store=S --desk-limit=2", false),
        ("load --store=S --desk-limit=1", true),
        ("load --desk-limit=100000000 --store=S", false),
        (LOAD, false),
    ] {
        let both = [NONE_FAILS, NONE_FAILS];
        let export = ("export --store=S", b"".as_slice());
        let (done, _) = ask_both(&rt, rt.alloc(), both, (words, ROWS), export)?;
        let report = str::from_utf8(done.output.bytes()).ok().ok_or("a text")?;
        assert_eq!(rt; done.status, Status::Done, "{words}");
        assert_eq!(rt; report.contains("DeskFull"), is_full, "{words}");
    }
    Ok(())
}

#[test]
fn other_words_of_these_commands_are_refused(rt: HostRuntime) -> Result<(), Fail> {
    for words in [
        "export",
        "export --desk=ALPHA",
        "export --store=S --desk=ALPHA --issues",
        "export --store=S --issues --issues",
        "export --store=S --desk=ALPHA --desk=ALPHA",
        "export --store=S --desk=alpha",
        "export --store=S --issues=1",
        "export --store=S --all",
        "export --store=S --ref=T0001",
        "export --store=S --workers=1",
        "load",
        "load --store=S --store=S",
        "load --store=S --workers=1",
        "load --store=S --desk-limit=",
        "load --store=S --desk-limit=0",
        "load --store=S --desk-limit=100000001",
        "load --store=S --desk-limit=+1",
        "load --desk-limit=1 --store=S --desk-limit=1",
        "import --store=S --desk-limit=0",
        "serve --store=S --port=8080 --connections=1 --desk-limit=1e5",
        "export --store=S --desk-limit=1",
        "positions --store=S --desk=ALPHA --desk-limit=1",
        "mark --store=S --desk-limit=1",
        "list --store=S",
        "list --desk=ALPHA",
        "list --store=S --desk=ALPHA --issues",
        "list --store=S --desk=ALPHA --all",
        "confirm --store=S --desk=ALPHA",
        "confirm --store=S --all",
        "confirm --store=S --desk=ALPHA --all --all",
        "confirm --store=S --desk=ALPHA --ref=T0001 --all",
        "confirm --store=S --desk=ALPHA --all=1",
        "confirm --store=S --desk=ALPHA --issues",
        "check-store",
        "check-store --store=S --store=S",
        "check-store --store=S --desk=ALPHA",
        "check-store --store=S --all",
    ] {
        let outcome = said_over(&rt, rt.alloc(), b"", words)?;
        assert_eq!(rt; outcome.status, Status::Usage, "{words}");
        assert!(rt; outcome.output.bytes().is_empty(), "{words}");
    }
    Ok(())
}
