//! The longest lines of marks and of a report.

use arrayvec::ArrayVec;
use muni_days::Day;
use muni_dec::{Cents, Price3};
use muni_import::{RowFault, report_row};
use muni_marks::{MarkSaid, mark_line, total};
use std::test::Fail;

#[test]
fn the_greatest_marks_have_whole_lines(rt: HostRuntime) -> Result<(), Fail> {
    let most = MarkSaid::Marked {
        cusip: *b"ZZZZZZZZZ",
        price: Price3::new(9_223_372_036_854_775_807),
        redemption: Day::of(2199, 12, 31).ok_or("a day")?,
        total: Cents::new(9_223_372_036_854_775_807),
    };
    let mut line = ArrayVec::new();
    mark_line(u32::MAX, &most, &mut line);
    assert_eq!(rt;
        line.as_slice(),
        b"4294967295,marked,ZZZZZZZZZ,9223372036854775.807,2199-12-31,92233720368547758.07\n".as_slice()
    );
    mark_line(u32::MAX, &MarkSaid::Refused { number: 6 }, &mut line);
    assert_eq!(rt;
        line.as_slice(),
        b"4294967295,refused,6,GivenOutOfRange\n".as_slice()
    );
    let fault = RowFault::BadField {
        column: 4_294_967_295,
    };
    mark_line(u32::MAX, &MarkSaid::Bad(fault), &mut line);
    assert_eq!(rt;
        line.as_slice(),
        b"4294967295,bad,2,4294967295\n".as_slice()
    );
    assert_eq!(rt; total(&[most, most]), (2, 18_446_744_073_709_551_614));
    Ok(())
}

#[test]
fn the_greatest_place_of_a_row_has_a_line(rt: HostRuntime) -> Result<(), Fail> {
    let fault = Err(RowFault::BadField { column: 11 });
    let mut text = ArrayVec::new();
    text.push(b'x');
    report_row(u32::MAX, &fault, &mut text);
    assert_eq!(rt; text.as_slice(), b"4294967295,bad,2,11\n".as_slice());
    Ok(())
}
