//! Moments, their parts and their texts.

use cpl_calendar::{Cal, Parts, TimeFault, calendar_examples, end_of, moment, parts, text_of};

/// Texts of each calendar with their moments, or with why they have none.
#[test]
fn texts(rt: HostRuntime) {
    let table: [(Cal, &[u8], Result<i64, TimeFault>); 32] = [
        (Cal::Gregorian, b"2000-02-28T00:00:00", Ok(63_087_292_800)),
        (Cal::Gregorian, b"2000-02-29T00:00:00", Ok(63_087_379_200)),
        (
            Cal::Gregorian,
            b"1900-02-29T00:00:00",
            Err(TimeFault::NoSuchDay),
        ),
        (Cal::Gregorian, b"1900-03-01T00:00:00", Ok(59_931_705_600)),
        (
            Cal::Gregorian,
            b"2000-02-30T00:00:00",
            Err(TimeFault::NoSuchDay),
        ),
        (
            Cal::Gregorian,
            b"2001-02-29T00:00:00",
            Err(TimeFault::NoSuchDay),
        ),
        (
            Cal::Gregorian,
            b"2000-01-00T00:00:00",
            Err(TimeFault::NoSuchDay),
        ),
        (Cal::Gregorian, b"9999-12-31T23:59:59", Ok(315_537_897_599)),
        (
            Cal::Gregorian,
            b"0000-01-01T00:00:00",
            Err(TimeFault::YearRange),
        ),
        (
            Cal::Gregorian,
            b"0000-02-30T00:00:00",
            Err(TimeFault::YearRange),
        ),
        (Cal::NoLeap, b"2000-02-28T00:00:00", Ok(63_045_475_200)),
        (
            Cal::NoLeap,
            b"2000-02-29T00:00:00",
            Err(TimeFault::NoSuchDay),
        ),
        (Cal::NoLeap, b"2000-03-01T00:00:00", Ok(63_045_561_600)),
        (Cal::NoLeap, b"9999-12-31T23:59:59", Ok(315_328_463_999)),
        (
            Cal::NoLeap,
            b"0000-12-31T00:00:00",
            Err(TimeFault::YearRange),
        ),
        (Cal::Day360, b"2000-02-28T00:00:00", Ok(62_181_820_800)),
        (Cal::Day360, b"2000-02-29T00:00:00", Ok(62_181_907_200)),
        (Cal::Day360, b"2000-02-30T00:00:00", Ok(62_181_993_600)),
        (
            Cal::Day360,
            b"2000-01-31T00:00:00",
            Err(TimeFault::NoSuchDay),
        ),
        (Cal::Day360, b"9999-12-30T23:59:59", Ok(311_008_895_999)),
        (
            Cal::Gregorian,
            b"0000-13-01T00:00:00",
            Err(TimeFault::BadTime),
        ),
        (
            Cal::Gregorian,
            b"2000-00-01T00:00:00",
            Err(TimeFault::BadTime),
        ),
        (
            Cal::Gregorian,
            b"2000-01-01T24:00:00",
            Err(TimeFault::BadTime),
        ),
        (
            Cal::Gregorian,
            b"2000-01-01T00:60:00",
            Err(TimeFault::BadTime),
        ),
        (
            Cal::Gregorian,
            b"2000-02-30T00:00:60",
            Err(TimeFault::BadTime),
        ),
        (
            Cal::Gregorian,
            b"2000-01-01 00:00:00",
            Err(TimeFault::BadTime),
        ),
        (
            Cal::Gregorian,
            b" 2000-01-01T00:00:0",
            Err(TimeFault::BadTime),
        ),
        (
            Cal::Gregorian,
            b"2000-1-01T00:00:00",
            Err(TimeFault::BadTime),
        ),
        (
            Cal::Gregorian,
            b"-200-01-01T00:00:00",
            Err(TimeFault::BadTime),
        ),
        (
            Cal::Gregorian,
            b"2000-01-01T00:00:00Z",
            Err(TimeFault::BadTime),
        ),
        (Cal::Gregorian, b"2000-01-01T00:00", Err(TimeFault::BadTime)),
        (Cal::Gregorian, b"", Err(TimeFault::BadTime)),
    ];
    for (cal, text, wanted) in table {
        assert_eq!(rt; moment(cal, text), wanted);
    }
}

/// Gregorian dates with the seconds that Python's `datetime` counts from 0001-01-01.
#[test]
fn gregorian(rt: HostRuntime) {
    let table: [(&[u8; 19], i64); 14] = [
        (b"0001-01-01T00:00:00", 0),
        (b"0001-12-31T23:59:59", 31_535_999),
        (b"0004-02-29T00:00:00", 99_705_600),
        (b"0100-03-01T00:00:00", 3_129_235_200),
        (b"0400-02-29T12:00:00", 12_596_299_200),
        (b"1582-10-15T06:30:00", 49_916_327_400),
        (b"1600-02-29T00:00:00", 50_464_598_400),
        (b"1899-12-31T23:59:59", 59_926_607_999),
        (b"1900-03-01T00:00:00", 59_931_705_600),
        (b"1970-01-01T00:00:00", 62_135_596_800),
        (b"2000-02-29T23:59:59", 63_087_465_599),
        (b"2024-12-31T12:34:56", 63_871_245_296),
        (b"2100-02-28T00:00:00", 66_243_052_800),
        (b"9999-12-31T23:59:59", 315_537_897_599),
    ];
    for (text, wanted) in table {
        assert_eq!(rt; moment(Cal::Gregorian, text), Ok(wanted));
        let inside = 0 <= wanted && wanted < end_of(Cal::Gregorian);
        assert!(rt; inside);
        assert_eq!(rt; text_of(Cal::Gregorian, wanted).as_slice(), text.as_slice());
    }
}

/// Moments all over the years of each calendar, read again from their texts.
#[test]
fn round_trips(rt: HostRuntime) {
    for cal in [Cal::Gregorian, Cal::NoLeap, Cal::Day360] {
        let end = end_of(cal);
        for i in 0..100_000u32 {
            let at = i64::from(i) * 3_155_339 + i64::from(i % 86_399);
            if 0 <= at && at < end {
                let text = text_of(cal, at);
                assert_eq!(rt; moment(cal, &text), Ok(at));
                let Parts { day, second, .. } = parts(cal, at);
                assert_eq!(rt; text[9] % 16, day % 10);
                assert_eq!(rt; text[18] % 16, second % 10);
            }
        }
    }
}

/// The last second of each calendar, in its parts.
#[test]
fn last_seconds(rt: HostRuntime) {
    calendar_examples();
    for (cal, wanted, days) in [
        (Cal::Gregorian, 315_537_897_600, 31),
        (Cal::NoLeap, 315_328_464_000, 31),
        (Cal::Day360, 311_008_896_000, 30),
    ] {
        let end = end_of(cal);
        assert_eq!(rt; end, wanted);
        let last = end - 1;
        assert!(rt; 0 <= last);
        assert_eq!(rt;
            parts(cal, last),
            Parts {
                year: 9999,
                month: 12,
                day: days,
                hour: 23,
                minute: 59,
                second: 59,
            }
        );
    }
}
