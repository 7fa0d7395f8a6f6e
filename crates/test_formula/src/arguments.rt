//! Words as arguments of native rules, each with the number or read that it stands for or with its fault.

use crate::shown::shown_argument;
use std::test::Fail;

/// Words, the places of their first bytes, and what they must show.
type Rows = &'static [(&'static [u8], u32, &'static [u8])];

/// Numbers, and those that are no values.
const NUMBERS: Rows = &[
    (b"0", 0, b"0"),
    (b"7", 0, b"7"),
    (b"007", 3, b"7"),
    (b"12.5", 0, b"12.500000"),
    (b"0.000001", 0, b"0.000001"),
    (b"-2", 0, b"-2.000000"),
    (b"-0", 0, b"0"),
    (b"-0.5", 0, b"-0.500000"),
    (b"1000000000", 0, b"1000000000"),
    (b"-1000000000.000000", 0, b"-1000000000.000000"),
    (b"00000000000000000000000000000000000001", 0, b"1"),
    (b"1.0000000", 9, b"BadNumber 9"),
    (b"1.0000001", 5, b"BadNumber 5"),
    (b"-0.1234567", 4_294_967_295, b"BadNumber 4294967295"),
    (b"1000000000.000001", 1, b"BadNumber 1"),
    (b"-1000000001", 2, b"BadNumber 2"),
    (
        b"99999999999999999999999999999999999999999",
        0,
        b"BadNumber 0",
    ),
    (
        b"99999999999999999999.99999999999999999999",
        0,
        b"BadNumber 0",
    ),
];

/// Names and neighbours.
const READS: Rows = &[
    (b"x", 0, b"x"),
    (b"y", 8, b"y"),
    (b"y2", 0, b"y2"),
    (b"flux", 0, b"flux"),
    (b"i", 0, b"i"),
    (b"s", 0, b"s"),
    (b"nx", 0, b"nx"),
    (b"second", 0, b"second"),
    (b"days", 0, b"days"),
    (b"daysec", 0, b"daysec"),
    (b"dt", 0, b"dt"),
    (b"ring_a", 0, b"ring_a"),
    (b"ring_daily", 0, b"ring_daily"),
    (b"x[0,0]", 0, b"x"),
    (b"x[-0,-0]", 0, b"x"),
    (b"x[1,0]", 0, b"x[1,0]"),
    (b"x[0,1]", 0, b"x[0,1]"),
    (b"temp[2,-2]", 0, b"temp[2,-2]"),
    (b"y2[-2,2]", 7, b"y2[-2,2]"),
];

/// Words of no form that an argument has.
const FORMS: Rows = &[
    (b"", 3, b"Syntax 3"),
    (b"-", 3, b"Syntax 3"),
    (b"+1", 3, b"Syntax 3"),
    (b"--1", 3, b"Syntax 3"),
    (b"-x", 3, b"Syntax 3"),
    (b"-min", 3, b"Syntax 3"),
    (b"1.", 3, b"Syntax 3"),
    (b".5", 3, b"Syntax 3"),
    (b"1.2.3", 3, b"Syntax 3"),
    (b"1e3", 3, b"Syntax 3"),
    (b"1x", 3, b"Syntax 3"),
    (b"1[0,0]", 3, b"Syntax 3"),
    (b"(1)", 3, b"Syntax 3"),
    (b"(x)", 3, b"Syntax 3"),
    (b"zz+1", 3, b"Syntax 3"),
    (b"x+y", 3, b"Syntax 3"),
    (b"abs(x)", 3, b"Syntax 3"),
    (b"x,", 3, b"Syntax 3"),
    (b"x y", 3, b"Syntax 3"),
    (b" x", 3, b"Syntax 3"),
    (b"x\t", 3, b"Syntax 3"),
    (b"_x", 3, b"Syntax 3"),
    (b"x-y", 3, b"Syntax 3"),
    (b"\xE9", 3, b"Syntax 3"),
    (b"x[", 3, b"Syntax 3"),
    (b"x]", 3, b"Syntax 3"),
    (b"[1,0]", 3, b"Syntax 3"),
    (b"x[]", 3, b"Syntax 3"),
    (b"x[1]", 3, b"Syntax 3"),
    (b"x[1,]", 3, b"Syntax 3"),
    (b"x[,1]", 3, b"Syntax 3"),
    (b"x[1,0", 3, b"Syntax 3"),
    (b"x[1,0,0]", 3, b"Syntax 3"),
    (b"x[1,0]]", 3, b"Syntax 3"),
    (b"x[[1,0]", 3, b"Syntax 3"),
    (b"x[1,0]y", 3, b"Syntax 3"),
    (b"x[1,0][1,0]", 3, b"Syntax 3"),
    (b"x[1, 0]", 3, b"Syntax 3"),
    (b"x [1,0]", 3, b"Syntax 3"),
    (b"x[+1,0]", 3, b"Syntax 3"),
    (b"x[--1,0]", 3, b"Syntax 3"),
    (b"x[1-,0]", 3, b"Syntax 3"),
    (b"x[-,0]", 3, b"Syntax 3"),
    (b"x[12,0]", 3, b"Syntax 3"),
    (b"zz[12,0]", 3, b"Syntax 3"),
    (b"x[01,0]", 3, b"Syntax 3"),
    (b"x[0,12]", 3, b"Syntax 3"),
    (b"x[1.0,0]", 3, b"Syntax 3"),
    (b"x[y,0]", 3, b"Syntax 3"),
    (b"2x[1,0]", 3, b"Syntax 3"),
    (b"((((((((((((((((((((((((((((((((((x", 3, b"Syntax 3"),
    (b"---------------------------------1", 3, b"Syntax 3"),
];

/// Names that stand for nothing, and neighbours that are too far away.
const NAMES: Rows = &[
    (b"zz", 4, b"NameUnknown 4"),
    (b"X", 4, b"NameUnknown 4"),
    (b"x1", 4, b"NameUnknown 4"),
    (b"x_", 4, b"NameUnknown 4"),
    (b"call", 4, b"NameUnknown 4"),
    (b"a", 4, b"NameUnknown 4"),
    (b"ring_", 4, b"NameUnknown 4"),
    (b"ring_b", 4, b"NameUnknown 4"),
    (b"ring_x", 4, b"NameUnknown 4"),
    (b"abs", 4, b"NameUnknown 4"),
    (b"min", 4, b"NameUnknown 4"),
    (b"max", 4, b"NameUnknown 4"),
    (b"sel", 4, b"NameUnknown 4"),
    (
        b"a_name_that_is_a_good_deal_longer_than_thirty_two_bytes",
        4,
        b"NameUnknown 4",
    ),
    (b"zz[0,0]", 4, b"NameUnknown 4"),
    (b"i[0,0]", 4, b"NameUnknown 4"),
    (b"dt[1,0]", 4, b"NameUnknown 4"),
    (b"ring_a[0,0]", 4, b"NameUnknown 4"),
    (b"min[0,0]", 4, b"NameUnknown 4"),
    (b"zz[9,9]", 4, b"NameUnknown 4"),
    (b"x[3,0]", 4, b"FarNeighbour 4"),
    (b"x[-3,0]", 4, b"FarNeighbour 4"),
    (b"x[0,3]", 4, b"FarNeighbour 4"),
    (b"x[0,-3]", 4, b"FarNeighbour 4"),
    (b"x[9,9]", 4, b"FarNeighbour 4"),
    (b"flux[2,-9]", 0, b"FarNeighbour 0"),
];

#[test]
fn words_as_arguments(rt: HostRuntime) -> Result<(), Fail> {
    for rows in [NUMBERS, READS, FORMS, NAMES] {
        for (word, at, wanted) in rows {
            let shown = shown_argument(rt.alloc(), *word, *at)?;
            assert_eq!(rt; shown.as_slice(), *wanted, "at {word:?}");
        }
    }
    Ok(())
}
