//! Texts at the ends of what is allowed, and past them: how deep they are, and how many brackets are open
//! and minus signs in a row.

use crate::reading::{built, outcome};
use cpl_formula::FormulaFault::{self, BadNumber, DeepFormula, FarNeighbour, NameUnknown, Syntax};
use std::test::Fail;

/// Texts, each by its pieces and how often each of them stands in a row, with the value in millionths where
/// all that is read is 1, or with the fault.
type Rows = &'static [(&'static [(&'static [u8], usize)], Result<i64, FormulaFault>)];

/// A depth of 32, and of 33, by each construct.
const DEPTHS: Rows = &[
    (&[(b"x", 1), (b"+x", 31)], Ok(32_000_000)),
    (&[(b"x", 1), (b"+x", 32)], Err(DeepFormula)),
    (&[(b"x", 1), (b" - x", 31)], Ok(-30_000_000)),
    (&[(b"x", 1), (b" - x", 32)], Err(DeepFormula)),
    (&[(b"2", 1), (b"*x", 31)], Ok(2_000_000)),
    (&[(b"2", 1), (b"*x", 32)], Err(DeepFormula)),
    (&[(b"2", 1), (b"/x", 31)], Ok(2_000_000)),
    (&[(b"2", 1), (b"/x", 32)], Err(DeepFormula)),
    (&[(b"x[1,0]", 1), (b"+x[0,1]", 31)], Ok(32_000_000)),
    (&[(b"x[1,0]", 1), (b"+x[0,1]", 32)], Err(DeepFormula)),
    (&[(b"x*x", 1), (b"+x*x", 30)], Ok(31_000_000)),
    (&[(b"x*x", 1), (b"+x*x", 31)], Err(DeepFormula)),
    (&[(b"x+(", 15), (b"-x", 1), (b")", 15)], Ok(14_000_000)),
    (&[(b"x+(", 15), (b"--x", 1), (b")", 15)], Err(DeepFormula)),
    (&[(b"(", 31), (b"7", 1), (b")", 31)], Ok(7_000_000)),
    (&[(b"(", 32), (b"7", 1), (b")", 32)], Err(DeepFormula)),
    (&[(b"(", 33), (b"7", 1), (b")", 33)], Err(DeepFormula)),
    (&[(b"-", 31), (b"x", 1)], Ok(-1_000_000)),
    (&[(b"-", 32), (b"x", 1)], Err(DeepFormula)),
    (&[(b"-", 33), (b"x", 1)], Err(DeepFormula)),
    (&[(b"x", 1), (b"-", 31), (b"x", 1)], Ok(0)),
    (&[(b"x", 1), (b"-", 32), (b"x", 1)], Err(DeepFormula)),
];

/// The same by functions, whose brackets add nothing of their own.
const FUNCTIONS: Rows = &[
    (&[(b"abs(", 31), (b"-7", 1), (b")", 31)], Err(DeepFormula)),
    (&[(b"abs(", 30), (b"-7", 1), (b")", 30)], Ok(7_000_000)),
    (&[(b"abs(", 31), (b"7", 1), (b")", 31)], Ok(7_000_000)),
    (&[(b"abs(", 32), (b"7", 1), (b")", 32)], Err(DeepFormula)),
    (&[(b"min(2,", 31), (b"x", 1), (b")", 31)], Ok(1_000_000)),
    (&[(b"min(2,", 32), (b"x", 1), (b")", 32)], Err(DeepFormula)),
    (&[(b"min(", 31), (b"x", 1), (b",2)", 31)], Ok(1_000_000)),
    (&[(b"min(", 32), (b"x", 1), (b",2)", 32)], Err(DeepFormula)),
    (&[(b"max(0,", 31), (b"x", 1), (b")", 31)], Ok(1_000_000)),
    (&[(b"max(0,", 32), (b"x", 1), (b")", 32)], Err(DeepFormula)),
    (&[(b"max(", 31), (b"x", 1), (b",2)", 31)], Ok(2_000_000)),
    (&[(b"max(", 32), (b"x", 1), (b",2)", 32)], Err(DeepFormula)),
    (&[(b"sel(", 31), (b"x", 1), (b",3,2)", 31)], Ok(3_000_000)),
    (
        &[(b"sel(", 32), (b"x", 1), (b",3,2)", 32)],
        Err(DeepFormula),
    ),
    (&[(b"sel(1,", 31), (b"x", 1), (b",2)", 31)], Ok(1_000_000)),
    (
        &[(b"sel(1,", 32), (b"x", 1), (b",2)", 32)],
        Err(DeepFormula),
    ),
    (&[(b"sel(0,2,", 31), (b"x", 1), (b")", 31)], Ok(1_000_000)),
    (
        &[(b"sel(0,2,", 32), (b"x", 1), (b")", 32)],
        Err(DeepFormula),
    ),
    (&[(b"abs((", 15), (b"-x", 1), (b"))", 15)], Ok(1_000_000)),
    (
        &[(b"abs((", 15), (b"--x", 1), (b"))", 15)],
        Err(DeepFormula),
    ),
    (&[(b"min(x", 1), (b"+x", 30), (b",7)", 1)], Ok(7_000_000)),
    (&[(b"min(x", 1), (b"+x", 31), (b",7)", 1)], Err(DeepFormula)),
    (&[(b"max(0,x", 1), (b"+x", 30), (b")", 1)], Ok(31_000_000)),
    (&[(b"max(0,x", 1), (b"+x", 31), (b")", 1)], Err(DeepFormula)),
];

/// More than 32 brackets open come before any other fault; 32 don't.
const OPEN: Rows = &[
    (&[(b"(", 33)], Err(DeepFormula)),
    (&[(b"(", 32)], Err(Syntax { at: 32 })),
    (&[(b"( ", 33)], Err(DeepFormula)),
    (&[(b"(", 33), (b"$", 1)], Err(DeepFormula)),
    (&[(b"(", 32), (b"$", 1)], Err(Syntax { at: 32 })),
    (&[(b"(", 32), (b"z", 1)], Err(NameUnknown { at: 32 })),
    (&[(b"(", 32), (b"1.0000001", 1)], Err(BadNumber { at: 32 })),
    (&[(b"(", 32), (b"x[3,0]", 1)], Err(FarNeighbour { at: 34 })),
    (&[(b"$", 1), (b"(", 33)], Err(DeepFormula)),
    (&[(b"$", 1), (b"(", 32)], Err(Syntax { at: 0 })),
    (&[(b"z", 1), (b"(", 33)], Err(DeepFormula)),
    (&[(b"z", 1), (b"(", 32)], Err(NameUnknown { at: 0 })),
    (&[(b"1.0000001", 1), (b"(", 33)], Err(DeepFormula)),
    (&[(b"1.0000001", 1), (b"(", 32)], Err(BadNumber { at: 0 })),
    (&[(b"x[3,0]", 1), (b"(", 33)], Err(DeepFormula)),
    (&[(b"x[3,0]", 1), (b"(", 32)], Err(FarNeighbour { at: 2 })),
    (&[(b"\n", 1), (b"(", 33)], Err(DeepFormula)),
    (&[(b")", 10), (b"(", 33)], Err(DeepFormula)),
    (&[(b")", 10), (b"(", 32)], Err(Syntax { at: 0 })),
    (&[(b")", 1), (b"(", 32)], Err(Syntax { at: 0 })),
    (&[(b"(", 1), (b")", 3), (b"(", 33)], Err(DeepFormula)),
    (&[(b"(", 1), (b")", 3), (b"(", 32)], Err(Syntax { at: 1 })),
    (&[(b"(", 20), (b")", 5), (b"(", 18)], Err(DeepFormula)),
    (&[(b"(", 20), (b")", 5), (b"(", 17)], Err(Syntax { at: 20 })),
    (
        &[(b"(", 32), (b")", 32), (b"(", 32)],
        Err(Syntax { at: 32 }),
    ),
    (&[(b"(x)+", 40), (b"$", 1)], Err(Syntax { at: 160 })),
    (&[(b"abs(", 33), (b"$", 1)], Err(DeepFormula)),
    (&[(b"abs(", 32), (b"$", 1)], Err(Syntax { at: 128 })),
    (&[(b"abs(", 16), (b"(", 17), (b"$", 1)], Err(DeepFormula)),
    (
        &[(b"abs(", 16), (b"(", 16), (b"$", 1)],
        Err(Syntax { at: 80 }),
    ),
];

/// So do more than 32 minus signs in a row, blanks between them or not.
const MINUSES: Rows = &[
    (&[(b"-", 33)], Err(DeepFormula)),
    (&[(b"-", 32)], Err(Syntax { at: 32 })),
    (&[(b"- ", 33), (b"x", 1)], Err(DeepFormula)),
    (&[(b"- \t", 33), (b"$", 1)], Err(DeepFormula)),
    (&[(b"- ", 32), (b"$", 1)], Err(Syntax { at: 64 })),
    (&[(b"-", 32), (b"z", 1)], Err(NameUnknown { at: 32 })),
    (&[(b"$", 1), (b"-", 33)], Err(DeepFormula)),
    (&[(b"$", 1), (b"-", 32)], Err(Syntax { at: 0 })),
    (&[(b"z ", 1), (b"- ", 33)], Err(DeepFormula)),
    (&[(b"z ", 1), (b"- ", 32)], Err(NameUnknown { at: 0 })),
    (&[(b"x", 1), (b"-", 33), (b"x", 1)], Err(DeepFormula)),
    (&[(b"x[", 1), (b"-", 33), (b"1,0]", 1)], Err(DeepFormula)),
    (
        &[(b"x[", 1), (b"-", 32), (b"1,0]", 1)],
        Err(Syntax { at: 3 }),
    ),
    (
        &[(b"-", 20), (b"x", 1), (b"-", 20), (b"x", 1)],
        Ok(2_000_000),
    ),
    (&[(b"-", 32), (b"(", 1), (b"-", 32)], Err(Syntax { at: 65 })),
    (
        &[(b"-", 32), (b"\n", 1), (b"-", 32)],
        Err(Syntax { at: 32 }),
    ),
    (
        &[(b"$", 1), (b"-", 32), (b"+", 1), (b"-", 32)],
        Err(Syntax { at: 0 }),
    ),
    (
        &[(b"$", 1), (b"-", 32), (b"\r", 1), (b"-", 32)],
        Err(Syntax { at: 0 }),
    ),
];

/// A text that is too deep and has another fault: the other one.
const BEHIND: Rows = &[
    (&[(b"x", 1), (b"+x", 32), (b"+", 1)], Err(Syntax { at: 66 })),
    (
        &[(b"x", 1), (b"+x", 40), (b" $", 1)],
        Err(Syntax { at: 82 }),
    ),
    (
        &[(b"x", 1), (b"+x", 40), (b" y", 1)],
        Err(Syntax { at: 82 }),
    ),
    (
        &[(b"x", 1), (b"+x", 40), (b"+z", 1)],
        Err(NameUnknown { at: 82 }),
    ),
    (
        &[(b"x", 1), (b"+x", 40), (b"+1.0000001", 1)],
        Err(BadNumber { at: 82 }),
    ),
    (
        &[(b"x", 1), (b"+x", 40), (b"+x[3,0]", 1)],
        Err(FarNeighbour { at: 84 }),
    ),
    (&[(b"-", 32), (b"x", 1), (b" y", 1)], Err(Syntax { at: 34 })),
    (&[(b"(", 32), (b"7", 1), (b")", 33)], Err(Syntax { at: 65 })),
    (&[(b"(", 32), (b"7", 1), (b")", 31)], Err(Syntax { at: 64 })),
    (
        &[(b"abs(", 32), (b"x", 1), (b")", 31)],
        Err(Syntax { at: 160 }),
    ),
    (&[(b"(x", 1), (b"*x", 40), (b"", 1)], Err(Syntax { at: 82 })),
];

#[test]
fn texts_at_the_ends_of_what_is_allowed(rt: HostRuntime) -> Result<(), Fail> {
    for rows in [DEPTHS, FUNCTIONS, OPEN, MINUSES, BEHIND] {
        for (pieces, wanted) in rows {
            let text = built(rt.alloc(), *pieces)?;
            let found = outcome(rt.alloc(), text.as_slice());
            assert_eq!(rt; found, *wanted, "at {pieces:?}");
        }
    }
    Ok(())
}
