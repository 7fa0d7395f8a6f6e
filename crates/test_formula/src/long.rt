//! Long texts, each of which is answered at once.

use crate::reading::{built, outcome};
use cpl_formula::FormulaFault::{self, BadNumber, DeepFormula, NameUnknown, Syntax};
use std::test::Fail;

/// Texts, each by its pieces and how often each of them stands in a row, with the value where all that is
/// read is 1, or with the fault.
type Rows = &'static [(&'static [(&'static [u8], usize)], Result<i64, FormulaFault>)];

/// A million terms, brackets, minus signs, blanks, letters and digits, and more.
const LONG: Rows = &[
    (&[(b"x", 1), (b"+x", 999_999)], Err(DeepFormula)),
    (
        &[(b"x", 1), (b"+x", 999_999), (b"+z", 1)],
        Err(NameUnknown { at: 2_000_000 }),
    ),
    (&[(b"x*", 100_000)], Err(Syntax { at: 200_000 })),
    (&[(b"-x", 100_000)], Err(DeepFormula)),
    (&[(b"(", 1_000_000)], Err(DeepFormula)),
    (&[(b"abs(", 1_000_000)], Err(DeepFormula)),
    (&[(b"-", 1_000_000)], Err(DeepFormula)),
    (&[(b")", 1_000_000)], Err(Syntax { at: 0 })),
    (&[(b"()", 1_000_000)], Err(Syntax { at: 1 })),
    (&[(b"(x)", 1), (b"+(x)", 199_999)], Err(DeepFormula)),
    (&[(b"(x)+", 100_000)], Err(Syntax { at: 400_000 })),
    (&[(b"x[1,0]+", 100_000)], Err(Syntax { at: 700_000 })),
    (&[(b" ", 4_194_304)], Err(Syntax { at: 4_194_304 })),
    (
        &[(b" ", 4_194_304), (b"x", 1), (b"\t", 4_194_304)],
        Ok(1_000_000),
    ),
    (
        &[(b"i", 1), (b" ", 4_194_304), (b"[0,0]", 1)],
        Err(NameUnknown { at: 0 }),
    ),
    (
        &[(b"i", 1), (b" ", 4_194_304), (b"]", 1)],
        Err(Syntax { at: 4_194_305 }),
    ),
    (&[(b"n", 1_000_000)], Err(NameUnknown { at: 0 })),
    (&[(b"x+", 1), (b"x", 1_000_000)], Err(NameUnknown { at: 2 })),
    (&[(b"i ", 1_000_000)], Err(Syntax { at: 2 })),
    (&[(b"0", 1_000_000), (b"7", 1)], Ok(7_000_000)),
    (&[(b"1", 1_000_000)], Err(BadNumber { at: 0 })),
    (&[(b"0.", 1), (b"0", 1_000_000)], Err(BadNumber { at: 0 })),
    (&[(b"1.", 1_000_000)], Err(Syntax { at: 3 })),
];

#[test]
fn long_texts(rt: HostRuntime) -> Result<(), Fail> {
    for (pieces, wanted) in LONG {
        let text = built(rt.alloc(), *pieces)?;
        let found = outcome(rt.alloc(), text.as_slice());
        assert_eq!(rt; found, *wanted, "at {pieces:?}");
    }
    Ok(())
}
