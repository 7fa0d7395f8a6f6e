//! The texts of seeds, by their digests and the lines that have numbers.

use cpl_gen::{config_examples, make_config};
use sha2::{Digest, Sha256};
use std::process::Abort;
use std::test::Fail;

/// A seed, the length and the SHA-256 digest of its text, the size of its grid, its diffusion and its duration.
type Case = (
    u64,
    usize,
    &'static str,
    &'static [u8],
    &'static [u8],
    &'static [u8],
);

/// Seeds with their texts, which another program wrote: the first, the second, one with the fewest columns, rows and
/// hours, and the last.
const CASES: [Case; 4] = [
    (
        0,
        1379,
        "ce2d1f5bfc05a11d967252e99d1cc62e2c0e2099e1c1b8fb0601e2e510465024",
        b"126 47 periodic",
        b"2",
        b"129600",
    ),
    (
        1,
        1375,
        "6814daef4ad5ddf98b5102ac1217c98bdbb348efee6f4cdcafcb5ff5cab97df6",
        b"93 59 periodic",
        b"4",
        b"162000",
    ),
    (
        1_012_729,
        1374,
        "254530da34349490b67f2523761d376d8fe12774ffe913d91567cbb223292973",
        b"66 32 periodic",
        b"6",
        b"86400",
    ),
    (
        u64::MAX,
        1374,
        "ba474b1228a2b357cf5ef5c67a56611488de4feda255cbafc3488ac396ad7ba9",
        b"92 37 periodic",
        b"9",
        b"93600",
    ),
];

/// The lines that have the size of the grid, and how they begin.
const GRIDS: [(usize, &[u8]); 4] = [
    (10, b"MED_grid: "),
    (36, b"ATM_grid: "),
    (48, b"OCN_grid: "),
    (59, b"LND_grid: "),
];

/// How the line ends that has the diffusion.
const FLUX: &[u8] = b" * (flux[1,0] + flux[-1,0] + flux[0,1] + flux[0,-1] - 4 * flux) - temp / 100";

/// Asserts that a line of a text, counted from 1, is these three pieces.
fn expect_line(
    rt: &impl Abort,
    text: &[u8],
    number: usize,
    begin: &[u8],
    middle: &[u8],
    end: &[u8],
) {
    let line = text
        .split(|byte| *byte == b'\n')
        .nth(number.saturating_sub(1));
    let between = line
        .and_then(|line| line.strip_prefix(begin))
        .and_then(|rest| rest.strip_suffix(end));
    assert_eq!(rt; between, Some(middle));
}

/// Texts of seeds.
#[test]
fn texts_of_seeds(rt: HostRuntime) -> Result<(), Fail> {
    config_examples();
    let alloc = rt.alloc();
    for (seed, length, digest, grid, diffusion, duration) in CASES {
        let made = make_config(alloc, seed)?;
        let text = made.as_slice();
        assert_eq!(rt; text.len(), length);
        let found = hex::encode(alloc, &Sha256::digest(text))?;
        assert_eq!(rt; found.as_str(), digest);
        for (number, begin) in GRIDS {
            expect_line(&rt, text, number, begin, grid, b"");
        }
        expect_line(&rt, text, 45, b"flux = flux + 0.0", diffusion, FLUX);
        expect_line(&rt, text, 71, b"@3600:", duration, b"");
    }
    Ok(())
}
