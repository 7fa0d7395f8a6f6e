//! Sums and averages of kept fields, by the calls under test and by plain loops.

ghost use Rattle.std.specs.Prelude.{◌≡◌, ◌≤◌, ◌<◌, length};

use cpl_mediator::Accum;
use std::io;
use std::rt::Clock;
use std::time::{Duration, Instant};

/// So many fields an `Accum` takes.
const ROOM: u32 = 16_777_216;

/// Adds the values so often.
pub fn add(accum: &mut Accum, values: &[i64], rounds: u64)
    requires { length values.now ≡ length accum.old.sums }
    ensures { length accum.new.sums ≡ length accum.old.sums }
{
    for _ in 0..rounds {
        if accum.count() < ROOM {
            accum.add(values);
        }
    }
}

/// The same by a loop that adds numbers of 64 bits to numbers of 128.
pub fn plain_add(sums: &mut [i128], values: &[i64], rounds: u64)
    requires { length values.now ≡ length sums.old }
{
    for _ in 0..rounds {
        for i in 0..values.len() {
            sums[i] = sums[i].wrapping_add(i128::from(values[i]));
        }
    }
}

/// How long so many averages take, of so many kept fields each.
pub fn averages(
    rt: &impl Clock,
    accum: &mut Accum,
    values: &[i64],
    into: &mut [i64],
    count: u64,
    rounds: u64,
) -> io::Result<Duration>
    requires values { length values.now ≡ length accum.old.sums }
    requires into { length into.old ≡ length accum.old.sums }
{
    let mut time = Duration::ZERO;
    for _ in 0..rounds {
        add(accum, values, count);
        let start = Instant::now(rt)?;
        let _ = accum.average(into);
        time = time.saturating_add(start.elapsed(rt)?);
    }
    Ok(time)
}

/// How long a loop takes so often that divides each value.
pub fn plain_averages(
    rt: &impl Clock,
    values: &[i64],
    into: &mut [i64],
    divisor: i64,
    rounds: u64,
) -> io::Result<Duration>
    requires into { length into.old ≡ length values.now }
{
    let mut time = Duration::ZERO;
    for _ in 0..rounds {
        let start = Instant::now(rt)?;
        plain_quotients(values, into, divisor);
        time = time.saturating_add(start.elapsed(rt)?);
    }
    Ok(time)
}

/// One division of 64 bits a cell.
#[inline(never)]
fn plain_quotients(values: &[i64], into: &mut [i64], divisor: i64)
    requires { length into.old ≡ length values.now }
{
    if divisor > 0 {
        for i in 0..values.len() {
            into[i] = values[i] / divisor;
        }
    }
}

/// How many numbers are above 0.
pub fn above(numbers: &[i64]) -> i64 {
    numbers.iter().filter(|number| **number > 0).count() as i64
}
