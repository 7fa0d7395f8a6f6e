//! How long the parts that matter take, each beside a plain path.
//!
//! The first word of the command line is the measure (`values`, `prepared`, `formula`, `sequence`, `weights`, `rows`,
//! `routes`, `mediator`, `sweep`), the second how many thousands of rounds it makes; without words each measure makes one
//! thousand. Checksums go to standard output, times in nanoseconds to standard error.
#![tactic(auto)]

ghost use Rattle.std.specs.Prelude.{◌≡◌, All, length};
ghost use Rattle.cpl_base.specs.Numbers.{IsValue};

mod cells;
mod loops;
mod mediator;
mod passes;
mod products;
mod routes;
mod sweeps;
mod table;
mod weights;

use cells::{formula_sum, plain_sum, tree};
use cpl_base::Divisor;
use cpl_mediator::Accum;
use cpl_runseq::Cursor;
use loops::sequence;
use mediator::{above, add, averages, plain_add, plain_averages};
use passes::{next_sum, op_sum};
use products::{
    plain_products, plain_quotients, prepared_quotients, products, quotients, quotients_by,
};
use routes::{divided, halo_sum, redist_sum, written_sum};
use std::alloc::Global;
use std::rt::{Clock, Env};
use std::time::{Duration, Instant};
use std::{env, io};
use sweeps::{Room, demo_block, plain_time, sweep_time};
use table::table;
use weights::{plain_pass, plain_rows, read_sum, rows_sum, text, weights};

/// A hundred units.
const HUNDRED: i64 = 100_000_000;

/// The word at a place of the command line, if there is one.
fn word(rt: &(impl Env + AllocGlobal), place: usize) -> io::Result<Option<String>> {
    Ok(env::args(rt)?.nth(place))
}

/// Whether a measure is asked for: by its name, or by no word.
fn is_asked(asked: &Option<String>, name: &str) -> bool {
    match asked {
        Some(word) => word.as_str() == name,
        None => true,
    }
}

/// Prints what was summed, and how long that took.
fn report(
    rt: &(impl Clock + Print + Eprint),
    name: &str,
    start: Instant,
    sum: i64,
) -> io::Result<()> {
    let nanos = start.elapsed(rt)?.as_nanos();
    println!(rt; "{name} {sum}")?;
    eprintln!(rt; "{name} {nanos}")
}

/// Products and quotients of neighbours in the table.
fn measure_values(rt: &(impl Clock + Print + Eprint), values: &[i64], rounds: u64) -> io::Result<()>
    requires { All IsValue values.now }
{
    let start = Instant::now(rt)?;
    report(rt, "products", start, products(values, rounds))?;
    let start = Instant::now(rt)?;
    report(rt, "plain_products", start, plain_products(values, rounds))?;
    let start = Instant::now(rt)?;
    report(rt, "quotients", start, quotients(values, rounds))?;
    let start = Instant::now(rt)?;
    report(
        rt,
        "plain_quotients",
        start,
        plain_quotients(values, rounds),
    )
}

/// Quotients by one divisor, prepared and not.
fn measure_prepared(
    rt: &(impl Clock + Print + Eprint),
    values: &[i64],
    rounds: u64,
) -> io::Result<()>
    requires { All IsValue values.now }
{
    let Some(divisor) = Divisor::new(HUNDRED) else {
        return eprintln!(rt; "the divisor isn't prepared");
    };
    let start = Instant::now(rt)?;
    report(
        rt,
        "prepared",
        start,
        prepared_quotients(values, rounds, divisor),
    )?;
    let start = Instant::now(rt)?;
    report(rt, "by_div", start, quotients_by(values, rounds, HUNDRED))
}

/// The value of a formula at many cells.
fn measure_formula(
    rt: &(impl Clock + Print + Eprint),
    alloc: Global,
    values: &[i64],
    rounds: u64,
) -> io::Result<()>
    requires values { All IsValue values.now }
    requires count { length values.now ≡ 1029 }
{
    let cells = rounds.saturating_mul(1_000);
    let Some(tree) = tree(alloc) else {
        return eprintln!(rt; "the formula isn't read");
    };
    let start = Instant::now(rt)?;
    report(rt, "formula", start, formula_sum(&tree, values, cells))?;
    let start = Instant::now(rt)?;
    report(rt, "plain_formula", start, plain_sum(values, cells))
}

/// Passes over the operations of a run sequence of so many thousands of top loops.
fn measure_sequence(
    rt: &(impl Clock + Print + Eprint),
    alloc: Global,
    rounds: u64,
) -> io::Result<()> {
    let Ok(sequence) = sequence(alloc, rounds.saturating_mul(1_000)) else {
        return eprintln!(rt; "the sequence isn't read");
    };
    let Ok(mut cursor) = Cursor::start(alloc, &sequence) else {
        return eprintln!(rt; "out of memory");
    };
    let start = Instant::now(rt)?;
    report(rt, "next", start, next_sum(&mut cursor, &sequence))?;
    let start = Instant::now(rt)?;
    report(rt, "op", start, op_sum(&sequence))
}

/// A file of weights with so many times 1,024 records, read, and gone over once.
fn measure_weights(
    rt: &(impl Clock + Print + Eprint),
    alloc: Global,
    rounds: u64,
) -> io::Result<()> {
    let rounds = rounds.clamp(1, 4_096);
    let Ok(file) = text(alloc, rounds, 4) else {
        return eprintln!(rt; "out of memory");
    };
    let cells = rounds as u32 * 256;
    let start = Instant::now(rt)?;
    report(rt, "plain_pass", start, plain_pass(file.as_slice()))?;
    let start = Instant::now(rt)?;
    report(
        rt,
        "read_weights",
        start,
        read_sum(alloc, file.as_slice(), cells),
    )
}

/// Weighted sums of so many thousands of rows, of four factors and of sixteen.
fn measure_rows(
    rt: &(impl Clock + Print + Eprint),
    alloc: Global,
    values: &[i64],
    rounds: u64,
) -> io::Result<()>
    requires values { All IsValue values.now }
    requires count { length values.now ≡ 1029 }
{
    let (Ok(four), Ok(sixteen)) = (weights(alloc, 4), weights(alloc, 16)) else {
        return eprintln!(rt; "the weights aren't read");
    };
    let rows = rounds.saturating_mul(1_000);
    let start = Instant::now(rt)?;
    report(rt, "rows_of_4", start, rows_sum(&four, values, rows))?;
    let start = Instant::now(rt)?;
    report(
        rt,
        "plain_rows_of_4",
        start,
        plain_rows(&four, values, rows),
    )?;
    let start = Instant::now(rt)?;
    report(rt, "rows_of_16", start, rows_sum(&sixteen, values, rows))?;
    let start = Instant::now(rt)?;
    report(
        rt,
        "plain_rows_of_16",
        start,
        plain_rows(&sixteen, values, rows),
    )
}

/// Routes of 1,024 by 1,024 cells, and passes that write as many numbers: one redistribution onto other blocks and one
/// onto columns for each 250 thousands of rounds, and a halo for each ten.
fn measure_routes(
    rt: &(impl Clock + Print + Eprint),
    alloc: Global,
    rounds: u64,
) -> io::Result<()> {
    let (Ok(blocks), Ok(columns), Ok(rows)) = (divided(8, 8), divided(64, 1), divided(1, 64)) else {
        return eprintln!(rt; "the grid isn't divided");
    };
    let (few, many) = (rounds / 250 + 1, rounds / 10 + 1);
    let start = Instant::now(rt)?;
    let sum = written_sum(alloc, 1 << 20, few).unwrap_or(-1);
    report(rt, "written", start, sum)?;
    let start = Instant::now(rt)?;
    let sum = redist_sum(alloc, &blocks, &columns, few).unwrap_or(-1);
    report(rt, "onto_columns", start, sum)?;
    let start = Instant::now(rt)?;
    let sum = redist_sum(alloc, &blocks, &rows, few).unwrap_or(-1);
    report(rt, "onto_rows", start, sum)?;
    let start = Instant::now(rt)?;
    let sum = written_sum(alloc, 28_672, many).unwrap_or(-1);
    report(rt, "written_halo", start, sum)?;
    let start = Instant::now(rt)?;
    report(
        rt,
        "halo",
        start,
        halo_sum(alloc, &blocks, many).unwrap_or(-1),
    )?;
    let start = Instant::now(rt)?;
    let sum = written_sum(alloc, 129_024, many).unwrap_or(-1);
    report(rt, "written_halo_of_columns", start, sum)?;
    let start = Instant::now(rt)?;
    let sum = halo_sum(alloc, &columns, many).unwrap_or(-1);
    report(rt, "halo_of_columns", start, sum)
}

/// Values of a formula over a block of 126 by 47 cells: a pass over all of them for each six thousands of rounds.
fn measure_sweep(
    rt: &(impl Clock + Print + Eprint),
    alloc: Global,
    values: &[i64],
    rounds: u64,
) -> io::Result<()>
    requires { length values.now ≡ 1029 }
{
    let block = demo_block(rounds);
    let Some(tree) = tree(alloc) else {
        return eprintln!(rt; "the formula isn't read");
    };
    let Ok(mut room) = Room::new(alloc, &block, &tree, values) else {
        return eprintln!(rt; "out of memory");
    };
    let time = plain_time(rt, &block, &mut room, rounds / 6 + 1)?;
    report_time(rt, "plain_sweep", time, room.sum(&block))?;
    let time = sweep_time(rt, &block, &tree, &mut room, rounds / 6 + 1)?;
    report_time(rt, "sweep", time, room.sum(&block))
}

/// Prints a sum that was made in so much time.
fn report_time(rt: &(impl Print + Eprint), name: &str, time: Duration, sum: i64) -> io::Result<()> {
    println!(rt; "{name} {sum}")?;
    eprintln!(rt; "{name} {}", time.as_nanos())
}

/// Fields that are kept, and their averages.
fn measure_mediator(
    rt: &(impl Clock + Print + Eprint),
    alloc: Global,
    values: &[i64],
    rounds: u64,
) -> io::Result<()>
    requires { length values.now ≡ 1029 }
{
    let (Ok(mut accum), Ok(mut sums), Ok(mut into)) = (
        Accum::new(alloc, 1029),
        Vec::from_elem(alloc, 0i128, 1029),
        Vec::from_elem(alloc, 0i64, 1029),
    ) else {
        return eprintln!(rt; "out of memory");
    };
    let start = Instant::now(rt)?;
    add(&mut accum, values, rounds);
    let time = start.elapsed(rt)?;
    let start = Instant::now(rt)?;
    plain_add(sums.as_mut_slice(), values, rounds);
    report(rt, "plain_adds", start, above(values))?;
    let _ = accum.average(into.as_mut_slice());
    report_time(rt, "adds", time, above(into.as_slice()))?;
    // Not known when the program is built, so that no division by it becomes a product.
    let count = 3 + rounds % 2;
    let time = averages(rt, &mut accum, values, into.as_mut_slice(), count, rounds)?;
    report_time(rt, "averages", time, above(into.as_slice()))?;
    let time = plain_averages(rt, values, into.as_mut_slice(), count as i64, rounds)?;
    report_time(rt, "plain_averages", time, above(into.as_slice()))
}

fn main(rt: HostRuntime) -> io::Result<()> {
    let asked = word(&rt, 1)?;
    let rounds = word(&rt, 2)?
        .and_then(|word| word.as_str().parse::<u64>().ok())
        .unwrap_or(1);
    let values = table(rt.alloc())?;
    if is_asked(&asked, "values") {
        measure_values(&rt, values.as_slice(), rounds)?;
    }
    if is_asked(&asked, "prepared") {
        measure_prepared(&rt, values.as_slice(), rounds)?;
    }
    if is_asked(&asked, "formula") {
        measure_formula(&rt, rt.alloc(), values.as_slice(), rounds)?;
    }
    if is_asked(&asked, "sequence") {
        measure_sequence(&rt, rt.alloc(), rounds)?;
    }
    if is_asked(&asked, "weights") {
        measure_weights(&rt, rt.alloc(), rounds)?;
    }
    if is_asked(&asked, "rows") {
        measure_rows(&rt, rt.alloc(), values.as_slice(), rounds)?;
    }
    if is_asked(&asked, "routes") {
        measure_routes(&rt, rt.alloc(), rounds)?;
    }
    if is_asked(&asked, "mediator") {
        measure_mediator(&rt, rt.alloc(), values.as_slice(), rounds)?;
    }
    if is_asked(&asked, "sweep") {
        measure_sweep(&rt, rt.alloc(), values.as_slice(), rounds)?;
    }
    Ok(())
}
