//! One model on one cell: statuses and bytes of whole commands.

use cpl_base::{MemShelf, MemSink, Memory};
use cpl_driver::{Status, couple_solo};
use std::alloc::Global;
use std::test::Fail;

/// The file of the first worked example.
const COUNTING: &[u8] =
    b"EARTH_component_list: A\nA_grid: 1 1\nA_vars::\nx = 0\n::\nA_phase_run::\nx = x + 1\n::\nrunSeq::\n@1:3\nA\n@\n::\n";

const COUNTED: &[u8] =
    b"operations 4\ncomponent A runs 3 clock 3\nvar x min 3.000000 max 3.000000 sum 3.000000\nend ok\n";

const USAGE: &[u8] =
    b"usage: esmcouple run CONF [--workers N] [--trace] | serial CONF [--trace] | check CONF | plan CONF | demo SEED [--workers N]\n";

const NOT_YET_BUILT: &[u8] = b"refused 62 NotYetBuilt 1\n";

/// What a command left: its status, and the bytes of standard output and standard error.
#[derive(Drop)]
struct Left {
    status: Status,
    out: Vec<u8>,
    err: Vec<u8>,
}

/// Runs words over a shelf, with room for so many bytes on each stream.
fn command(
    alloc: Global,
    shelf: &mut MemShelf,
    words: &[&str],
    out_room: usize,
    err_room: usize,
) -> Result<Left, Memory> {
    let mut owned = Vec::new(alloc);
    for word in words {
        owned.push(String::from_str(alloc, word)?)?;
    }
    let mut out = MemSink::new(alloc, out_room)?;
    let mut err = MemSink::new(alloc, err_room)?;
    let status = couple_solo(alloc, owned.as_slice(), shelf, &mut out, &mut err);
    Ok(Left {
        status,
        out: Vec::from_slice(alloc, out.bytes())?,
        err: Vec::from_slice(alloc, err.bytes())?,
    })
}

/// Runs a file as `run f`, with ample room.
fn run_file(alloc: Global, file: &[u8]) -> Result<Left, Memory> {
    let mut shelf = MemShelf::new(alloc);
    shelf.add("f", file)?;
    command(alloc, &mut shelf, &["run", "f"], 4096, 4096)
}

#[test]
fn reports_of_runs(rt: HostRuntime) -> Result<(), Fail> {
    let accepted: [(&[u8], &[u8]); 6] = [
        (COUNTING, COUNTED),
        // Blank lines count for nothing, and the first value may stand right behind its colon.
        (
            b"\n  EARTH_component_list:A\n\nA_grid:1   1\n A_vars::\n  x   =   0\n::\nA_phase_run::\nx = x+1\n::\nrunSeq::\n  @1:3\n    A\n  @\n::",
            COUNTED,
        ),
        // Values are millionths; a run's clock is the sum of its steps.
        (
            b"EARTH_component_list: Sea\nSea_grid: 1 1\nSea_vars::\nheat = 0.5\n::\nSea_phase_run::\nheat = heat + heat + 0.25\n::\nrunSeq::\n@900:1800\nSea\n@\n::\n",
            b"operations 3\ncomponent Sea runs 2 clock 1800\nvar heat min 2.750000 max 2.750000 sum 2.750000\nend ok\n",
        ),
        // Sums are clipped to a thousand million units.
        (
            b"EARTH_component_list: A\nA_grid: 1 1\nA_vars::\nx = 999999999.999999\n::\nA_phase_run::\nx = x + 5\n::\nrunSeq::\n@1:1\nA\n@\n::\n",
            b"operations 2\ncomponent A runs 1 clock 1\nvar x min 1000000000.000000 max 1000000000.000000 sum 1000000000.000000\nend ok\n",
        ),
        // A rule without reads.
        (
            b"EARTH_component_list: A\nA_grid: 1 1\nA_vars::\nx = 7\n::\nA_phase_run::\nx = 1.000001 + 2\n::\nrunSeq::\n@5:10\nA\n@\n::\n",
            b"operations 3\ncomponent A runs 2 clock 10\nvar x min 3.000001 max 3.000001 sum 3.000001\nend ok\n",
        ),
        // The longest step, and a number word with leading zeros.
        (
            b"EARTH_component_list: A\nA_grid: 1 1\nA_vars::\nx = 1\n::\nA_phase_run::\nx = x + x\n::\nrunSeq::\n@01000000000:3000000000\nA\n@\n::\n",
            b"operations 4\ncomponent A runs 3 clock 3000000000\nvar x min 8.000000 max 8.000000 sum 8.000000\nend ok\n",
        ),
    ];
    for (file, report) in accepted {
        let left = run_file(rt.alloc(), file).ok().ok_or("memory")?;
        assert_eq!(rt; left.status, Status::Ok);
        assert_eq!(rt; left.out.as_slice(), report);
        assert_eq!(rt; left.err.len(), 0);
    }
    Ok(())
}

#[test]
fn other_forms_are_not_yet_built(rt: HostRuntime) -> Result<(), Fail> {
    let refused: [&[u8]; 14] = [
        b"",
        b"EARTH_component_list: A\nA_grid: 2 1\nA_vars::\nx = 0\n::\nA_phase_run::\nx = x + 1\n::\nrunSeq::\n@1:3\nA\n@\n::\n",
        b"EARTH_component_list: A\nA_grid: 1 1\nA_vars::\nx = 0\n::\nA_phase_run::\nx = x + 1\n::\nrunSeq::\n@1:3\nA\n@\n",
        b"EARTH_component_list: A B\nA_grid: 1 1\nA_vars::\nx = 0\n::\nA_phase_run::\nx = x + 1\n::\nrunSeq::\n@1:3\nA\n@\n::\n",
        b"EARTH_component_list: A\nB_grid: 1 1\nA_vars::\nx = 0\n::\nA_phase_run::\nx = x + 1\n::\nrunSeq::\n@1:3\nA\n@\n::\n",
        b"EARTH_component_list: A\nA_grid: 1 1\nA_vars::\ni = 0\n::\nA_phase_run::\ni = i + 1\n::\nrunSeq::\n@1:3\nA\n@\n::\n",
        b"EARTH_component_list: A\nA_grid: 1 1\nA_vars::\nring_x = 0\n::\nA_phase_run::\nring_x = 1\n::\nrunSeq::\n@1:3\nA\n@\n::\n",
        b"EARTH_component_list: A\nA_grid: 1 1\nA_vars::\nx = -1\n::\nA_phase_run::\nx = x + 1\n::\nrunSeq::\n@1:3\nA\n@\n::\n",
        b"EARTH_component_list: A\nA_grid: 1 1\nA_vars::\nx = 0\n::\nA_phase_run::\ny = x + 1\n::\nrunSeq::\n@1:3\nA\n@\n::\n",
        b"EARTH_component_list: A\nA_grid: 1 1\nA_vars::\nx = 0\n::\nA_phase_run::\nx = x * 1\n::\nrunSeq::\n@1:3\nA\n@\n::\n",
        b"EARTH_component_list: A\nA_grid: 1 1\nA_vars::\nx = 0\n::\nA_phase_run::\nx = x + 1\n::\nrunSeq::\n@2:3\nA\n@\n::\n",
        b"EARTH_component_list: A\nA_grid: 1 1\nA_vars::\nx = 0\n::\nA_phase_run::\nx = x + 1\n::\nrunSeq::\n@1:16777216\nA\n@\n::\n",
        b"EARTH_component_list: A # one\nA_grid: 1 1\nA_vars::\nx = 0\n::\nA_phase_run::\nx = x + 1\n::\nrunSeq::\n@1:3\nA\n@\n::\n",
        b"EARTH_component_list: A\nA_grid: 1 1\r\nA_vars::\nx = 0\n::\nA_phase_run::\nx = x + 1\n::\nrunSeq::\n@1:3\nA\n@\n::\n",
    ];
    for file in refused {
        let left = run_file(rt.alloc(), file).ok().ok_or("memory")?;
        assert_eq!(rt; left.status, Status::Refused);
        assert_eq!(rt; left.out.len(), 0);
        assert_eq!(rt; left.err.as_slice(), NOT_YET_BUILT);
    }
    Ok(())
}

#[test]
fn wrong_words_give_the_usage_line(rt: HostRuntime) -> Result<(), Fail> {
    let wrong: [&[&str]; 8] = [
        &[],
        &["run"],
        &["run", ""],
        &["run", "-f"],
        &["run", "f", "f"],
        &["serial", "f"],
        &["Run", "f"],
        &["f"],
    ];
    for words in wrong {
        let mut shelf = MemShelf::new(rt.alloc());
        shelf.add("f", COUNTING).ok().ok_or("memory")?;
        let left = command(rt.alloc(), &mut shelf, words, 4096, 4096)
            .ok()
            .ok_or("memory")?;
        assert_eq!(rt; left.status, Status::Usage);
        assert_eq!(rt; left.out.len(), 0);
        assert_eq!(rt; left.err.as_slice(), USAGE);
    }
    Ok(())
}

#[test]
fn files_that_are_too_long_or_not_there(rt: HostRuntime) -> Result<(), Fail> {
    let alloc = rt.alloc();
    // A file of exactly 4 MiB is read; it holds blanks alone, which is another form.
    let mut blanks = vec![in alloc; b' '; 4_194_304]?;
    let left = run_file(alloc, blanks.as_slice()).ok().ok_or("memory")?;
    assert_eq!(rt; left.status, Status::Refused);
    assert_eq!(rt; left.err.as_slice(), NOT_YET_BUILT);
    blanks.push(b' ')?;
    let left = run_file(alloc, blanks.as_slice()).ok().ok_or("memory")?;
    assert_eq!(rt; left.status, Status::Refused);
    assert_eq!(rt; left.err.as_slice(), b"refused 1 TooLong f\n".as_slice());

    // A name that isn't there, and a load that fails.
    let mut shelf = MemShelf::new(alloc);
    shelf.add("f", COUNTING).ok().ok_or("memory")?;
    let left = command(alloc, &mut shelf, &["run", "g"], 4096, 4096)
        .ok()
        .ok_or("memory")?;
    assert_eq!(rt; left.status, Status::ReadFault);
    assert_eq!(rt; left.err.as_slice(), b"read fault g\n".as_slice());
    shelf.fail_on(1);
    let left = command(alloc, &mut shelf, &["run", "f"], 4096, 4096)
        .ok()
        .ok_or("memory")?;
    assert_eq!(rt; left.status, Status::ReadFault);
    assert_eq!(rt; left.out.len(), 0);
    assert_eq!(rt; left.err.as_slice(), b"read fault f\n".as_slice());
    let left = command(alloc, &mut shelf, &["run", "f"], 4096, 4096)
        .ok()
        .ok_or("memory")?;
    assert_eq!(rt; left.status, Status::Ok);
    Ok(())
}

#[test]
fn streams_without_room(rt: HostRuntime) -> Result<(), Fail> {
    let alloc = rt.alloc();
    let mut shelf = MemShelf::new(alloc);
    shelf.add("f", COUNTING).ok().ok_or("memory")?;
    let left = command(alloc, &mut shelf, &["run", "f"], 10, 0)
        .ok()
        .ok_or("memory")?;
    assert_eq!(rt; left.status, Status::WriteFault);
    assert_eq!(rt; left.out.as_slice(), b"operations".as_slice());
    assert_eq!(rt; left.err.len(), 0);
    let left = command(alloc, &mut shelf, &["run", "g"], 4096, 4)
        .ok()
        .ok_or("memory")?;
    assert_eq!(rt; left.status, Status::WriteFault);
    assert_eq!(rt; left.out.len(), 0);
    assert_eq!(rt; left.err.as_slice(), b"read".as_slice());
    let left = command(alloc, &mut shelf, &["run"], 0, USAGE.len())
        .ok()
        .ok_or("memory")?;
    assert_eq!(rt; left.status, Status::Usage);
    Ok(())
}
