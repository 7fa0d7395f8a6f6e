//! Files of weights: what their records say, which one is refused, and as many records as there may be.

use cpl_base::write_number;
use cpl_smm::{WeightFault, Weights, read_weights, weight_examples};
use std::alloc::Global;
use std::test::Fail;

/// Files over four source cells and three destination cells, and the three rows of each, which end in `/` and have
/// sources with their weights in billionths; or the refusal.
const CASES: [(&[u8], &[u8]); 103] = [
    // rows, whatever the order of the records
    (
        b"1,1,0.333333333\n2,1,0.333333333\n3,1,0.333333333\n",
        b"1=333333333 2=333333333 3=333333333 ///",
    ),
    (
        b"4,3,1\n1,3,2\n2,1,3\n3,3,4\n1,1,5",
        b"1=5000000000 2=3000000000 //1=2000000000 3=4000000000 4=1000000000 /",
    ),
    (
        b"3,2,1\n2,2,1\n1,2,1\n",
        b"/1=1000000000 2=1000000000 3=1000000000 //",
    ),
    (
        b"1,1,1\n1,2,1\n1,3,1\n",
        b"1=1000000000 /1=1000000000 /1=1000000000 /",
    ),
    (
        b"1,3,1\n1,2,1\n1,1,1\n",
        b"1=1000000000 /1=1000000000 /1=1000000000 /",
    ),
    // records in the order of their cells, and one that isn't
    (
        b"1,1,1\n3,1,-1\n2,2,0.5\n1,3,2\n4,3,0\n",
        b"1=1000000000 3=-1000000000 /2=500000000 /1=2000000000 4=0 /",
    ),
    (b"4,1,1\n1,2,1\n", b"4=1000000000 /1=1000000000 //"),
    (b"2,1,1\n1,3,1\n", b"2=1000000000 //1=1000000000 /"),
    (
        b"1,1,1\n1,2,1\n2,2,1\n2,1,1\n",
        b"1=1000000000 2=1000000000 /1=1000000000 2=1000000000 //",
    ),
    (b"1,1,1\n2,1,1\n2,1,3\n3,2,1\n", b"twice 3"),
    (b"1,1,1\n1,1,2\n2,2,1\n2,2,1\n", b"twice 2"),
    (b"1,1,1\n2,2,1\n3,3,2000\n", b"weight 3"),
    (b"", b"///"),
    (b"\n", b"///"),
    (b"4,3,0\n", b"//4=0 /"),
    // numbers
    (b"01,0001,1\n", b"1=1000000000 ///"),
    (b"000000000000000004,1,1\n", b"4=1000000000 ///"),
    (b"0000000000000000004,1,1\n", b"bad 1"),
    (b"999999999999999999,1,1\n", b"index 1"),
    (b"4294967297,1,1\n", b"index 1"),
    (b"1,4294967297,1\n", b"index 1"),
    (b"18446744073709551617,1,1\n", b"bad 1"),
    (b"-1,1,1\n", b"bad 1"),
    (b"+1,1,1\n", b"bad 1"),
    (b"1.0,1,1\n", b"bad 1"),
    (b"1,,1\n", b"bad 1"),
    (b",1,1\n", b"bad 1"),
    (b" 1,1,1\n", b"bad 1"),
    (b"1,1\t,1\n", b"bad 1"),
    (b"1,0x1,1\n", b"bad 1"),
    // weights
    (b"1,1,-0.5\n", b"1=-500000000 ///"),
    (b"1,1,-0\n", b"1=0 ///"),
    (b"1,1,0.000000001\n", b"1=1 ///"),
    (b"1,1,007.5\n", b"1=7500000000 ///"),
    (b"1,1,00000000000000000000.5\n", b"1=500000000 ///"),
    (b"1,1,1000\n", b"1=1000000000000 ///"),
    (b"1,1,-1000.000000000\n", b"1=-1000000000000 ///"),
    (b"1,1,999.999999999\n", b"1=999999999999 ///"),
    (b"1,1,1000.000000001\n", b"weight 1"),
    (b"1,1,-1000.000000001\n", b"weight 1"),
    (b"1,1,1001\n", b"weight 1"),
    (b"1,1,999999999999999999.9\n", b"weight 1"),
    (b"1,1,99999999999999999999999999\n", b"weight 1"),
    (b"1,1,99999999999999999999999999.999999999\n", b"weight 1"),
    (b"1,1,0.0000000000\n", b"bad 1"),
    (b"1,1,.5\n", b"bad 1"),
    (b"1,1,1.\n", b"bad 1"),
    (b"1,1,1.5.5\n", b"bad 1"),
    (b"1,1,-\n", b"bad 1"),
    (b"1,1,--1\n", b"bad 1"),
    (b"1,1,+1\n", b"bad 1"),
    (b"1,1,1e3\n", b"bad 1"),
    (b"1,1,1 \n", b"bad 1"),
    (b"1,1,1-\n", b"bad 1"),
    (b"1,1,1.-5\n", b"bad 1"),
    (b"1,1,\n", b"bad 1"),
    (b"1,1,99999999999999999999999999.9x\n", b"bad 1"),
    // numbers of fields
    (b"1,1\n", b"bad 1"),
    (b"1\n", b"bad 1"),
    (b"1,1,1,\n", b"bad 1"),
    (b"1,1,1,1\n", b"bad 1"),
    (b"1;1;1\n", b"bad 1"),
    (b"src,dst,weight\n1,1,1\n", b"bad 1"),
    (b"1,1,1\n# two\n", b"bad 2"),
    // what CSV is
    (b"\"1\",\"2\",\"0.5\"\n", b"/1=500000000 //"),
    (b"\"1,2\",1\n", b"bad 1"),
    (b"\"1,2\",1,1\n", b"bad 1"),
    (b"1\"\",1,1\n", b"bad 1"),
    (b"1,1,\"1", b"1=1000000000 ///"),
    (b"1,1,\"1\n2,2,1\n", b"bad 1"),
    (b"1,1,\"1\n\"\n", b"bad 1"),
    (b"1,1,1\r\n2,1,1\r\n", b"1=1000000000 2=1000000000 ///"),
    (b"1,1,1\r2,1,1\r", b"1=1000000000 2=1000000000 ///"),
    (b"1,1,1\n\r\n\n2,1,1", b"1=1000000000 2=1000000000 ///"),
    (b"\n\n1,1,1\n\n0,1,1\n", b"index 2"),
    (b"\xEF\xBB\xBF1,1,1\n", b"1=1000000000 ///"),
    (b"\xEF\xBB\xBF\xEF\xBB\xBF1,1,1\n", b"bad 1"),
    (b"1,1,1\n\xEF\xBB\xBF2,1,1\n", b"bad 2"),
    (b"1,1,1\n \n", b"bad 2"),
    // a fault at the first record, in the middle and at the last
    (b"x,1,1\n2,1,1\n3,1,1\n", b"bad 1"),
    (b"1,1,1\nx,1,1\n3,1,1\n", b"bad 2"),
    (b"1,1,1\n2,1,1\nx,1,1\n", b"bad 3"),
    (b"0,1,1\n2,1,1\n3,1,1\n", b"index 1"),
    (b"1,1,1\n5,1,1\n3,1,1\n", b"index 2"),
    (b"1,1,1\n2,1,1\n3,0,1\n", b"index 3"),
    (b"1,4,1\n2,1,1\n3,1,1\n", b"index 1"),
    (b"1,1,2000\n2,1,1\n3,1,1\n", b"weight 1"),
    (b"1,1,1\n2,1,-2000\n3,1,1\n", b"weight 2"),
    (b"1,1,1\n2,1,1\n3,1,2000\n", b"weight 3"),
    (b"1,1,1\n1,1,1\n3,1,1\n", b"twice 2"),
    (b"1,1,1\n2,1,1\n1,1,2\n", b"twice 3"),
    // faults that stand together
    (b"0,9,2000\n", b"index 1"),
    (b"0,9,x\n", b"bad 1"),
    (b"9,1,1e3\n", b"bad 1"),
    (b"1,1,1\n1,1,2000\n", b"weight 2"),
    (b"1,1,1\n1,1,x\n", b"bad 2"),
    (b"1,1,1\n0,1,1\n1,1,1\n", b"index 2"),
    (b"1,1,1\n1,1,1\n0,1,1\n", b"twice 2"),
    (b"3,3,1\n1,1,1\n2,2,1\n2,2,1\n1,1,1\n", b"twice 4"),
    (b"1,1,1\n3,3,1\n3,3,1\n1,1,1\n1,1,1\n", b"twice 3"),
    (b"2,1,1\n1,2,1\n2,2,1\n1,1,1\n1,2,1\n2,1,1\n", b"twice 5"),
    (b"1,2,1\n2,1,1\n", b"2=1000000000 /1=1000000000 //"),
    (b"1,1,1\n1,1,1\n1,1,1\nx\n", b"twice 2"),
];

/// The square root of the greatest number of records.
const SIDE: u64 = 2_048;

/// The greatest number of records.
const MOST: u64 = 4_194_304;

fn show_number(text: &mut Vec<u8>, number: i64) -> Result<(), Fail> {
    if number < 0 {
        text.push(b'-')?;
    }
    write_number(text, u128::from(number.unsigned_abs()))?;
    Ok(())
}

/// The rows, as the cases write them.
fn shown_rows(alloc: Global, weights: &Weights) -> Result<Vec<u8>, Fail> {
    let mut text = Vec::new(alloc);
    for k in 0..weights.dst_cells() {
        for (src, weight) in weights.row(k + 1) {
            show_number(&mut text, i64::from(*src))?;
            text.push(b'=')?;
            show_number(&mut text, *weight)?;
            text.push(b' ')?;
        }
        text.push(b'/')?;
    }
    Ok(text)
}

fn shown_fault(alloc: Global, fault: WeightFault) -> Result<Vec<u8>, Fail> {
    let (word, n) = match fault {
        WeightFault::BadRecord { n } => (b"bad ".as_slice(), n),
        WeightFault::IndexRange { n } => (b"index ".as_slice(), n),
        WeightFault::WeightRange { n } => (b"weight ".as_slice(), n),
        WeightFault::PairTwice { n } => (b"twice ".as_slice(), n),
        WeightFault::TooManyWeights { n } => (b"many ".as_slice(), n),
        WeightFault::Memory => (b"memory ".as_slice(), 0),
    };
    let mut text = Vec::from_slice(alloc, word)?;
    write_number(&mut text, u128::from(n))?;
    Ok(text)
}

/// What becomes of a file.
fn answer_of(alloc: Global, file: &[u8]) -> Result<Vec<u8>, Fail> {
    match read_weights(alloc, file, 4, 3) {
        Ok(weights) => shown_rows(alloc, &weights),
        Err(fault) => shown_fault(alloc, fault),
    }
}

#[test]
fn cases(rt: HostRuntime) -> Result<(), Fail> {
    let alloc = rt.alloc();
    weight_examples();
    for (place, (file, wanted)) in CASES.iter().enumerate() {
        let answer = answer_of(alloc, *file)?;
        assert_eq!(rt; answer.as_slice(), *wanted, "case {place}");
    }
    Ok(())
}

/// As many records as there may be: from each of 2,048 source cells to each of as many destination cells.
fn large_file(alloc: Global) -> Result<Vec<u8>, Fail> {
    let mut text = Vec::new(alloc);
    for dst in 0..SIDE {
        for src in 0..SIDE {
            write_number(&mut text, u128::from(src) + 1)?;
            text.push(b',')?;
            write_number(&mut text, u128::from(dst) + 1)?;
            text.extend_from_slice(b",1\n")?;
        }
    }
    Ok(text)
}

/// What becomes of a large file: the number of its records and the length of its last row, or its refusal.
fn size_of(alloc: Global, file: &[u8]) -> Result<Vec<u8>, Fail> {
    match read_weights(alloc, file, 2_049, 2_048) {
        Ok(weights) => {
            let mut text = Vec::new(alloc);
            write_number(&mut text, u128::from(weights.records()))?;
            text.push(b' ')?;
            let last = weights.dst_cells();
            if last > 0 {
                write_number(&mut text, weights.row(last).len() as u128)?;
            }
            Ok(text)
        }
        Err(fault) => shown_fault(alloc, fault),
    }
}

#[test]
fn most_records(rt: HostRuntime) -> Result<(), Fail> {
    let alloc = rt.alloc();
    let mut file = large_file(alloc)?;
    assert_eq!(rt;
        size_of(alloc, file.as_slice())?.as_slice(),
        b"4194304 2048".as_slice()
    );
    file.extend_from_slice(b"2049,1,1\n")?;
    assert_eq!(rt;
        size_of(alloc, file.as_slice())?.as_slice(),
        b"many 4194305".as_slice()
    );
    file.extend_from_slice(b"x\n")?;
    assert_eq!(rt;
        size_of(alloc, file.as_slice())?.as_slice(),
        b"many 4194305".as_slice()
    );
    assert_eq!(rt; SIDE * SIDE, MOST);
    Ok(())
}
