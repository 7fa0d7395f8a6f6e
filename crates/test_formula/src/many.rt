//! A text of a thousand reads, each in it twice.

ghost use Rattle.std.specs.Prelude.{length, IfOk, IsTrue};
ghost use Rattle.cpl_formula.specs.Tree.{is_over};

use crate::reading::worth;
use cpl_base::{Text, write_number};
use cpl_formula::{FormulaFault, Parsed, Read, ReadName, parse};
use std::alloc::Global;
use std::test::Fail;

/// So many reads: those of 40 fields, each at 25 cells.
const READS: u16 = 1000;

/// The fields, by one letter each.
const LETTERS: &[u8] = b"ABCDEFGHIJKLMNOPQRSTUVWXYZabcdefghklmopq";

/// The offset of a number from 0 to 4.
fn offset(number: u16) -> i8 {
    match number {
        0 => -2,
        1 => -1,
        2 => 0,
        3 => 1,
        _ => 2,
    }
}

/// The k-th read.
fn read_of(k: u16) -> Read {
    Read {
        name: ReadName::Field(k / 25),
        dx: offset(k % 5),
        dy: offset(k / 5 % 5),
    }
}

/// Appends the k-th read, times its number.
fn put_term(text: &mut Vec<u8>, k: u16) -> Result<(), Fail> {
    let field = k / 25;
    write_number(text, u128::from(k))?;
    text.push(b'*')?;
    text.push(*LETTERS.get(field as usize).unwrap_or(&b'$'))?;
    text.extend_from_slice(offsets(k % 25))?;
    Ok(())
}

/// The offsets in brackets, columns first.
fn offsets(cell: u16) -> &'static [u8] {
    match cell {
        0 => b"[-2,-2]",
        1 => b"[-1,-2]",
        2 => b"[0,-2]",
        3 => b"[1,-2]",
        4 => b"[2,-2]",
        5 => b"[-2,-1]",
        6 => b"[-1,-1]",
        7 => b"[0,-1]",
        8 => b"[1,-1]",
        9 => b"[2,-1]",
        10 => b"[-2,0]",
        11 => b"[-1,0]",
        12 => b"",
        13 => b"[1,0]",
        14 => b"[2,0]",
        15 => b"[-2,1]",
        16 => b"[-1,1]",
        17 => b"[0,1]",
        18 => b"[1,1]",
        19 => b"[2,1]",
        20 => b"[-2,2]",
        21 => b"[-1,2]",
        22 => b"[0,2]",
        23 => b"[1,2]",
        _ => b"[2,2]",
    }
}

/// Appends the sum of the terms, in tens and in hundreds; backward, from the last term to the first.
fn put_sum(text: &mut Vec<u8>, backward: bool) -> Result<(), Fail> {
    for count in 0..READS {
        if count > 0 {
            text.push(b'+')?;
        }
        if count % 100 == 0 {
            text.push(b'(')?;
        }
        if count % 10 == 0 {
            text.push(b'(')?;
        }
        put_term(text, if backward { READS - 1 - count } else { count })?;
        if count % 10 == 9 {
            text.push(b')')?;
        }
        if count % 100 == 99 {
            text.push(b')')?;
        }
    }
    Ok(())
}

/// The lesser of the sum forward and the sum backward.
fn both_sums(alloc: Global) -> Result<Vec<u8>, Fail> {
    let mut text = Vec::from_slice(alloc, b"min(")?;
    put_sum(&mut text, false)?;
    text.push(b',')?;
    put_sum(&mut text, true)?;
    text.push(b')')?;
    Ok(text)
}

/// The names of the fields.
fn fields(alloc: Global) -> Result<Vec<Text>, Fail> {
    let mut fields = Vec::new(alloc);
    for letter in LETTERS {
        fields.push(Text::of(alloc, &[*letter])?)?;
    }
    Ok(fields)
}

/// A text over these fields and no alarms.
fn read_over(alloc: Global, text: &[u8], fields: &[Text]) -> Result<Parsed, FormulaFault>
    ensures { IfOk result (λ p. IsTrue (is_over (length p.reads) p.tree)) }
{
    if text.len() > 1_000_000 || fields.len() > 100 {
        return Err(FormulaFault::Memory);
    }
    parse(alloc, text, fields, &[])
}

/// Values for the reads: the k-th is k.
fn numbers(alloc: Global) -> Result<Vec<i64>, Fail> {
    let mut numbers = Vec::new(alloc);
    for k in 0..READS {
        numbers.push(i64::from(k) * 1_000_000)?;
    }
    Ok(numbers)
}

/// What the text is worth where the k-th read is k, if all reads stand in their order.
///
/// A sum of products with the numbers from 0 on is greatest where each read meets its own number, so no
/// other order of the inputs gives the same.
fn sum_in_order(parsed: &Parsed, numbers: &[i64]) -> Option<i64>
    requires { IsTrue (is_over (length parsed.now.reads) parsed.now.tree) }
{
    for (k, read) in (0..READS).zip(parsed.reads.items()) {
        if *read != read_of(k) {
            return None;
        }
    }
    worth(parsed, numbers)
}

#[test]
fn a_thousand_reads(rt: HostRuntime) -> Result<(), Fail> {
    let alloc = rt.alloc();
    let text = both_sums(alloc)?;
    let fields = fields(alloc)?;
    let numbers = numbers(alloc)?;
    let found = match &read_over(alloc, text.as_slice(), fields.as_slice()) {
        Ok(parsed) => sum_in_order(parsed, numbers.as_slice()),
        Err(_) => None,
    };
    assert_eq!(rt; found, Some(332_833_500_000_000));
    Ok(())
}
