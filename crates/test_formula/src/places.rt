//! Lists of names in which some are empty or stand twice: places are places among all of them.

ghost use Rattle.std.specs.Prelude.{[], length, IfOk};
ghost use Rattle.cpl_base.specs.Gives.{Gives};
ghost use Rattle.cpl_formula.specs.Reads.{AreReads};
ghost use Rattle.cpl_formula.specs.Steps.{parsed_of};

use cpl_base::{Memory, Text, write_number};
use cpl_formula::{Argument, FormulaFault, Parsed, Read, ReadName, parse, read_argument};
use std::alloc::Global;
use std::test::Fail;

/// The fields of a component of which a start rule may read the imports `x` and `flux` alone, with an empty
/// name for each other; `x` stands twice.
fn fields(alloc: Global) -> Result<Vec<Text>, Fail> {
    let mut fields = Vec::new(alloc);
    for name in [b"".as_slice(), b"x", b"", b"flux", b"x"] {
        fields.push(Text::of(alloc, name)?)?;
    }
    Ok(fields)
}

/// A text over these fields and no alarms: what is read is also what the function gives that computes it.
#[tactic(auto, using(cpl_formula::proofs::Answers::answers))]
fn read(alloc: Global, text: &[u8], fields: &[Text]) -> Result<Parsed, FormulaFault>
    ensures reads { IfOk result (λ p. AreReads (length fields.now) 0 p.reads) }
    ensures gives { Gives FormulaFault.Memory (λ p. p) result (parsed_of fields.now [] text.now) }
{
    if text.len() > 1000 || fields.len() > 100 {
        return Err(FormulaFault::Memory);
    }
    let parsed = parse(alloc, text, fields, &[])?;
    Ok(parsed)
}

/// The place of each field that is read, with its name behind it.
fn places(alloc: Global, reads: &[Read], fields: &[Text]) -> Result<Vec<u8>, Memory>
    requires { AreReads (length fields.now) 0 reads.now }
{
    let mut out = Vec::new(alloc);
    for read in reads {
        if let ReadName::Field(field) = read.name {
            write_number(&mut out, u128::from(field))?;
            out.extend_from_slice(fields[field as usize].bytes())?;
        }
    }
    Ok(out)
}

/// The places of the fields that a text reads.
fn places_read(alloc: Global, text: &[u8], fields: &[Text]) -> Result<Vec<u8>, FormulaFault> {
    let parsed = read(alloc, text, fields)?;
    Ok(places(alloc, parsed.reads.items(), fields)?)
}

/// A word as an argument over these fields and no alarms.
fn argument(word: &[u8], fields: &[Text]) -> Result<Argument, FormulaFault> {
    if fields.len() > 100 {
        return Err(FormulaFault::Memory);
    }
    read_argument(word, 0, fields, &[])
}

/// Texts with the places of the fields that they read.
const TEXTS: &[(&[u8], &[u8])] = &[
    (b"x", b"1x"),
    (b"flux + x[1,0]", b"3flux1x"),
    (b"x * flux - x[0,1] + x", b"1x3flux1x"),
];

#[test]
fn places_among_all_names(rt: HostRuntime) -> Result<(), Fail> {
    let fields = fields(rt.alloc())?;
    for (text, wanted) in TEXTS {
        let found = places_read(rt.alloc(), *text, fields.as_slice())
            .ok()
            .ok_or("none")?;
        assert_eq!(rt; found.as_slice(), *wanted, "at {text:?}");
    }
    let unknown = read(rt.alloc(), b"1 + temp", fields.as_slice()).err();
    assert_eq!(rt; unknown, Some(FormulaFault::NameUnknown { at: 4 }));
    let argument = argument(b"flux[0,-1]", fields.as_slice());
    let name = ReadName::Field(3);
    assert_eq!(rt;
        argument,
        Ok(Argument::Cell(Read {
            name,
            dx: 0,
            dy: -1
        }))
    );
    Ok(())
}
