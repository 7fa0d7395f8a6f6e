//! A caller: the value of a rule's text over fields that are the same everywhere.

ghost use Rattle.std.specs.Prelude.{◌≡◌, ◌<◌, ◌^◌, length, IfOk};
ghost use Rattle.std.specs.List.{All};
ghost use Rattle.cpl_base.specs.Numbers.{IsValue};

use cpl_base::Text;
use cpl_formula::{FormulaFault, ReadName, parse, value};
use std::alloc::Global;
use std::test::Fail;

/// The value of a rule's text where each field holds one value, and whatever else is read is 0.
fn value_over(
    alloc: Global,
    text: &[u8],
    fields: &[Text],
    held: &[i64],
) -> Result<i64, FormulaFault>
    requires text { length text.now < 2 ^ 32 }
    requires fields { length fields.now < 2 ^ 16 }
    requires each { length held.now ≡ length fields.now }
    requires values { All IsValue held.now }
    ensures { IfOk result IsValue }
{
    let parsed = parse(alloc, text, fields, &[])?;
    let reads = parsed.reads.items();
    let mut inputs = vec![in alloc; 0i64; reads.len()]?;
    for place in 0..reads.len() {
        if let ReadName::Field(field) = reads[place].name {
            inputs[place] = held[field as usize];
        }
    }
    Ok(value(&parsed.tree, inputs.as_slice()))
}

#[test]
fn value_over_two_fields(rt: HostRuntime) -> Result<(), Fail> {
    let alloc = rt.alloc();
    let fields = [Text::of(alloc, b"x")?, Text::of(alloc, b"y")?];
    let sum = value_over(alloc, b"2 * x + y[1,0] - i", &fields, &[1_500_000, 250_000]);
    assert_eq!(rt; sum, Ok(3_250_000));
    Ok(())
}
