//! Where the values of a part of a formula stand over a strip.

ghost use Rattle.std.specs.Prelude.{◌+◌, All, IsTrue, length};
ghost use Rattle.cpl_base.specs.Numbers.{IsValue};
ghost use Rattle.cpl_formula.specs.Tree.{is_over};
ghost use Rattle.cpl_sweep.specs.Places.{IsPlace, input_at};
ghost use Rattle.cpl_sweep.specs.Rows.{rows_of};
ghost use Rattle.cpl_sweep.specs.Strips.{IsOperand, IsReady, strip_value};

use crate::place::Place;
use cpl_field::Field;
use cpl_formula::Formula;

/// The inputs of a formula, and how many cells of them lie before a strip.
#[derive(Clone, Copy)]
pub(crate) struct Inputs<'a> {
    /// Where each input comes from.
    pub(crate) places: &'a [Place],
    /// All fields.
    pub(crate) fields: &'a [Field],
    /// How many cells lie before the strip.
    pub(crate) skip: usize,
}

/// The values of a part over a strip.
#[derive(Clone, Copy)]
pub(crate) enum Operand<'a> {
    /// One number at every cell.
    Number(i64),
    /// A run of a field.
    Run(&'a [i64]),
    /// What has to be worked out.
    Tree,
}

/// Where the values of a part stand over so many cells of a strip.
pub(crate) fn operand_of<'a>(tree: &Formula, inputs: &Inputs<'a>, cells: usize) -> Operand<'a>
    requires over { IsTrue (is_over (length inputs.now.places.now) tree.now) }
    requires ready { IsReady inputs.now cells }
    ensures { IsOperand (strip_value inputs.now tree.now) (rows_of tree.now).own cells result }
{
    match tree {
        Formula::Number(number) => Operand::Number(*number),
        Formula::Input(input) => place_operand(inputs.places[*input as usize], inputs, cells),
        _ => Operand::Tree,
    }
}

/// Where the values of an input stand over so many cells of a strip.
fn place_operand<'a>(place: Place, inputs: &Inputs<'a>, cells: usize) -> Operand<'a>
    requires place { IsPlace inputs.now.fields.now (inputs.now.skip + cells) place }
    requires fields { All (All IsValue) inputs.now.fields.now }
    ensures { IsOperand (λ k. input_at inputs.now.fields.now (inputs.now.skip + k) place) 0 cells result }
{
    match place {
        Place::Same(number) => Operand::Number(number),
        Place::From { field, first } => {
            let values = inputs.fields[field as usize].values();
            let start = first as usize + inputs.skip;
            Operand::Run(&values[start..start + cells])
        }
    }
}
