//! What the rules of a component ask of the ring around a block, and of the room in which they are worked out.

ghost use Rattle.std.specs.Prelude.{◌≡◌, ◌≤◌, ◌<◌, ◌^◌, ◌↔◌, All, IsTrue, max, min, length, map, unsigned_abs};
ghost use Rattle.cpl_formula.specs.Arguments.{IsArgument};
ghost use Rattle.cpl_formula.specs.Reads.{IsRead};
ghost use Rattle.cpl_formula.specs.declared.arguments.Argument.TheVariants.{Cell};
ghost use Rattle.cpl_rule.specs.Inputs.{arguments_of};
ghost use Rattle.cpl_rule.specs.Demands.{CanBeMet, IsArgumentWithin, IsCovered, IsDemandOf, IsPhaseCovered, IsReadWithin, IsStartCovered, IsWider};
ghost use Rattle.cpl_rule.specs.declared.demand.Demand.{Demand};

use crate::inputs::input_count;
use cpl_comp::{Argument, Comp, Field, Phase, Rule, SetRow};
use cpl_formula::Read;
use cpl_sweep::scratch_rows;

/// What rules ask for: a ring and room. A block with such a ring, and room of such sizes, serve each of them.
///
/// Source: this project's own.
#[derive(Clone, Copy, Debug, PartialEq, Eq)]
pub struct Demand {
    /// Columns of the ring on each side.
    pub rx: u32,
    /// Rows of the ring on each side.
    pub ry: u32,
    /// The inputs of the rule that has most.
    pub inputs: usize,
    /// The strips of the formula that is worked out in most.
    pub strips: usize,
}

/// What all rules of a component ask for: those of its fields at the start, and those of its phases. Takes no memory.
///
/// Source: this project's own.
pub fn demand_of(comp: &Comp) -> Demand
    ensures covers { IsDemandOf comp.now result }
    // No less would do.
    ensures least { (other : Demand) → IsDemandOf comp.now other → IsWider result other }
{
    let nothing = Demand {
        rx: 0,
        ry: 0,
        inputs: 0,
        strips: 0,
    };
    let starts = nothing.with_starts(comp.fields.items());
    starts.with_phases(comp.phases.items())
}

impl Demand {
    /// Whether there may be memory for so many strips. Takes no memory.
    ///
    /// Source: this project's own.
    pub fn can_be_met(&self) -> bool
        ensures { IsTrue result ↔ CanBeMet self.now }
    {
        self.strips < 1 << 32
    }

    /// With the start rules of fields.
    fn with_starts(self, fields: &[Field]) -> Demand
        ensures covers { All (IsStartCovered result) fields.now }
        ensures wider { IsWider self result }
        ensures least { (other : Demand) → IsWider self other → All (IsStartCovered other) fields.now → IsWider result other }
    {
        let mut demand = self;
        for k in 0..fields.len() {
            demand = demand.with_start(&fields[k]);
        }
        demand
    }

    /// With the start rule of a field, if it has one.
    fn with_start(self, field: &Field) -> Demand
        ensures covers { IsStartCovered result field.now }
        ensures wider { IsWider self result }
        ensures least { (other : Demand) → IsWider self other → IsStartCovered other field.now → IsWider result other }
    {
        match &field.start {
            Some(rule) => self.with_rule(rule),
            None => self,
        }
    }

    /// With the rules of phases.
    fn with_phases(self, phases: &[Phase]) -> Demand
        ensures covers { All (IsPhaseCovered result) phases.now }
        ensures wider { IsWider self result }
        ensures least { (other : Demand) → IsWider self other → All (IsPhaseCovered other) phases.now → IsWider result other }
    {
        let mut demand = self;
        for k in 0..phases.len() {
            demand = demand.with_phase(&phases[k]);
        }
        demand
    }

    /// With the rules of a phase.
    fn with_phase(self, phase: &Phase) -> Demand
        ensures covers { IsPhaseCovered result phase.now }
        ensures wider { IsWider self result }
        ensures least { (other : Demand) → IsWider self other → IsPhaseCovered other phase.now → IsWider result other }
    {
        let sets = self.with_rows(phase.sets.items());
        sets.with_rows(phase.adds.items())
    }

    /// With the rules of rows.
    fn with_rows(self, rows: &[SetRow]) -> Demand
        ensures covers { All (λ row. IsCovered result row.rule) rows.now }
        ensures wider { IsWider self result }
        ensures least { (other : Demand) → IsWider self other → All (λ row. IsCovered other row.rule) rows.now → IsWider result other }
    {
        let mut demand = self;
        for k in 0..rows.len() {
            demand = demand.with_rule(&rows[k].rule);
        }
        demand
    }

    /// With a rule.
    fn with_rule(self, rule: &Rule) -> Demand
        ensures covers { IsCovered result rule.now }
        ensures wider { IsWider self result }
        ensures least { (other : Demand) → IsWider self other → IsCovered other rule.now → IsWider result other }
    {
        let demand = self.with_inputs(input_count(rule));
        match rule {
            Rule::Plain(parsed) => {
                let formula = parsed.get();
                let near = demand.with_reads(formula.reads.items());
                near.with_strips(scratch_rows(&formula.tree))
            }
            Rule::Native { reads, .. } => demand.with_arguments(reads.items()),
        }
    }

    /// With so many inputs.
    fn with_inputs(self, inputs: usize) -> Demand
        ensures covers { inputs ≤ result.inputs }
        ensures wider { IsWider self result }
        ensures least { (other : Demand) → IsWider self other → inputs ≤ other.inputs → IsWider result other }
    {
        Demand {
            rx: self.rx,
            ry: self.ry,
            inputs: self.inputs.max(inputs),
            strips: self.strips,
        }
    }

    /// With so many strips.
    fn with_strips(self, strips: usize) -> Demand
        ensures covers { strips ≤ result.strips }
        ensures wider { IsWider self result }
        ensures least { (other : Demand) → IsWider self other → strips ≤ other.strips → IsWider result other }
    {
        Demand {
            rx: self.rx,
            ry: self.ry,
            inputs: self.inputs,
            strips: self.strips.max(strips),
        }
    }

    /// With the reads of a formula.
    fn with_reads(self, reads: &[Read]) -> Demand
        ensures covers { All (IsReadWithin result) reads.now }
        ensures wider { IsWider self result }
        ensures least { (other : Demand) → IsWider self other → All (IsReadWithin other) reads.now → IsWider result other }
    {
        let mut demand = self;
        for k in 0..reads.len() {
            demand = demand.with_read(&reads[k]);
        }
        demand
    }

    /// With the arguments of a call.
    fn with_arguments(self, arguments: &[Argument]) -> Demand
        ensures covers { All (IsArgumentWithin result) arguments.now }
        ensures wider { IsWider self result }
        ensures least { (other : Demand) → IsWider self other → All (IsArgumentWithin other) arguments.now → IsWider result other }
    {
        let mut demand = self;
        for k in 0..arguments.len() {
            demand = demand.with_argument(&arguments[k]);
        }
        demand
    }

    /// With an argument.
    fn with_argument(self, argument: &Argument) -> Demand
        ensures covers { IsArgumentWithin result argument.now }
        ensures wider { IsWider self result }
        ensures least { (other : Demand) → IsWider self other → IsArgumentWithin other argument.now → IsWider result other }
    {
        match argument {
            Argument::Number(_) => self,
            Argument::Cell(read) => self.with_read(read),
        }
    }

    /// With a read.
    fn with_read(self, read: &Read) -> Demand
        ensures covers { IsReadWithin result read.now }
        ensures wider { IsWider self result }
        ensures least { (other : Demand) → IsWider self other → IsReadWithin other read.now → IsWider result other }
    {
        Demand {
            rx: self.rx.max(u32::from(read.dx.unsigned_abs())),
            ry: self.ry.max(u32::from(read.dy.unsigned_abs())),
            inputs: self.inputs,
            strips: self.strips,
        }
    }
}
