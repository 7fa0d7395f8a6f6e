//! What a component is: its PETs, its decomposed grid, its fields and its phases.

use cpl_base::{Many, Text};
use cpl_formula::{Argument, Parsed};
use cpl_grid::Decomp;
use sqlite_items::Boxed;

/// What a component is of NUOPC's generic components.
#[derive(Clone, Copy, Debug, PartialEq, Eq)]
pub enum Kind {
    /// It has a clock of its own, which its phases step forward.
    Model,
    /// It stands between models: it may keep, average and merge fields.
    Mediator,
}

/// What a field is to its component.
#[derive(Clone, Copy, Debug, PartialEq, Eq)]
pub enum Role {
    /// Its own, and seen by no other component.
    Var,
    /// Taken from another component.
    Import,
    /// Given to other components.
    Export,
}

/// Which time stamp an import must have when a phase reads it.
#[derive(Clone, Copy, Debug, PartialEq, Eq)]
pub enum Wanted {
    /// The time of the phase.
    Current,
    /// The time to which the phase leads.
    Next,
    /// Any, or none.
    Unchecked,
}

/// What gives a field its value at a cell.
#[derive(Drop)]
pub enum Rule {
    /// A formula.
    Plain(Boxed<Parsed>),
    /// An entry that is linked to the program.
    Native {
        /// The place of the entry.
        entry: u16,
        /// What it is given, one argument for each of its inputs.
        reads: Many<Argument>,
    },
}

/// A field of a component.
#[derive(Drop)]
pub struct Field {
    /// Its name, which no other field of the component has.
    pub name: Text,
    /// What it is to the component.
    pub role: Role,
    /// Its standard name; empty for a variable.
    pub standard: Text,
    /// Its units; empty for a variable.
    pub units: Text,
    /// Which time stamp an import must have; `Unchecked` for another field.
    pub wanted: Wanted,
    /// Whether an import may be left without an export.
    pub optional: bool,
    /// Whether an import is taken before the component is initialised.
    pub at_init: bool,
    /// What gives a variable or an export its value at the start, over the imports.
    pub start: Option<Rule>,
    /// The number of its line.
    pub line: u32,
}

/// A rule and the field whose value it gives, by its place among the component's fields.
#[derive(Drop)]
pub struct SetRow {
    pub field: u16,
    pub rule: Rule,
}

/// A field that becomes the sum of products of fields, all by their places.
#[derive(Drop)]
pub struct MergeRow {
    pub field: u16,
    /// The two factors of each product.
    pub terms: Many<(u16, u16)>,
}

/// The range, ends included and in millionths, in which a field's values must lie once the phase has run.
#[derive(Clone, Copy, Debug, PartialEq, Eq)]
pub struct RangeRow {
    pub field: u16,
    pub low: i64,
    pub high: i64,
}

/// What rules read beside the cell: the neighbours, and the fields that are read at one.
#[derive(Drop)]
pub struct Halo {
    /// Columns and rows to each neighbour, row by row from the farthest back, none of them twice.
    pub offsets: Many<(i8, i8)>,
    /// The places of the fields, ascending.
    pub fields: Many<u16>,
}

/// What a run of a phase does.
#[derive(Drop)]
pub struct Phase {
    /// Its name, which no other phase of the component has.
    pub label: Text,
    /// The fields that take the value of a rule.
    pub sets: Many<SetRow>,
    /// The fields that take a sum of products.
    pub merges: Many<MergeRow>,
    /// The fields for which a rule's value is kept.
    pub adds: Many<SetRow>,
    /// The fields that take the mean of what was kept for them.
    pub averages: Many<u16>,
    /// The ranges in which values must lie once it has run.
    pub ranges: Many<RangeRow>,
    /// What its rules read beside the cell.
    pub halo: Halo,
}

/// A component of the coupled system.
#[derive(Drop)]
pub struct Comp {
    pub name: Text,
    pub kind: Kind,
    /// The first of its PETs.
    pub first_pet: u8,
    /// How many PETs it has: they follow one another.
    pub pets: u8,
    /// Its grid, and which PET owns which cells.
    pub decomp: Decomp,
    /// How many seconds one operation of a model's run leads on, where that isn't the whole step.
    pub substep: Option<i64>,
    /// Its variables, then its imports, then its exports, each in the order of their table.
    pub fields: Many<Field>,
    /// Its phases, in their order; a run without a phase's name is of the first.
    pub phases: Many<Phase>,
    /// What its start rules read beside the cell.
    pub start_halo: Halo,
}
