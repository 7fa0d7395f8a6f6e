//! Where the inputs of a rule come from over a block.

ghost use Rattle.std.specs.Prelude.{◌≡◌, ◌≤◌, All, length, map, pos};
ghost use Rattle.cpl_block.specs.Frames.{IsFrame, first_of};
ghost use Rattle.cpl_formula.specs.declared.arguments.Argument.TheVariants.{Cell};
ghost use Rattle.cpl_sweep.specs.declared.place.Place.TheVariants.{From};
ghost use Rattle.cpl_rule.specs.Inputs.{IsArgumentNear, IsReadNear, arguments_of, place_of, place_of_name, places_of_rule};
ghost use Rattle.cpl_rule.specs.Moments.{IsMoment};

use crate::moment::{Moment, number};
use cpl_block::Frame;
use cpl_comp::{Argument, Rule};
use cpl_formula::{Read, ReadName};
use cpl_sweep::Place;

/// How many inputs a rule has.
///
/// Source: this project's own.
pub fn input_count(rule: &Rule) -> usize
    ensures { result ≡ length (arguments_of rule.now) }
{
    match rule {
        Rule::Plain(parsed) => parsed.get().reads.items().len(),
        Rule::Native { reads, .. } => reads.items().len(),
    }
}

/// Writes where each input of a rule comes from at a moment, over the block of a frame: the fields of the component,
/// `fields` of them, are followed by three with the columns, the rows and the sequence indices of the cells. The rule
/// reads no farther than the ring. Takes no memory.
///
/// Source: this project's own.
pub fn place_inputs(frame: &Frame, fields: u16, moment: &Moment, rule: &Rule, places: &mut [Place])
    requires frame { IsFrame frame.now }
    requires fields { fields ≤ 64 }
    requires moment { IsMoment moment.now }
    requires rule { All (IsArgumentNear frame.now fields (length moment.now.times.alarms.now)) (arguments_of rule.now) }
    requires places { length places.old ≡ length (arguments_of rule.now) }
    ensures { places.new ≡ places_of_rule frame.now fields moment.now rule.now }
{
    match rule {
        Rule::Plain(parsed) => place_reads(
            frame,
            fields,
            moment,
            parsed.get().reads.items(),
            places,
        ),
        Rule::Native { reads, .. } => place_arguments(frame, fields, moment, reads.items(), places),
    }
}

/// Writes where reads come from.
fn place_reads(frame: &Frame, fields: u16, moment: &Moment, reads: &[Read], places: &mut [Place])
    requires frame { IsFrame frame.now }
    requires fields { fields ≤ 64 }
    requires moment { IsMoment moment.now }
    requires reads { All (IsReadNear frame.now fields (length moment.now.times.alarms.now)) reads.now }
    requires places { length places.old ≡ length reads.now }
    ensures { places.new ≡ map (λ read. place_of frame.now fields moment.now (Cell read)) reads.now }
{
    for k in 0..reads.len() {
        places[k] = place_of_read(frame, fields, moment, &reads[k]);
    }
}

/// Writes where arguments come from.
fn place_arguments(
    frame: &Frame,
    fields: u16,
    moment: &Moment,
    arguments: &[Argument],
    places: &mut [Place],
)
    requires frame { IsFrame frame.now }
    requires fields { fields ≤ 64 }
    requires moment { IsMoment moment.now }
    requires arguments { All (IsArgumentNear frame.now fields (length moment.now.times.alarms.now)) arguments.now }
    requires places { length places.old ≡ length arguments.now }
    ensures { places.new ≡ map (place_of frame.now fields moment.now) arguments.now }
{
    for k in 0..arguments.len() {
        places[k] = place_of(frame, fields, moment, &arguments[k]);
    }
}

/// Where an argument comes from.
fn place_of(frame: &Frame, fields: u16, moment: &Moment, argument: &Argument) -> Place
    requires frame { IsFrame frame.now }
    requires fields { fields ≤ 64 }
    requires moment { IsMoment moment.now }
    requires argument { IsArgumentNear frame.now fields (length moment.now.times.alarms.now) argument.now }
    ensures { result ≡ place_of frame.now fields moment.now argument.now }
{
    match argument {
        Argument::Number(number) => Place::Same(*number),
        Argument::Cell(read) => place_of_read(frame, fields, moment, read),
    }
}

/// Where what is read comes from.
fn place_of_read(frame: &Frame, fields: u16, moment: &Moment, read: &Read) -> Place
    requires frame { IsFrame frame.now }
    requires fields { fields ≤ 64 }
    requires moment { IsMoment moment.now }
    requires read { IsReadNear frame.now fields (length moment.now.times.alarms.now) read.now }
    ensures { result ≡ place_of_name frame.now fields moment.now read.now.dx read.now.dy read.now.name }
{
    match read.name {
        ReadName::Field(field) => Place::From {
            field,
            first: frame.first(read.dx, read.dy),
        },
        ReadName::I => own_place(frame, fields),
        ReadName::J => own_place(frame, fields + 1),
        ReadName::S => own_place(frame, fields + 2),
        name => Place::Same(number(moment, &frame.grid, name)),
    }
}

/// Where what a field holds at the cell itself comes from.
fn own_place(frame: &Frame, field: u16) -> Place
    requires { IsFrame frame.now }
    ensures { result ≡ From field (first_of frame.now (pos 0) (pos 0)) }
{
    Place::From {
        field,
        first: frame.first(0, 0),
    }
}
