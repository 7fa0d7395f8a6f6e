//! One step of reading: from a state and a token to the next state, or why no formula goes on so.

ghost use Rattle.std.specs.Prelude.{◌≡◌, ◌+◌, ◌<◌, ◌≤◌, ◌^◌, IfOk, List, length};
ghost use Rattle.cpl_formula.specs.Levels.{StepGives, step_behind_offsets, read_here};
ghost use Rattle.cpl_formula.specs.Reads.{with_read};
ghost use Rattle.cpl_formula.specs.Grammar.{input_of};
ghost use Rattle.cpl_formula.specs.Steps.{step_after_operand, step_between_offsets, step_at_call, step_at_close, closed_part, step_in_column, step_at_comma, expr_at, fresh_level, leaf, step_after_name, near_offset, part_with_minuses, next_opening, state_in_bracket, opening_of, step_in_row, split_last, start_state, state, step, step_at_operand, with_product, with_sum};
ghost use Rattle.cpl_formula.specs.declared.formula.Read.{Read};

use crate::fault::Stop;
use crate::formula::{FARTHEST, Formula, Read, ReadName};
use crate::functions::Function;
use crate::parts::{Join, Wrap, around, joined, joined_three, leaf, negated, one_more};
use crate::reads::note;
use crate::state::{Frame, Level, Mode, Opening, Part, Product, State, Sum};
use crate::tokens::{SumSign, Token};
use cpl_base::{MILLION, Many, Memory};
use indexmap::IndexSet;
use std::alloc::{AllocError, AllocFailed, Global};

impl Level {
    /// Nothing waits.
    fn fresh() -> Level
        ensures { result ≡ fresh_level }
    {
        Level {
            sum: None,
            product: None,
            minus: 0,
        }
    }
}

impl State {
    /// Before the first token. Takes no memory.
    pub fn start(alloc: Global) -> State
        ensures { result ≡ start_state }
    {
        State {
            frames: Many::of(Vec::new(alloc)),
            level: Level::fresh(),
            mode: Mode::Wanted,
        }
    }

    /// A state.
    fn of(frames: Many<Frame>, level: Level, mode: Mode) -> State
        ensures { result ≡ state frames level mode }
    {
        State {
            frames,
            level,
            mode,
        }
    }
}

/// The product that waits, with its last factor.
fn with_product(alloc: Global, waits: Option<Product>, right: Part) -> Result<Part, AllocError>
    ensures { IfOk result (λ part. part ≡ with_product waits right) }
{
    match waits {
        None => Ok(right),
        Some(Product { left, sign }) => joined(alloc, Join::Product(sign), left, right),
    }
}

/// The sum that waits, with its last term.
fn with_sum(alloc: Global, waits: Option<Sum>, right: Part) -> Result<Part, AllocError>
    ensures { IfOk result (λ part. part ≡ with_sum waits right) }
{
    match waits {
        None => Ok(right),
        Some(Sum { left, sign }) => joined(alloc, Join::Sum(sign), left, right),
    }
}

/// The term that an operand ends, where such a product and so many minus signs wait.
fn term_at(
    alloc: Global,
    product: Option<Product>,
    minus: u8,
    operand: Part,
) -> Result<Part, AllocError>
    ensures { IfOk result (λ part. part ≡ with_product product (part_with_minuses minus operand)) }
{
    let factor = negated(alloc, minus, operand)?;
    with_product(alloc, product, factor)
}

/// The expr that an operand ends.
pub fn expr_at(alloc: Global, level: Level, operand: Part) -> Result<Part, AllocError>
    ensures { IfOk result (λ part. part ≡ expr_at level operand) }
{
    let Level {
        sum,
        product,
        minus,
    } = level;
    let term = term_at(alloc, product, minus, operand)?;
    with_sum(alloc, sum, term)
}

/// What is read behind a function's `(`.
fn opening_of(function: Function) -> Opening
    ensures { result ≡ opening_of function }
{
    match function {
        Function::Unary(function) => Opening::OnlyOf(function),
        Function::Binary(function) => Opening::FirstOfTwo(function),
        Function::Ternary(function) => Opening::FirstOfThree(function),
    }
}

/// What a `)` makes with the last argument, if it may stand there.
fn closed_part(alloc: Global, opening: Opening, argument: Part) -> Result<Option<Part>, AllocError>
    ensures { IfOk result (λ made. made ≡ closed_part opening argument) }
{
    let made = match opening {
        Opening::Group => around(alloc, Wrap::Brackets, argument)?,
        Opening::OnlyOf(function) => around(alloc, Wrap::Call(function), argument)?,
        Opening::SecondOfTwo(function, a) => joined(alloc, Join::Call(function), a, argument)?,
        Opening::ThirdOfThree(function, a, b) => joined_three(alloc, function, a, b, argument)?,
        _ => return Ok(None),
    };
    Ok(Some(made))
}

/// What is read behind a `,`, with one more argument, if it may stand there.
fn next_opening(opening: Opening, argument: Part) -> Option<Opening>
    ensures { result ≡ next_opening opening argument }
{
    match opening {
        Opening::FirstOfTwo(function) => Some(Opening::SecondOfTwo(function, argument)),
        Opening::FirstOfThree(function) => Some(Opening::SecondOfThree(function, argument)),
        Opening::SecondOfThree(function, a) => Some(Opening::ThirdOfThree(function, a, argument)),
        _ => None,
    }
}

/// Behind a `(`.
fn opened(frames: Many<Frame>, level: Level, opening: Opening) -> Result<State, AllocFailed<Frame>>
    ensures { IfOk result (λ state. state ≡ state_in_bracket frames level opening) }
{
    let mut frames = frames.into_items();
    frames.push(Frame { level, opening })?;
    Ok(State::of(Many::of(frames), Level::fresh(), Mode::Wanted))
}

/// The part that a read is.
pub fn read_part(alloc: Global, reads: &mut IndexSet<Read>, read: Read) -> Result<Part, Memory>
    requires { length reads.old.keys < 2 ^ 32 }
    ensures part { IfOk result (λ part. part ≡ leaf (input_of reads.old.keys read)) }
    ensures reads { IfOk result (λ part. reads.new.keys ≡ with_read reads.old.keys read) }
    ensures few { IfOk result (λ part. length reads.new.keys ≤ length reads.old.keys + 1) }
{
    let place = note(reads, read)?;
    let part = leaf(alloc, Formula::Input(place))?;
    Ok(part)
}

/// An operand may stand here.
fn wanted(
    alloc: Global,
    reads: &mut IndexSet<Read>,
    frames: Many<Frame>,
    level: Level,
    token: Token,
) -> Result<State, Stop>
    requires { length reads.old.keys < 2 ^ 32 }
    ensures gives { StepGives result reads.new.keys (step_at_operand reads.old.keys frames level token) }
    ensures few { IfOk result (λ next. length reads.new.keys ≤ length reads.old.keys + 1) }
{
    let mode = match token {
        Token::Sum(SumSign::Less) => {
            let minus = one_more(level.minus);
            return Ok(State::of(frames, Level { minus, ..level }, Mode::Wanted));
        }
        Token::Open => return Ok(opened(frames, level, Opening::Group)?),
        Token::Function(function) => Mode::Called(function),
        Token::Digit(digit) => {
            let number = u64::from(digit) * MILLION;
            Mode::Behind(leaf(alloc, Formula::Number(number as i64))?)
        }
        Token::Number(number) => Mode::Behind(leaf(alloc, Formula::Number(number))?),
        Token::Field(field) => Mode::Named(field),
        Token::Quantity(name) => {
            let read = Read { name, dx: 0, dy: 0 };
            Mode::Behind(read_part(alloc, reads, read)?)
        }
        Token::BadNumber => return Err(Stop::BadNumber),
        Token::Unknown => return Err(Stop::NameUnknown),
        _ => return Err(Stop::Syntax),
    };
    Ok(State::of(frames, level, mode))
}

/// An offset, where it is near enough.
fn near(minus: bool, digit: u8) -> Result<i8, Stop>
    ensures { result ≡ near_offset minus digit }
{
    if digit > FARTHEST {
        return Err(Stop::FarNeighbour { minus });
    }
    let far = digit as i8;
    Ok(if minus { -far } else { far })
}

/// Before the digit of the column's offset.
fn column(
    frames: Many<Frame>,
    level: Level,
    field: u16,
    minus: bool,
    token: Token,
) -> Result<State, Stop>
    ensures { (reads : List Read) → StepGives result reads (step_in_column reads frames level field minus token) }
{
    let mode = match token {
        Token::Digit(digit) => Mode::Between {
            field,
            dx: near(minus, digit)?,
        },
        Token::Sum(SumSign::Less) if !minus => Mode::Column { field, minus: true },
        _ => return Err(Stop::Syntax),
    };
    Ok(State::of(frames, level, mode))
}

/// Behind the column's offset.
fn between(
    frames: Many<Frame>,
    level: Level,
    field: u16,
    dx: i8,
    token: Token,
) -> Result<State, Stop>
    ensures { (reads : List Read) → StepGives result reads (step_between_offsets reads frames level field dx token) }
{
    match token {
        Token::Comma => {
            let mode = Mode::Row {
                field,
                dx,
                minus: false,
            };
            Ok(State::of(frames, level, mode))
        }
        _ => Err(Stop::Syntax),
    }
}

/// Before the digit of the row's offset.
fn row(
    frames: Many<Frame>,
    level: Level,
    field: u16,
    dx: i8,
    minus: bool,
    token: Token,
) -> Result<State, Stop>
    ensures { (reads : List Read) → StepGives result reads (step_in_row reads frames level field dx minus token) }
{
    let mode = match token {
        Token::Digit(digit) => Mode::Ending {
            field,
            dx,
            dy: near(minus, digit)?,
        },
        Token::Sum(SumSign::Less) if !minus => Mode::Row {
            field,
            dx,
            minus: true,
        },
        _ => return Err(Stop::Syntax),
    };
    Ok(State::of(frames, level, mode))
}

/// Behind the offsets.
fn ending(
    alloc: Global,
    reads: &mut IndexSet<Read>,
    frames: Many<Frame>,
    level: Level,
    read: Read,
    token: Token,
) -> Result<State, Stop>
    requires { length reads.old.keys < 2 ^ 32 }
    ensures gives { StepGives result reads.new.keys (step_behind_offsets reads.old.keys frames level read token) }
    ensures few { IfOk result (λ next. length reads.new.keys ≤ length reads.old.keys + 1) }
{
    match token {
        Token::CloseBracket => {
            let part = read_part(alloc, reads, read)?;
            Ok(State::of(frames, level, Mode::Behind(part)))
        }
        _ => Err(Stop::Syntax),
    }
}

/// The last bracket that is open, and those around it.
fn innermost(frames: Many<Frame>) -> Option<(Many<Frame>, Frame)>
    ensures { result ≡ split_last frames }
{
    let mut frames = frames.into_items();
    let last = frames.pop()?;
    Some((Many::of(frames), last))
}

/// A `)` behind an expression.
fn close(alloc: Global, frames: Many<Frame>, argument: Part) -> Result<State, Stop>
    ensures { (reads : List Read) → StepGives result reads (step_at_close reads argument (split_last frames)) }
{
    let (frames, frame) = innermost(frames).ok_or(Stop::Syntax)?;
    let Frame { level, opening } = frame;
    match closed_part(alloc, opening, argument)? {
        Some(part) => Ok(State::of(frames, level, Mode::Behind(part))),
        None => Err(Stop::Syntax),
    }
}

/// A `,` behind an expression.
fn comma(frames: Many<Frame>, argument: Part) -> Result<State, Stop>
    ensures { (reads : List Read) → StepGives result reads (step_at_comma reads argument (split_last frames)) }
{
    let (frames, frame) = innermost(frames).ok_or(Stop::Syntax)?;
    let Frame { level, opening } = frame;
    match next_opening(opening, argument) {
        Some(opening) => Ok(opened(frames, level, opening)?),
        None => Err(Stop::Syntax),
    }
}

/// Behind an operand.
fn behind(
    alloc: Global,
    frames: Many<Frame>,
    level: Level,
    operand: Part,
    token: Token,
) -> Result<State, Stop>
    ensures { (reads : List Read) → StepGives result reads (step_after_operand reads frames level operand token) }
{
    match token {
        Token::Sum(sign) => {
            let left = expr_at(alloc, level, operand)?;
            let level = Level {
                sum: Some(Sum { left, sign }),
                product: None,
                minus: 0,
            };
            Ok(State::of(frames, level, Mode::Wanted))
        }
        Token::Product(sign) => {
            let left = term_at(alloc, level.product, level.minus, operand)?;
            let level = Level {
                sum: level.sum,
                product: Some(Product { left, sign }),
                minus: 0,
            };
            Ok(State::of(frames, level, Mode::Wanted))
        }
        Token::Close => close(alloc, frames, expr_at(alloc, level, operand)?),
        Token::Comma => comma(frames, expr_at(alloc, level, operand)?),
        _ => Err(Stop::Syntax),
    }
}

/// A field at the cell itself.
pub fn here(field: u16) -> Read
    ensures { result ≡ read_here field }
{
    Read {
        name: ReadName::Field(field),
        dx: 0,
        dy: 0,
    }
}

/// Behind a field's name: a read at the cell itself, unless brackets follow.
fn named(
    alloc: Global,
    reads: &mut IndexSet<Read>,
    frames: Many<Frame>,
    level: Level,
    field: u16,
    token: Token,
) -> Result<State, Stop>
    requires { length reads.old.keys < 2 ^ 32 }
    ensures gives { StepGives result reads.new.keys (step_after_name reads.old.keys frames level field token) }
    ensures few { IfOk result (λ next. length reads.new.keys ≤ length reads.old.keys + 1) }
{
    if let Token::OpenBracket = token {
        let mode = Mode::Column {
            field,
            minus: false,
        };
        return Ok(State::of(frames, level, mode));
    }
    let operand = read_part(alloc, reads, here(field))?;
    behind(alloc, frames, level, operand, token)
}

/// Behind a function's name.
fn called(
    frames: Many<Frame>,
    level: Level,
    function: Function,
    token: Token,
) -> Result<State, Stop>
    ensures { (reads : List Read) → StepGives result reads (step_at_call reads frames level function token) }
{
    match token {
        Token::Open => Ok(opened(frames, level, opening_of(function))?),
        _ => Err(Stop::Syntax),
    }
}

/// The state behind one more token, or why no formula goes on with it. The reads that the token ends are
/// noted.
pub fn step(
    alloc: Global,
    reads: &mut IndexSet<Read>,
    state: State,
    token: Token,
) -> Result<State, Stop>
    requires { length reads.old.keys < 2 ^ 32 }
    ensures gives { StepGives result reads.new.keys (step reads.old.keys state token) }
    ensures few { IfOk result (λ next. length reads.new.keys ≤ length reads.old.keys + 1) }
{
    let State {
        frames,
        level,
        mode,
    } = state;
    match mode {
        Mode::Wanted => wanted(alloc, reads, frames, level, token),
        Mode::Called(function) => called(frames, level, function, token),
        Mode::Named(field) => named(alloc, reads, frames, level, field, token),
        Mode::Column { field, minus } => column(frames, level, field, minus, token),
        Mode::Between { field, dx } => between(frames, level, field, dx, token),
        Mode::Row { field, dx, minus } => row(frames, level, field, dx, minus, token),
        Mode::Ending { field, dx, dy } => {
            let name = ReadName::Field(field);
            ending(alloc, reads, frames, level, Read { name, dx, dy }, token)
        }
        Mode::Behind(operand) => behind(alloc, frames, level, operand, token),
    }
}
