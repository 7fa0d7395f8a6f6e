//! The names of refusals, by their numbers.

ghost use Rattle.std.specs.Prelude.{◌≡◌, ◌<◌, ◌≤◌, length, slice_index_or, []};
ghost use Rattle.cpl_base.specs.Words.{texts};
ghost use Rattle.cpl_report.specs.Refusals.{refusal_name};

/// The name of each refusal, the first that of number 1.
const NAMES: [&[u8]; 73] = [
    b"TooLong",
    b"NotAscii",
    b"BadLine",
    b"StrayClose",
    b"LabelTwice",
    b"Unclosed",
    b"MissingLabel",
    b"BadValue",
    b"TooManyComponents",
    b"BadTime",
    b"YearRange",
    b"NoSuchDay",
    b"StopNotAfter",
    b"NameTwice",
    b"NameUnknown",
    b"UnitsDiffer",
    b"PetOutOfRange",
    b"StandardUnknown",
    b"FieldTwice",
    b"TooManyFields",
    b"PhaseTwice",
    b"TooManyPhases",
    b"NoGrid",
    b"TooManyCells",
    b"BlocksMismatch",
    b"Syntax",
    b"BadNumber",
    b"FarNeighbour",
    b"DeepFormula",
    b"EntryUnknown",
    b"InputsDiffer",
    b"TooManyValues",
    b"BadElement",
    b"LoopStray",
    b"OutsideLoop",
    b"LoopTooDeep",
    b"BadStep",
    b"StepUnset",
    b"StepUneven",
    b"ComponentUnknown",
    b"PhaseUnknown",
    b"SubstepUneven",
    b"SelfLink",
    b"MethodUnsupported",
    b"OptionsDiffer",
    b"LoopUnclosed",
    b"DurationMissing",
    b"SpanMismatch",
    b"SpanTooLong",
    b"Ambiguous",
    b"Unmatched",
    b"SizeDiffers",
    b"Waiting",
    b"BadRecord",
    b"IndexRange",
    b"WeightRange",
    b"PairTwice",
    b"TooManyWeights",
    b"TooManyOps",
    b"TooManyRoutes",
    b"TraceTooLong",
    b"NotYetBuilt",
    b"UnmappedCell",
    b"MigrateTooLong",
    b"MomentUneven",
    b"StateBad",
    b"EdgesMissing",
    b"TooManyFactors",
    b"BadSeries",
    b"SeriesOrder",
    b"SeriesEmpty",
    b"TooManyRecords",
    b"SeriesTooLarge",
];

/// The name of a refusal. Takes no memory.
pub fn refusal_name(number: u8) -> &'static [u8]
    requires least { 0 < number }
    requires most { number ≤ 73 }
    ensures { result.now ≡ refusal_name number }
{
    name_at(&NAMES, number as usize - 1)
}

/// The name at a place.
fn name_at<'a>(names: &[&'a [u8]], place: usize) -> &'a [u8]
    requires { place < length names.now }
    ensures { result.now ≡ slice_index_or (texts names.now) place [] }
{
    names[place]
}
