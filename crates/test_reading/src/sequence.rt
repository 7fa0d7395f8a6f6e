//! Run sequences: which are refused, and the operations of those that aren't.

ghost use Rattle.std.specs.Prelude.{◌≤◌, ◌≤ℤ◌, ◌<ℤ◌, ◌^◌, pos, length, IfOk, IfSome};
ghost use Rattle.cpl_runseq.specs.Asked.{HasFewPhases, IsStep};
ghost use Rattle.cpl_runseq.specs.Remainder.{IsCursorOf};

use cpl_base::{Many, Memory, Text};
use cpl_config::{Items, read_items};
use cpl_runseq::{Cursor, Method, Op, Seq, SeqFault, SeqName, read_sequence, reading_examples};
use cpl_sequence::{run_total, sequence_examples};
use cpl_text::lines;
use std::alloc::Global;
use std::process::Abort;
use std::test::Fail;

/// How long a run may last in these tests, in seconds.
const ROOM: i64 = 1_099_511_627_776;

/// Why a text is no run sequence.
#[derive(Clone, Copy, Debug, PartialEq, Eq)]
enum Refused {
    /// It has no items.
    Items,
    /// Its rows aren't in order.
    Rows(SeqFault),
}

impl From<Memory> for Refused {
    fn from(_memory: Memory) -> Refused {
        Refused::Rows(SeqFault::Memory)
    }
}

/// A component of this name, whose one phase or two are called `first` and `second`.
fn component(alloc: Global, name: &[u8], two: bool, substep: Option<i64>) -> Result<SeqName, Memory>
    requires { IfSome substep IsStep }
    ensures few { IfOk result HasFewPhases }
    ensures some { IfOk result (λ name. 1 ≤ length name.phases) }
    ensures steps { IfOk result (λ name. IfSome name.substep IsStep) }
{
    let mut phases = Vec::new(alloc);
    phases.push(Text::of(alloc, b"first")?)?;
    if two {
        phases.push(Text::of(alloc, b"second")?)?;
    }
    Ok(SeqName {
        name: Text::of(alloc, name)?,
        phases: Many::of(phases),
        substep,
    })
}

/// The sequence of the table `runSeq` over the components A, of two phases, B, whose steps cover at most
/// two seconds, and C.
fn sequence_in(
    alloc: Global,
    items: &Items,
    span: Option<i64>,
    time_step: Option<i64>,
) -> Result<Seq, Refused>
    requires least { IfSome span (λ s. pos 1 ≤ℤ s) }
    requires below { IfSome span (λ s. s <ℤ pos (2 ^ 40)) }
    requires step { IfSome time_step IsStep }
{
    let rows = items.table(b"runSeq").unwrap_or(&[]);
    let names = [
        component(alloc, b"A", true, None)?,
        component(alloc, b"B", false, Some(2))?,
        component(alloc, b"C", false, None)?,
    ];
    match read_sequence(alloc, rows, &names, span, time_step, ROOM) {
        Ok(sequence) => Ok(sequence),
        Err(fault) => Err(Refused::Rows(fault)),
    }
}

/// The sequence of a text, over a span and by a time step in seconds.
fn sequence(
    alloc: Global,
    text: &[u8],
    span: Option<i64>,
    time_step: Option<i64>,
) -> Result<Seq, Refused>
    requires least { IfSome span (λ s. pos 1 ≤ℤ s) }
    requires below { IfSome span (λ s. s <ℤ pos (2 ^ 40)) }
    requires step { IfSome time_step IsStep }
{
    if text.len() > 16_777_216 {
        return Err(Refused::Items);
    }
    match lines(alloc, text) {
        Ok(lines) => match &read_items(alloc, text, lines.as_slice()) {
            Ok(items) => sequence_in(alloc, items, span, time_step),
            Err(_) => Err(Refused::Items),
        },
        Err(_) => Err(Refused::Items),
    }
}

/// The sequence of a text, over a span below 2^40 seconds.
fn sequence_over(alloc: Global, text: &[u8], span: Option<i64>) -> Result<Seq, Refused>
    requires least { IfSome span (λ s. pos 1 ≤ℤ s) }
    requires below { IfSome span (λ s. s <ℤ pos (2 ^ 40)) }
{
    sequence(alloc, text, span, None)
}

/// The k-th operation, if there is one.
fn operation(sequence: &Seq, k: u64) -> Option<Op> {
    if k < sequence.op_count() {
        Some(Cursor::op(sequence, k))
    } else {
        None
    }
}

/// Asserts that a cursor gives the operations in their order, and then nothing.
fn follow(rt: &impl Abort, sequence: &Seq, cursor: &mut Cursor)
    requires { IsCursorOf sequence.now cursor.old }
{
    'operations: for k in 0..sequence.op_count() {
        assert_eq!(rt; cursor.next(sequence), operation(sequence, k));
    }
    assert_eq!(rt; cursor.next(sequence), None);
}

/// Asserts that a sequence has so many operations, and that a cursor gives each in its order.
fn expect_count(rt: &impl Abort, alloc: Global, sequence: &Seq, count: u64) {
    assert_eq!(rt; sequence.op_count(), count);
    assert_eq!(rt; operation(sequence, count), None);
    match Cursor::start(alloc, sequence) {
        Ok(mut cursor) => follow(rt, sequence, &mut cursor),
        Err(_) => panic!(rt; "memory"),
    }
}

/// A run of the first phase of a component, which takes the whole step.
fn whole_step(component: u8, time: i64, step: i64) -> Op {
    Op::Run {
        component,
        phase: 0,
        time,
        step,
        at: time,
        substep: step,
        first: true,
        last: true,
    }
}

#[test]
fn rows_that_are_refused(rt: HostRuntime) {
    let cases: [(&[u8], SeqFault); 24] = [
        (b"runSeq::\n@\n::\n", SeqFault::LoopStray { line: 2 }),
        (b"runSeq::\n@0:4\n::\n", SeqFault::BadStep { line: 2 }),
        (b"runSeq::\n@@\n::\n", SeqFault::BadElement { line: 2 }),
        (b"runSeq::\n@2:4\n@1:4\n::\n", SeqFault::BadStep { line: 3 }),
        (
            b"runSeq::\n@1:1\n@1\n@1\n@1\n@1\n@1\n@1\n@1\n@1\n::\n",
            SeqFault::LoopTooDeep { line: 10 },
        ),
        (b"runSeq::\n@*:3\n::\n", SeqFault::StepUnset { line: 2 }),
        (b"runSeq::\n@2:5\n::\n", SeqFault::StepUneven { line: 2 }),
        (
            b"runSeq::\n@6:6\n@4\n::\n",
            SeqFault::StepUneven { line: 3 },
        ),
        (b"runSeq::\nA\n@\n::\n", SeqFault::OutsideLoop { line: 2 }),
        (b"runSeq::\nA -> C\n::\n", SeqFault::OutsideLoop { line: 2 }),
        (
            b"runSeq::\n@1:1\nD\n::\n",
            SeqFault::ComponentUnknown { line: 3 },
        ),
        (
            b"runSeq::\n@1:1\nA->D\n::\n",
            SeqFault::ComponentUnknown { line: 3 },
        ),
        (
            b"runSeq::\n@1:1\nB second\n::\n",
            SeqFault::PhaseUnknown { line: 3 },
        ),
        (
            b"runSeq::\n@3:3\nB\n::\n",
            SeqFault::SubstepUneven { line: 3 },
        ),
        (
            b"runSeq::\n@1:1\nA->A\n::\n",
            SeqFault::SelfLink { line: 3 },
        ),
        (
            b"runSeq::\n@1:1\nA -> C :remapMethod=bilinear\n::\n",
            SeqFault::MethodUnsupported { line: 3 },
        ),
        (
            b"runSeq::\n@1:1\nA -> C\nA->C :srcTermProcessing=1\n::\n",
            SeqFault::OptionsDiffer { line: 4 },
        ),
        (
            b"runSeq::\n@1:1\nA -> C :remapMethod=weights:weightFile=\n::\n",
            SeqFault::BadElement { line: 3 },
        ),
        (
            b"runSeq::\n@1:1\nA -> C :x=1->:y=2\n::\n",
            SeqFault::BadElement { line: 3 },
        ),
        (
            b"runSeq::\n@1:1\nA -> C :remapMethod=weights:weightFile=a.csv\nA -> C :remapMethod=weights:weightFile=b.csv\n::\n",
            SeqFault::OptionsDiffer { line: 4 },
        ),
        (
            b"runSeq::\n@1:1\nA first B\n::\n",
            SeqFault::BadElement { line: 3 },
        ),
        (
            b"runSeq::\n@2:2\n@1\nA\n::\n",
            SeqFault::LoopUnclosed { line: 3 },
        ),
        (
            b"runSeq::\n@1\nA\n@\n::\n",
            SeqFault::DurationMissing { line: 2 },
        ),
        (
            b"runSeq::\n@1:1\nD\n@\n@\n@0\n::\n",
            SeqFault::ComponentUnknown { line: 3 },
        ),
    ];
    for (text, wanted) in cases {
        let refusal = sequence(rt.alloc(), text, None, None).err();
        assert_eq!(rt; refusal, Some(Refused::Rows(wanted)));
    }
    reading_examples();
    sequence_examples();
}

#[test]
fn spans_that_are_refused(rt: HostRuntime) {
    let cases: [(&[u8], Option<i64>, SeqFault); 7] = [
        (
            b"runSeq::\n@7\nA\n@\n::\n",
            Some(3_600),
            SeqFault::StepUneven { line: 2 },
        ),
        (
            b"runSeq::\n@900:1800\nA\n@\n@900:900\nA\n@\n::\n",
            Some(3_600),
            SeqFault::SpanMismatch {
                have: 2_700,
                want: 3_600,
            },
        ),
        // Nothing is left for the last loop, whose step would not divide it either.
        (
            b"runSeq::\n@2:4\nA\n@\n@7\nA\n@\n::\n",
            Some(3),
            SeqFault::SpanMismatch { have: 4, want: 3 },
        ),
        (
            b"runSeq::\n::\n",
            Some(5),
            SeqFault::SpanMismatch { have: 0, want: 5 },
        ),
        (
            b"runSeq::\n@1\nA\n@\n@1:1\nA\n@\n::\n",
            Some(5),
            SeqFault::DurationMissing { line: 2 },
        ),
        (b"runSeq::\n::\n", None, SeqFault::SpanTooLong { span: 0 }),
        (
            b"runSeq::\n@1:1000000000000\n@\n@1:1000000000000\n@\n::\n",
            None,
            SeqFault::SpanTooLong {
                span: 2_000_000_000_000,
            },
        ),
    ];
    for (text, span, wanted) in cases {
        let refusal = sequence_over(rt.alloc(), text, span).err();
        assert_eq!(rt; refusal, Some(Refused::Rows(wanted)));
    }
}

/// Asserts that a text is a sequence of so many operations, with this one at place `k`.
fn expect_operation(rt: &impl Abort, alloc: Global, text: &[u8], count: u64, k: u64, wanted: Op) {
    match &sequence(alloc, text, None, None) {
        Ok(sequence) => {
            expect_count(rt, alloc, sequence, count);
            assert_eq!(rt; operation(sequence, k), Some(wanted));
        }
        Err(_) => panic!(rt; "refused"),
    }
}

#[test]
fn operations_of_nested_loops(rt: HostRuntime) {
    let alloc = rt.alloc();
    let nested = b"runSeq::\n@4:8\nA\n@2\nC\n@\n@\n::\n";
    expect_operation(&rt, alloc, nested, 6, 2, whole_step(2, 2, 2));
    expect_operation(&rt, alloc, nested, 6, 3, whole_step(0, 4, 4));
    let shorter = b"runSeq::\n@4:8\n@1:3\nC\n@\nA\n@\n@2:2\nC\n@\n::\n";
    expect_operation(&rt, alloc, shorter, 9, 3, whole_step(0, 0, 4));
    expect_operation(&rt, alloc, shorter, 9, 8, whole_step(2, 8, 2));
}

#[test]
fn operations_of_substeps_and_links(rt: HostRuntime) {
    let text = b"runSeq::\n@4:8\nA->B\nB\nA second\n@\n::\n";
    let link = Op::Link {
        link: 0,
        at_init: false,
    };
    expect_operation(&rt, rt.alloc(), text, 8, 4, link);
    let last = Op::Run {
        component: 1,
        phase: 0,
        time: 4,
        step: 4,
        at: 6,
        substep: 2,
        first: false,
        last: true,
    };
    expect_operation(&rt, rt.alloc(), text, 8, 6, last);
}

#[test]
fn links_and_their_options(rt: HostRuntime) {
    let text =
        b"runSeq::\n@1:1\nA->B :\nA -> C :remapMethod=weights:weightFile=w.csv:srcTermProcessing=-2\nB -> C :weightFile=a.csv\nB -> C :WEIGHTFILE=b.csv\n@\n::\n";
    let wanted: [(u8, u8, Method, &[u8], i64, u32); 3] = [
        (0, 1, Method::Redist, b"", 0, 3),
        (0, 2, Method::Weights, b"w.csv", -2, 4),
        (1, 2, Method::Redist, b"", 0, 5),
    ];
    match &sequence(rt.alloc(), text, None, None) {
        Ok(sequence) => {
            assert_eq!(rt; sequence.links().len(), wanted.len());
            for ((src, dst, method, file, terms, line), link) in wanted
                .iter()
                .zip(sequence.links())
            {
                assert!(rt; link.src == *src && link.dst == *dst && link.line == *line);
                assert!(rt;
                    link.method == *method && link.file.bytes() == *file && link.terms == *terms
                );
            }
        }
        Err(_) => panic!(rt; "refused"),
    }
}

/// Asserts that a text is a sequence that lasts so long and has so many operations, with this one at place
/// `k`, and that a cursor gives each of them.
fn expect_span(
    rt: &impl Abort,
    alloc: Global,
    text: &[u8],
    span: i64,
    count: u64,
    k: u64,
    wanted: Option<Op>,
) {
    match &sequence(alloc, text, None, None) {
        Ok(sequence) => {
            assert_eq!(rt; sequence.span(), span);
            expect_count(rt, alloc, sequence, count);
            assert_eq!(rt; operation(sequence, k), wanted);
        }
        Err(_) => panic!(rt; "refused"),
    }
}

#[test]
fn loops_in_which_nothing_runs(rt: HostRuntime) {
    let cases: [(&[u8], i64, u64, u64, Option<Op>); 5] = [
        // A top loop stays, and its time passes.
        (
            b"runSeq::\n@1:200000000000\n@\n@1:1\nC\n@\n::\n",
            200_000_000_001,
            1,
            0,
            Some(whole_step(2, 200_000_000_000, 1)),
        ),
        // Nested ones go, however deep.
        (
            b"runSeq::\n@1000000000:200000000000\n@1\n@1\n@1\n@1\n@1\n@1\n@1\n@\n@\n@\n@\n@\n@\n@\n@\n::\n",
            200_000_000_000,
            0,
            0,
            None,
        ),
        (
            b"runSeq::\n@500000000:1000000000\n@1\n@\nC\n@1:250000000\n@1\n@\n@\n@\n::\n",
            1_000_000_000,
            2,
            1,
            Some(whole_step(2, 500_000_000, 500_000_000)),
        ),
        // Empty top loops before, between and behind others.
        (
            b"runSeq::\n@1:3\n@\n@2:2\n@\n@2:4\nA\nC\n@\n@1:1000\n@\n@1:1\n@\n@5:5\nA\n@\n@1:9\n@\n::\n",
            1_024,
            5,
            4,
            Some(whole_step(0, 1_010, 5)),
        ),
        (
            b"runSeq::\n@4:8\nB\n@2\nA->C\n@1:1\n@\n@1:2\nC\n@1\n@\n@\n@\n@1:3\n@\nA\n@\n::\n",
            8,
            18,
            16,
            Some(whole_step(2, 7, 1)),
        ),
    ];
    for (text, span, count, k, wanted) in cases {
        expect_span(&rt, rt.alloc(), text, span, count, k, wanted);
    }
}

#[test]
fn operations_of_long_loops(rt: HostRuntime) {
    let many = b"runSeq::\n@1:1000000000000\nA\nC\nA second\n@\n::\n";
    match &sequence(rt.alloc(), many, None, None) {
        Ok(sequence) => {
            assert_eq!(rt; sequence.op_count(), 3_000_000_000_000);
            let last = operation(sequence, 2_999_999_999_998);
            assert_eq!(rt; last, Some(whole_step(2, 999_999_999_999, 1)));
        }
        Err(_) => panic!(rt; "refused"),
    }
}

#[test]
fn a_hundred_thousand_operations(rt: HostRuntime) {
    let text = b"runSeq::\n@*:80000\nA\nB\n@2\nC->A\n@\n@\n::\n";
    match &sequence(rt.alloc(), text, None, Some(4)) {
        Ok(sequence) => {
            assert_eq!(rt; sequence.links().len(), 1);
            expect_count(&rt, rt.alloc(), sequence, 100_000);
        }
        Err(_) => panic!(rt; "refused"),
    }
}

/// Panics unless the runs of the sequence of a text count so much as they end.
fn expect_runs(rt: &impl Abort, alloc: Global, text: &[u8], counts: &[u64], wanted: u64) {
    match &sequence(alloc, text, None, None) {
        Ok(sequence) => assert_eq!(rt; run_total(sequence, counts), wanted),
        Err(_) => panic!(rt; "refused"),
    }
}

#[test]
fn runs_that_end(rt: HostRuntime) {
    let nested = b"runSeq::\n@4:8\n@1:3\nC\n@\nA\n@\n@2:2\nC\n@\n::\n";
    let parts = b"runSeq::\n@4:8\nA->B\nB\nA second\n@\n::\n";
    let long = b"runSeq::\n@1:1000000000000\nA\nC\nA second\n@\n::\n";
    let cases: [(&[u8], &[u64], u64); 7] = [
        (nested, &[1, 0, 0], 2),
        (nested, &[10, 100, 1_000], 7_020),
        // A run of two operations ends once.
        (parts, &[10, 100, 1_000], 220),
        (parts, &[], 0),
        (long, &[1], 2_000_000_000_000),
        (long, &[1, 5, 1], 3_000_000_000_000),
        (
            long,
            &[18_446_744_073_709_551_615],
            18_446_744_073_709_551_615,
        ),
    ];
    for (text, counts, wanted) in cases {
        expect_runs(&rt, rt.alloc(), text, counts, wanted);
    }
}
