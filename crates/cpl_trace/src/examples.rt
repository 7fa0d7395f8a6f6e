//! Definitions of `specs/`, evaluated.

ghost use Rattle.cpl_trace.specs.Examples.{TraceExamples};

/// The definitions of traces, evaluated on examples.
pub fn trace_examples()
    ensures { TraceExamples }
{}
