//! Tests of traces: logs that are merged, and the text.
#![tactic(auto)]

#[cfg(test)]
mod logs;
#[cfg(test)]
mod texts;
