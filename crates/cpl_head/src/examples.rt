//! Definitions of `specs/`, evaluated.

ghost use Rattle.cpl_head.specs.Examples.{AlarmExamples, DictionaryExamples, HeadExamples};

/// The definitions of a file's head, of its dictionary and of its alarms, evaluated on small files.
pub fn head_examples()
    ensures head { HeadExamples }
    ensures dictionary { DictionaryExamples }
    ensures alarms { AlarmExamples }
{}
