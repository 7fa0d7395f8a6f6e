//! What a resource file says before its components: their names, the calendar and the times of the run, the
//! field dictionary, and the alarms.
#![tactic(auto)]

mod alarm_words;
mod alarms;
mod components;
mod dictionary;
mod examples;
mod fault;
mod head;
mod labels;
mod times;

pub use alarms::{AlarmTable, read_alarms};
pub use dictionary::read_dictionary;
pub use examples::head_examples;
pub use fault::{HeadFault, TableFault};
pub use head::{Head, read_head};
