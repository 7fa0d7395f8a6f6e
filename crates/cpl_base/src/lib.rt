//! The bottom of the coupler: the numbers of a run and their texts, what a run knows of files and
//! streams, and small types that every crate above shares.
//!
//! Nothing here knows of components, grids or time.
#![tactic(auto)]

mod cuts;
mod digits;
mod divisor;
mod examples;
mod file_shelf;
mod many;
mod mem_shelf;
mod mem_sink;
mod memory;
mod names;
mod numeral;
mod rounding;
mod shelf;
mod sink;
mod std_sink;
mod text;
mod value;

pub use cuts::{cut, is_blank, joined, rest_behind, split_sign, words};
pub use digits::{
    decimal, is_decimal, number_between, number_word, signed_number_word, write_number,
};
pub use divisor::Divisor;
pub use examples::{rounding_examples, text_examples, value_examples};
pub use file_shelf::FileShelf;
pub use many::Many;
pub use mem_shelf::MemShelf;
pub use mem_sink::MemSink;
pub use memory::Memory;
pub use names::{are_name_bytes, first_repeat, is_letter, is_name, is_name_byte, place_of};
pub use numeral::read_numeral;
pub use rounding::{div, mul, near};
pub use shelf::{LoadFault, Shelf};
pub use sink::{Sink, SinkFailed, write_all};
pub use std_sink::StdSink;
pub use text::Text;
pub use value::{GREATEST, MILLION, ValFault, clip, read_val, write_val};
