//! The options of a link by their words, and how values go over by them.

use cpl_sequence::Method;

/// The values of the options that have an effect, where they are given.
#[derive(Clone, Copy)]
pub(crate) struct OptionWords<'a> {
    /// The name of the method.
    pub method: Option<&'a [u8]>,
    /// The name of the file of weights.
    pub file: Option<&'a [u8]>,
    /// How many terms are summed at the source.
    pub terms: Option<&'a [u8]>,
}

/// How values go over.
#[derive(Clone, Copy)]
pub(crate) struct TransferWords<'a> {
    /// The method.
    pub method: Method,
    /// The name of the file of weights; empty where the method needs none.
    pub file: &'a [u8],
    /// How many terms are summed at the source.
    pub terms: i64,
}
