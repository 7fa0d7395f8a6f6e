//! What the rules of a component may name.

use crate::component::{Kind, Role};
use cpl_base::Text;
use cpl_formula::EntrySign;

/// What a rule may name: fields, alarms, and native entries with their numbers of inputs.
#[derive(Clone, Copy)]
pub(crate) struct Scope<'a> {
    /// The names of the component's fields; empty for one that the rule may not read.
    pub fields: &'a [Text],
    /// The names of the alarms.
    pub alarms: &'a [Text],
    /// The native entries.
    pub signs: &'a [EntrySign],
}

/// What the rows of phases are read over.
#[derive(Clone, Copy)]
pub(crate) struct PhaseScope<'a> {
    /// What the component is.
    pub kind: Kind,
    /// What each of its fields is to it.
    pub roles: &'a [Role],
    /// What a rule may name.
    pub rules: Scope<'a>,
}
