//! What a file says of a run as a whole.

use cpl_dict::Dict;
use cpl_head::{AlarmTable, Head};

/// What a file says of a run before its components.
#[derive(Drop)]
pub(crate) struct Settings {
    /// The names of the components, and the times of the run.
    pub head: Head,
    /// The field dictionary.
    pub dict: Dict,
    /// The alarms.
    pub alarms: AlarmTable,
}
