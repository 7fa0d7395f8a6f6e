//! Why an average isn't made.

/// No field was kept since the last average, so there is none.
#[derive(Clone, Copy, Debug, PartialEq, Eq)]
pub struct AverageEmpty;
