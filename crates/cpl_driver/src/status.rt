//! How a command ended.

/// How a command ended. Its number is the exit status of the program.
#[derive(Clone, Copy, Debug, PartialEq, Eq)]
pub enum Status {
    /// The run ended, and its report is written to standard output.
    Ok = 0,
    /// The words are no command; the usage line is written to standard error.
    Usage = 2,
    /// The resource file was refused; why is written to standard error.
    Refused = 3,
    /// A file couldn't be read; its name is written to standard error.
    ReadFault = 4,
    /// A write failed; what was written is a proper prefix of what belongs there.
    WriteFault = 5,
    /// Memory ran out; nothing was written.
    Memory = 6,
}
