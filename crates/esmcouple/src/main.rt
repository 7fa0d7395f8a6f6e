//! The program `esmcouple`: runs the coupled system that a resource file describes.
//!
//! It hands its words to the driver, and ends with the number of the status. Words that are no text
//! end it with 2, and want of memory for the words with 6; then nothing is written.
#![tactic(auto)]

use cpl_base::{FileShelf, StdSink};
use cpl_driver::{Status, couple_solo};
use std::process::ExitCode;
use std::rt::Env;
use std::{env, io};

/// The words of the command line, without the program's name.
fn words(rt: &(impl Env + AllocGlobal)) -> io::Result<Vec<String>> {
    let words = env::args(rt)?.skip(1).collect(rt.alloc())?;
    Ok(words)
}

fn main(rt: HostRuntime) -> ExitCode {
    let status = match words(&rt) {
        Err(error) if error.kind() == io::ErrorKind::OutOfMemory => Status::Memory,
        Err(_) => Status::Usage,
        Ok(words) => {
            let alloc = rt.alloc();
            let mut out = StdSink::new(rt.stdout());
            let mut err = StdSink::new(rt.stderr());
            let mut shelf = FileShelf::new(rt);
            couple_solo(alloc, words.as_slice(), &mut shelf, &mut out, &mut err)
        }
    };
    ExitCode::from(status as u8)
}
