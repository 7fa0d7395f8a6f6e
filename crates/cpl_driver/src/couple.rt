//! The top call: the words of a command to a reply, and the reply to the streams.

ghost use Rattle.std.specs.Prelude.{◌≡◌, ◌≤◌, IfOk, map, option_map, string_bytes};
ghost use Rattle.cpl_driver.specs.Answers.{file_to_run, is_file_word, reply_for};
ghost use Rattle.cpl_driver.specs.Calls.{HasCauses, IsDone, IsSerial};
ghost use Rattle.cpl_driver.specs.Causes.{IsDelivery, IsFileReply, call, stream};
ghost use Rattle.cpl_driver.specs.Files.{system_of};
ghost use Rattle.cpl_driver.specs.Replies.{reply_of};

use crate::reading::read_system;
use crate::report::{NOT_YET_BUILT, USAGE, read_fault, report, too_long};
use crate::running::run;
use crate::status::Status;
use crate::unread::Unread;
use cpl_base::{LoadFault, Memory, Shelf, Sink, write_all};
use std::alloc::Global;

/// A resource file has so many bytes at the most: 4 MiB.
const MOST_BYTES: usize = 4_194_304;

/// A status, and the text that goes with it.
#[derive(Debug, Drop)]
pub struct Reply {
    pub status: Status,
    pub text: Vec<u8>,
}

/// Runs the command that the words ask for: `run CONF` reads the resource file CONF from the shelf, runs
/// the system that it describes, and writes the report to `out`. What goes wrong is written to `err`.
/// The answer is how the command ended; it always returns.
///
/// The words are those of a command line, without the program's name. CONF isn't empty and doesn't begin
/// with `-`; a file of more than 4 MiB is refused. All memory is taken before the first write.
///
/// Source: the Driver of the NUOPC Layer; words, texts and statuses are this project's own.
pub fn couple_solo<H: Shelf, O: Sink, E: Sink>(
    alloc: Global,
    words: &[String],
    shelf: &mut H,
    out: &mut O,
    err: &mut E,
) -> Status
    // Over a shelf and streams that tell what they hold, with no fault and memory enough, status and
    // bytes are those of the serial reading of the run sequence.
    ensures serial { IsSerial (call (map string_bytes words.now) (H.files shelf.old) (H.faults shelf.old) (H.faults shelf.new)
        (stream (O.sent out.old) (O.sent out.new) (O.faults out.old) (O.faults out.new))
        (stream (E.sent err.old) (E.sent err.new) (E.faults err.old) (E.faults err.new)) result) }

    // Every status has its cause, over every shelf and every stream.
    ensures causes { HasCauses (call (map string_bytes words.now) (H.files shelf.old) (H.faults shelf.old) (H.faults shelf.new)
        (stream (O.sent out.old) (O.sent out.new) (O.faults out.old) (O.faults out.new))
        (stream (E.sent err.old) (E.sent err.new) (E.faults err.old) (E.faults err.new)) result) }

    // There is a reply with its cause, and it was delivered or a write of it failed.
    ensures done { IsDone (call (map string_bytes words.now) (H.files shelf.old) (H.faults shelf.old) (H.faults shelf.new)
        (stream (O.sent out.old) (O.sent out.new) (O.faults out.old) (O.faults out.new))
        (stream (E.sent err.old) (E.sent err.new) (E.faults err.old) (E.faults err.new)) result) }
{
    answer_words(alloc, words, shelf, out, err)
}

/// Finds the reply to the words, and delivers it.
fn answer_words<H: Shelf, O: Sink, E: Sink>(
    alloc: Global,
    words: &[String],
    shelf: &mut H,
    out: &mut O,
    err: &mut E,
) -> Status
    ensures { IsDone (call (map string_bytes words.now) (H.files shelf.old) (H.faults shelf.old) (H.faults shelf.new)
        (stream (O.sent out.old) (O.sent out.new) (O.faults out.old) (O.faults out.new))
        (stream (E.sent err.old) (E.sent err.new) (E.faults err.old) (E.faults err.new)) result) }
{
    let Some(name) = file_to_run(words) else {
        return deliver(Status::Usage, USAGE, out, err);
    };
    match reply_to(alloc, name, shelf) {
        Err(Memory) => Status::Memory,
        Ok(reply) => deliver(reply.status, reply.text.as_slice(), out, err),
    }
}

/// Whether a word names a file: it isn't empty and doesn't begin with `-`.
fn is_file(word: &str) -> bool
    ensures { result ≡ is_file_word word.now }
{
    !matches!(word.as_bytes(), [] | [b'-', ..])
}

/// The file to run, where the words are `run FILE`.
fn file_to_run(words: &[String]) -> Option<&str>
    ensures { option_map (λ file. file.now) result ≡ file_to_run (map string_bytes words.now) }
{
    match words {
        [command, file] if command.as_str() == "run" && is_file(file.as_str()) => Some(
            file.as_str(),
        ),
        _ => None,
    }
}

/// The reply to the file of this name.
fn reply_to<H: Shelf>(alloc: Global, name: &str, shelf: &mut H) -> Result<Reply, Memory>
    ensures reply { IfOk result (λ reply. IsFileReply name.now (H.files shelf.old) (H.faults shelf.old) (H.faults shelf.new) (reply_of reply)) }
    ensures counts { H.faults shelf.old ≤ H.faults shelf.new }
{
    match shelf.load(alloc, name, MOST_BYTES) {
        Ok(bytes) => reply_to_bytes(alloc, bytes.as_slice()),
        Err(LoadFault::TooLong) => Ok(Reply {
            status: Status::Refused,
            text: too_long(alloc, name)?,
        }),
        Err(LoadFault::Failed) => Ok(Reply {
            status: Status::ReadFault,
            text: read_fault(alloc, name)?,
        }),
        Err(LoadFault::Memory) => Err(Memory),
    }
}

/// The reply to a file with these bytes: the report of the system that they describe, or a refusal.
fn reply_to_bytes(alloc: Global, bytes: &[u8]) -> Result<Reply, Memory>
    ensures { IfOk result (λ reply. reply_of reply ≡ reply_for (system_of bytes.now)) }
{
    match read_system(alloc, bytes) {
        Ok(system) => {
            let ending = run(alloc, &system)?;
            Ok(Reply {
                status: Status::Ok,
                text: report(alloc, &system, &ending)?,
            })
        }
        Err(Unread::NotYetBuilt) => Ok(Reply {
            status: Status::Refused,
            text: Vec::from_slice(alloc, NOT_YET_BUILT)?,
        }),
        Err(Unread::Memory) => Err(Memory),
    }
}

/// Writes a text to the stream that its status has it go to, and answers that status, or `WriteFault`.
fn deliver<O: Sink, E: Sink>(status: Status, text: &[u8], out: &mut O, err: &mut E) -> Status
    ensures { IsDelivery status text.now
        (stream (O.sent out.old) (O.sent out.new) (O.faults out.old) (O.faults out.new))
        (stream (E.sent err.old) (E.sent err.new) (E.faults err.old) (E.faults err.new)) result }
{
    let written = match status {
        Status::Ok => write_all(out, text),
        _ => write_all(err, text),
    };
    match written {
        Ok(()) => status,
        Err(_) => Status::WriteFault,
    }
}
