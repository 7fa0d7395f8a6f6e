//! The system of a file.

ghost use Rattle.std.specs.Prelude.{◌≡◌, ◌<◌, ◌^◌, ◌-◌, length, IfOk, IfSome};
ghost use Rattle.cpl_base.specs.Gives.{Gives};
ghost use Rattle.cpl_base.specs.Outside.{Stays};
ghost use Rattle.cpl_build.specs.Builds.{files_asked, files_asked_in, parts_of, sized_system, system_in, system_of, trace_check, traced_system};
ghost use Rattle.cpl_build.specs.Causes.{Follows, request, visit};
ghost use Rattle.cpl_build.specs.Outlines.{inputs_of};
ghost use Rattle.cpl_entry.specs.Books.{entries_of};
ghost use Rattle.cpl_entry.specs.Entries.{signs_of};
ghost use Rattle.cpl_script.specs.Sound.{AreParts, CallsEntries};
ghost use Rattle.cpl_script.specs.Systems.{coupling_of};

use crate::fault::{BuildFault, Rejection};
use crate::outline::Outline;
use crate::reading::outline_of;
use crate::refusals::{system_refusal, trace_too_long};
use crate::weighing::{file_bytes, weights_in};
use cpl_base::{Many, Shelf};
use cpl_entry::EntryBook;
use cpl_formula::EntrySign;
use cpl_script::{System, SystemParts, trace_rows};
use cpl_smm::Weights;
use std::alloc::Global;

/// A resource file has at most so many bytes: 4 MiB.
const MOST_BYTES: usize = 4_194_304;

/// A trace has at most so many rows.
const MOST_TRACE_ROWS: u64 = 262_144;

/// Loads the resource file of a name from the shelf, and goes on as `build_text`. A resource file has at most 4 MiB.
///
/// Errors: `ReadFault` with the name where the file couldn't be read; `Refused` as 1 TooLong where it is too long; then
/// as `build_text`.
///
/// Source: NUOPC Layer Reference, the driver's set-up; refusals and limits are this project's own.
pub fn build<H: Shelf>(
    alloc: Global,
    shelf: &mut H,
    name: &str,
    book: &EntryBook,
    trace: bool,
) -> Result<System, BuildFault>
    ensures told { H.files shelf.new ≡ H.files shelf.old }
    // Over a shelf that tells its files, and with no fault, it is what the definition gives, or memory ran out.
    ensures answer { Stays (H.faults shelf.old) (H.faults shelf.new) → IfSome (H.files shelf.old) (λ files. Gives BuildFault.Memory (λ system. system) result (system_of files (signs_of (entries_of book.now)) trace name.now)) }
    // Over every shelf each answer has its cause.
    ensures causes { Follows (visit (H.files shelf.old) (H.faults shelf.old) (H.faults shelf.new))
        (request (λ files. system_of files (signs_of (entries_of book.now)) trace name.now) (λ files. files_asked files (signs_of (entries_of book.now)) name.now))
        (λ system. system) result }
    // Native rules call entries of this book.
    ensures entries { IfOk result (CallsEntries (inputs_of (signs_of (entries_of book.now)))) }
{
    system_of(alloc, shelf, name.as_bytes(), book.signs(), trace)
}

/// The system of a text, with native entries of a book, and with the weights of its connectors from further files of the
/// shelf. Where a trace is asked for, it is judged whether it isn't too long. There are fewer than 2^32 - 1 bytes.
///
/// The steps, in the order in which refusals are judged: lines, items, what is said of the run as a whole, the field
/// dictionary, the alarms; what the components advertise, one after another, and then the components to their last rules;
/// how many values they have; the run sequence; matching; the order of initialisation; for each connector by weights,
/// in the order of its first line, its file; how many operations there are and how many numbers are moved; how many rows
/// the trace has. A file of weights has at most 64 MiB, and all files together have at most 2^24 records; the record that
/// passes this is refused before its other faults. A file is dropped once it is read.
///
/// Errors: `Refused` with the first refusal; `ReadFault` with the name of the first file that couldn't be read, before
/// all later refusals; `Memory`. Over every shelf, a refusal comes only where no load failed.
///
/// Source: NUOPC Layer Reference, the driver's set-up; refusals and limits are this project's own.
pub fn build_text<H: Shelf>(
    alloc: Global,
    bytes: &[u8],
    shelf: &mut H,
    book: &EntryBook,
    trace: bool,
) -> Result<System, BuildFault>
    requires { length bytes.now < 2 ^ 32 - 1 }
    ensures told { H.files shelf.new ≡ H.files shelf.old }
    ensures answer { Stays (H.faults shelf.old) (H.faults shelf.new) → IfSome (H.files shelf.old) (λ files. Gives BuildFault.Memory (λ system. system) result (system_in files (signs_of (entries_of book.now)) trace bytes.now)) }
    ensures causes { Follows (visit (H.files shelf.old) (H.faults shelf.old) (H.faults shelf.new))
        (request (λ files. system_in files (signs_of (entries_of book.now)) trace bytes.now) (λ files. files_asked_in files (signs_of (entries_of book.now)) bytes.now))
        (λ system. system) result }
    ensures entries { IfOk result (CallsEntries (inputs_of (signs_of (entries_of book.now)))) }
{
    system_in(alloc, bytes, shelf, book.signs(), trace)
}

/// The system of the file of a name, with native entries of these labels and numbers of inputs.
fn system_of<H: Shelf>(
    alloc: Global,
    shelf: &mut H,
    name: &[u8],
    signs: &[EntrySign],
    trace: bool,
) -> Result<System, BuildFault>
    requires { length signs.now < 2 ^ 16 }
    ensures told { H.files shelf.new ≡ H.files shelf.old }
    ensures causes { Follows (visit (H.files shelf.old) (H.faults shelf.old) (H.faults shelf.new))
        (request (λ files. system_of files signs.now trace name.now) (λ files. files_asked files signs.now name.now))
        (λ system. system) result }
    ensures entries { IfOk result (CallsEntries (inputs_of signs.now)) }
{
    let bytes = file_bytes(alloc, shelf, name, MOST_BYTES)?;
    system_in(alloc, bytes.as_slice(), shelf, signs, trace)
}

/// The system of a text, with native entries of these labels and numbers of inputs.
fn system_in<H: Shelf>(
    alloc: Global,
    bytes: &[u8],
    shelf: &mut H,
    signs: &[EntrySign],
    trace: bool,
) -> Result<System, BuildFault>
    requires size { length bytes.now < 2 ^ 32 - 1 }
    requires signs { length signs.now < 2 ^ 16 }
    ensures told { H.files shelf.new ≡ H.files shelf.old }
    ensures causes { Follows (visit (H.files shelf.old) (H.faults shelf.old) (H.faults shelf.new))
        (request (λ files. system_in files signs.now trace bytes.now) (λ files. files_asked_in files signs.now bytes.now))
        (λ system. system) result }
    ensures entries { IfOk result (CallsEntries (inputs_of signs.now)) }
{
    let outline = outline_of(alloc, signs, bytes)?;
    let weights = weights_in(alloc, shelf, outline.comps.items(), outline.seq.links())?;
    let system = traced_system(alloc, outline, weights, trace)?;
    Ok(system)
}

/// The system of an outline with these weights, whose trace isn't too long where it is asked for.
#[tactic(auto, unfolding(crate::specs::Builds::traced_system))]
fn traced_system(
    alloc: Global,
    outline: Outline,
    weights: Vec<Option<Weights>>,
    trace: bool,
) -> Result<System, Rejection>
    requires { AreParts (parts_of outline weights.items) }
    ensures answer { Gives Rejection.Memory (λ system. system) result (traced_system outline weights.items trace) }
    ensures parts { IfOk result (λ system. system ≡ coupling_of (parts_of outline weights.items)) }
{
    let system = sized_system(alloc, outline, weights)?;
    check_trace(alloc, trace, &system)?;
    Ok(system)
}

/// The system of an outline with these weights.
fn sized_system(
    alloc: Global,
    outline: Outline,
    weights: Vec<Option<Weights>>,
) -> Result<System, Rejection>
    requires { AreParts (parts_of outline weights.items) }
    ensures answer { Gives Rejection.Memory (λ system. system) result (sized_system outline weights.items) }
    ensures parts { IfOk result (λ system. system ≡ coupling_of (parts_of outline weights.items)) }
{
    let parts = parts_of(outline, weights);
    match System::new(alloc, parts) {
        Ok(system) => Ok(system),
        Err(fault) => Err(system_refusal(alloc, fault)),
    }
}

/// The parts of a system that an outline and weights are.
fn parts_of(outline: Outline, weights: Vec<Option<Weights>>) -> SystemParts
    ensures { result ≡ parts_of outline weights.items }
{
    let Outline {
        comps,
        pets,
        seq,
        pairs,
        init,
        cal,
        start,
        alarms,
    } = outline;
    SystemParts {
        comps,
        seq,
        pairs,
        init,
        weights: Many::of(weights),
        cal,
        start,
        alarms,
        pets,
    }
}

/// Where a trace is asked for, it isn't too long.
fn check_trace(alloc: Global, trace: bool, system: &System) -> Result<(), Rejection>
    ensures { Gives Rejection.Memory (λ _. tt) result (trace_check trace system.now) }
{
    if !trace {
        return Ok(());
    }
    let rows = trace_rows(alloc, system)?;
    if rows > MOST_TRACE_ROWS {
        return Err(trace_too_long(alloc, rows));
    }
    Ok(())
}
