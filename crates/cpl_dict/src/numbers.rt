//! Ascending lists of numbers, one for each place.

ghost use Rattle.std.specs.Prelude.{◌≡◌, ◌<◌, false, OnOk, All, length};
ghost use Rattle.std.specs.List.{HoldsAt};
ghost use Rattle.cpl_dict.specs.Kept.{HasRoom, IsAscending, IsNotedAt, ends_with, lists_of, with_number};
ghost use Rattle.cpl_dict.specs.Numbers.{have_common};

use std::alloc::AllocError;

/// Makes room for one more number in the list of each of these places.
pub(crate) fn make_room(lists: &mut Vec<Vec<usize>>, places: &[usize]) -> Result<(), AllocError>
    requires { All (λ place. place < length lists.old.items) places.now }
    ensures items { lists_of lists.new.items ≡ lists_of lists.old.items }
    ensures room { OnOk result (All (HoldsAt HasRoom lists.new.items) places.now) }
{
    for place in places {
        let list = &mut lists[*place];
        list.reserve(1)?;
    }
    Ok(())
}

/// Puts a number that is above all others behind the list of each of these places, once even where
/// a place stands there twice.
pub(crate) fn note(lists: &mut Vec<Vec<usize>>, places: &[usize], number: usize)
    requires placed { All (λ place. place < length lists.old.items) places.now }
    requires room { All (HoldsAt HasRoom lists.old.items) places.now }
    requires above { All (All (λ n. n < number)) (lists_of lists.old.items) }
    ensures { IsNotedAt places.now number (lists_of lists.old.items) (lists_of lists.new.items) }
{
    for place in places {
        note_once(&mut lists[*place], number);
    }
}

/// Puts a number behind a list, if it isn't the last already.
fn note_once(list: &mut Vec<usize>, number: usize)
    requires { ends_with list.old.items number ≡ false → HasRoom list.old }
    ensures { list.new.items ≡ with_number (ends_with list.old.items number) number list.old.items }
{
    if list.last().copied() != Some(number) {
        list.push(number).unwrap();
    }
}

/// Whether two ascending lists have a number in common.
pub(crate) fn have_common(a: &[usize], b: &[usize]) -> bool
    requires a { IsAscending 0 a.now }
    requires b { IsAscending 0 b.now }
    ensures { result ≡ have_common a.now b.now }
{
    let (mut i, mut j) = (0, 0);
    while i < a.len() && j < b.len() {
        if a[i] == b[j] {
            return true;
        }
        if a[i] < b[j] {
            i += 1;
        } else {
            j += 1;
        }
    }
    false
}
