//! Names, their units, and how well two names match.

ghost use Rattle.std.specs.Prelude.{◌≡◌, ◌<◌, length};
ghost use Rattle.cpl_dict.specs.Numbers.{calls_of, have_common};

use cpl_base::{Text, write_number};
use cpl_dict::{Dict, DictFault, dict_examples};
use std::alloc::Global;
use std::process::Abort;
use std::test::Fail;

/// So many names are added in the large dictionary.
const MANY: u64 = 100_000;

fn text(alloc: Global, bytes: &[u8]) -> Result<Text, Fail> {
    Ok(Text::of(alloc, bytes)?)
}

fn texts(alloc: Global, names: &[&[u8]]) -> Result<Vec<Text>, Fail> {
    let mut list = Vec::new(alloc);
    for name in names {
        list.push(text(alloc, *name)?)?;
    }
    Ok(list)
}

fn numbered(alloc: Global, number: u64) -> Result<Text, Fail> {
    let mut name = Vec::from_slice(alloc, b"field_")?;
    write_number(&mut name, u128::from(number))?;
    text(alloc, name.as_slice())
}

/// Three names in kelvins and one of another unit.
fn small(alloc: Global) -> Result<Dict, Fail> {
    let mut dict = Dict::new(alloc);
    for name in [b"t".as_slice(), b"temp", b"tas"] {
        dict.add(text(alloc, name)?, text(alloc, b"K")?)?;
    }
    dict.add(text(alloc, b"u")?, text(alloc, b"m s-1")?)?;
    Ok(dict)
}

/// Whether a call of one name gave another, by their numbers.
fn are_bound(dict: &Dict, first: usize, second: usize) -> bool
    requires first { first < length dict.now.names }
    requires second { second < length dict.now.names }
    ensures { result ≡ have_common (calls_of dict.now first) (calls_of dict.now second) }
{
    dict.number_laws();
    let calls = dict.calls(first);
    for call in calls {
        if dict.call_names(*call).contains(&second) {
            return true;
        }
    }
    false
}

/// The numbers of the calls that gave the name of this number, if it is one.
fn calls_by(dict: &Dict, number: usize) -> &[usize] {
    if number < dict.name_count() {
        dict.calls(number)
    } else {
        &[]
    }
}

/// The numbers of the names that the call of this number gave, if it is one.
fn names_by(dict: &Dict, call: usize) -> &[usize] {
    if call < dict.call_count() {
        dict.call_names(call)
    } else {
        &[]
    }
}

/// Asserts the numbers of the small dictionary's names, and of the calls that weren't refused.
fn expect_numbers(rt: &impl Abort, dict: &Dict) {
    assert_eq!(rt; dict.name_count(), 4);
    assert_eq!(rt; dict.call_count(), 5);
    let numbers: [(&[u8], Option<usize>); 5] = [
        (b"t", Some(0)),
        (b"temp", Some(1)),
        (b"tas", Some(2)),
        (b"u", Some(3)),
        (b"v", None),
    ];
    for (name, wanted) in numbers {
        assert_eq!(rt; dict.number(name), wanted);
    }
    let calls: [&[usize]; 4] = [&[0], &[0, 1], &[1], &[3, 4]];
    for (number, wanted) in calls.iter().enumerate() {
        assert_eq!(rt; calls_by(dict, number), *wanted);
    }
    let names: [&[usize]; 5] = [&[0, 1], &[2, 1], &[], &[3], &[3, 3]];
    for (call, wanted) in names.iter().enumerate() {
        assert_eq!(rt; names_by(dict, call), *wanted);
    }
    assert!(rt; are_bound(dict, 1, 2));
    assert!(rt; are_bound(dict, 3, 3));
    assert!(rt; !are_bound(dict, 0, 2));
}

#[test]
fn calls(rt: HostRuntime) -> Result<(), Fail> {
    let alloc = rt.alloc();
    let mut dict = small(alloc)?;
    let bound: [(&[&[u8]], Result<(), DictFault>); 8] = [
        (&[b"t", b"temp"], Ok(())),
        (&[b"tas", b"temp"], Ok(())),
        (&[], Ok(())),
        (&[b"u"], Ok(())),
        (&[b"u", b"u"], Ok(())),
        (&[b"t", b"v"], Err(DictFault::NameUnknown)),
        (&[b"t", b"u"], Err(DictFault::UnitsDiffer)),
        (&[b"t", b"u", b"v"], Err(DictFault::NameUnknown)),
    ];
    for (names, wanted) in bound {
        let names = texts(alloc, names)?;
        assert_eq!(rt; dict.synonym(names.as_slice()), wanted);
    }
    assert_eq!(rt;
        dict.add(text(alloc, b"t")?, text(alloc, b"degC")?),
        Err(DictFault::NameTwice)
    );
    assert_eq!(rt;
        dict.units(b"t").map(|units| units.bytes()),
        Some(b"K".as_slice())
    );
    assert_eq!(rt;
        dict.units(b"u").map(|units| units.bytes()),
        Some(b"m s-1".as_slice())
    );
    assert!(rt; dict.units(b"v").is_none());
    let bonds: [(&[u8], &[u8], u8); 8] = [
        (b"t", b"t", 2),
        (b"v", b"v", 2),
        (b"t", b"temp", 1),
        (b"tas", b"temp", 1),
        (b"t", b"tas", 0),
        (b"t", b"u", 0),
        (b"t", b"v", 0),
        (b"v", b"t", 0),
    ];
    for (a, b, wanted) in bonds {
        assert_eq!(rt; dict.bond(a, b), wanted);
    }
    dict_examples();
    expect_numbers(&rt, &dict);
    Ok(())
}

fn with_many_names(alloc: Global) -> Result<Dict, Fail> {
    let mut dict = Dict::new(alloc);
    for number in 0..MANY {
        dict.add(numbered(alloc, number)?, text(alloc, b"1")?)?;
    }
    Ok(dict)
}

/// Lets each name stand for the one before it.
fn bind_neighbours(alloc: Global, dict: &mut Dict) -> Result<(), Fail> {
    for number in 1..MANY {
        let mut names = Vec::new(alloc);
        names.push(numbered(alloc, number - 1)?)?;
        names.push(numbered(alloc, number)?)?;
        dict.synonym(names.as_slice())?;
    }
    Ok(())
}

#[test]
fn large(rt: HostRuntime) -> Result<(), Fail> {
    let alloc = rt.alloc();
    let mut dict = with_many_names(alloc)?;
    bind_neighbours(alloc, &mut dict)?;
    for number in 2..MANY {
        let far = numbered(alloc, number - 2)?;
        let near = numbered(alloc, number - 1)?;
        let name = numbered(alloc, number)?;
        assert_eq!(rt; dict.bond(near.bytes(), name.bytes()), 1);
        assert_eq!(rt; dict.bond(far.bytes(), name.bytes()), 0);
        assert_eq!(rt; dict.number(name.bytes()), Some(number as usize));
        assert_eq!(rt;
            calls_by(&dict, number as usize).first(),
            Some(&(number as usize - 1))
        );
    }
    Ok(())
}
