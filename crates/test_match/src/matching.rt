//! Which exports feed which imports, and what is refused: small cases, and as many ports as there may be.

ghost use Rattle.std.specs.Prelude.{◌<◌, ◌↔◌, All, IsTrue};

use cpl_base::{Many, Text, words, write_number};
use cpl_dict::Dict;
use cpl_match::{MatchFault, Pair, Port, Way, connect, match_examples};
use std::alloc::Global;
use std::process::Abort;
use std::test::Fail;

/// Components in the small cases, with their numbers of cells.
const CELLS: [u32; 10] = [4, 4, 6, 4, 6, 9, 4, 4, 4, 4];

/// Small cases: ports and ways, and the pairs or the refusal. A port is its component, its field, and behind `>`
/// (an export), `<` (an import) or `?` (an optional import) its standard name; a way is its two components, with
/// `-` between them where it redistributes and `~` where it goes by weights.
const CASES: [(&[u8], &[u8]); 60] = [
    // names that are equal, that one call gave, that two calls give in a chain, or that none gave
    (b"0.1>t 1.2<t 0-1", b"0.1-1.2"),
    (b"0.1>t 1.2<temp 0-1", b"0.1-1.2"),
    (b"0.1>temp 1.2<t 0-1", b"0.1-1.2"),
    (b"0.1>t 1.2<tas 0-1", b"unmatched 1.2"),
    (b"0.1>tas 1.2<t 0-1", b"unmatched 1.2"),
    (b"0.1>u 1.2<w 0-1", b"0.1-1.2"),
    (b"0.1>w 1.2<u 0-1", b"0.1-1.2"),
    (b"0.1>p 1.2<p 0-1", b"0.1-1.2"),
    (b"0.1>q 1.2<q 0-1", b"0.1-1.2"),
    (b"0.1>p 1.2<q 0-1", b"unmatched 1.2"),
    // names that the dictionary doesn't have
    (b"0.1>x 1.2<x 0-1", b"0.1-1.2"),
    (b"0.1>x 1.2<y 0-1", b"unmatched 1.2"),
    (b"0.1>x 1.2<t 0-1", b"unmatched 1.2"),
    (b"0.1>t 1.2<x 0-1", b"unmatched 1.2"),
    (b"0.1>T 1.2<t 0-1", b"unmatched 1.2"),
    (b"0.1>te 1.2<t 0-1", b"unmatched 1.2"),
    // few ports
    (b"", b""),
    (b"0.1>t", b""),
    (b"1.2?t", b""),
    (b"1.2<t", b"unmatched 1.2"),
    // ways that are there, and that aren't
    (b"1.2<t 0-1", b"unmatched 1.2"),
    (b"0.1>t 1.2<t", b"unmatched 1.2"),
    (b"0.1>t 1.2<t 1-0", b"unmatched 1.2"),
    (b"0.1>t 1.2?t 1-0", b""),
    (b"1.1>t 1.2<t 0-1", b"unmatched 1.2"),
    (b"1.1>t 1.2<t 1-1", b"1.1-1.2"),
    (b"0.1<t 1.2<t 0-1 1-0", b"unmatched 0.1"),
    (b"0.1>t 1.2<t 3.1>t 0-1", b"0.1-1.2"),
    (b"0.1>t 1.2<t 3.1>t 3-1", b"3.1-1.2"),
    // two or more that fit best
    (b"0.1>t 0.2>t 1.2<t 0-1", b"ambiguous 1.2 0.1 0.2"),
    (b"0.1>t 1.2<t 3.1>t 0-1 3-1", b"ambiguous 1.2 0.1 3.1"),
    (b"0.1>t 1.2<temp 3.1>tas 0-1 3-1", b"ambiguous 1.2 0.1 3.1"),
    (b"0.1>t 0.2>t 0.3>t 1.2<t 0-1", b"ambiguous 1.2 0.1 0.2"),
    (b"0.1>t 0.2>t 1.2?t 0-1", b"ambiguous 1.2 0.1 0.2"),
    (b"0.3>t 0.1>t 1.2<t 0-1", b"ambiguous 1.2 0.3 0.1"),
    (b"0.1>t 0.1>t 1.2<t 0-1", b"ambiguous 1.2 0.1 0.1"),
    (
        b"0.1>t 1.2<temp 3.1>tas 3.2>temp 6.1>temp 0-1 3-1 6-1",
        b"ambiguous 1.2 3.2 6.1",
    ),
    // one that fits better than others
    (b"0.1>temp 0.2>t 1.2<t 0-1", b"0.2-1.2"),
    (b"0.1>t 1.2<temp 3.1>tas 3.2>temp 0-1 3-1", b"3.2-1.2"),
    // unequal numbers of cells
    (b"0.1>t 2.1<t 0-2", b"sizes 0 2"),
    (b"0.1>t 2.1<t 0~2", b"0.1-2.1"),
    (b"0.1>t 2.1?t 0-2", b"sizes 0 2"),
    (b"2.1>t 4.1<t 2-4", b"2.1-4.1"),
    (b"2.1>t 4.1<t 2~4", b"2.1-4.1"),
    (b"0.1>u 2.1<t 0-2", b"unmatched 2.1"),
    (b"0.1>t 2.1<t 0~2 0-2", b"0.1-2.1"),
    (b"0.1>t 2.1<t 0-2 0~2", b"sizes 0 2"),
    (b"0.1>t 0.2>t 2.1<t 0-2", b"ambiguous 2.1 0.1 0.2"),
    (b"2.1>t 0.1>t 1.2<t 2-1 0-1", b"ambiguous 1.2 2.1 0.1"),
    (b"2.1>temp 0.1>t 1.2<t 2-1 0-1", b"0.1-1.2"),
    (b"2.1>t 0.1>temp 1.2<t 2-1 0-1", b"sizes 2 1"),
    // several imports, in their order, up to the first refusal
    (b"0.1>t 1.1<t 2.1<t 0-1 0~2", b"0.1-1.1 0.1-2.1"),
    (b"0.1>t 0.2>u 1.1<u 1.2<t 0-1", b"0.2-1.1 0.1-1.2"),
    (b"0.1>t 1.1<t 1.2<temp 0-1", b"0.1-1.1 0.1-1.2"),
    (b"0.1>t 1.1?u 1.2<t 0-1", b"0.1-1.2"),
    (b"0.1>t 1.1<t 1.2>t 0.2<t 0-1 1-0", b"0.1-1.1 1.2-0.2"),
    (b"0.1>t 1.1<u 2.1<t 0-1 0-2", b"unmatched 1.1"),
    (b"0.1>t 2.1<t 3.1<u 0-2 0-3", b"sizes 0 2"),
    (b"0.1>t 0.2>t 1.1<t 3.1<u 0-1", b"ambiguous 1.1 0.1 0.2"),
    (b"0.1>t 1.1<t 3.2<u 3.3<t 0-1 0-3", b"unmatched 3.2"),
];

/// So many components there are at most, here with equal numbers of cells.
const MOST_CELLS: [u32; 32] = [4; 32];

/// So many fields has each at most.
const FIELDS: u64 = 64;

/// So many ports have all at most.
const PORTS: u64 = 2048;

/// How as many ports as there may be are named.
#[derive(Clone, Copy)]
enum Names {
    /// Half of each component's are exports with a name of their own each; its imports have the names of the next
    /// component's exports.
    Equal,
    /// The same exports; the imports have two names by turns, which 200,000 calls gave with that of the first export.
    Two,
    /// The first is an export, the others are imports with a name of their own each; 650 calls gave all these names.
    Many,
}

fn text(alloc: Global, bytes: &[u8]) -> Result<Text, Fail> {
    Ok(Text::of(alloc, bytes)?)
}

/// A letter and a number.
fn numbered(alloc: Global, letter: u8, number: u64) -> Result<Text, Fail> {
    let mut name = Vec::new(alloc);
    name.push(letter)?;
    write_number(&mut name, u128::from(number))?;
    text(alloc, name.as_slice())
}

fn add(alloc: Global, dict: &mut Dict, name: Text) -> Result<(), Fail> {
    dict.add(name, text(alloc, b"1")?)?;
    Ok(())
}

/// Lets the names of a text stand for one another.
fn bind(alloc: Global, dict: &mut Dict, names: &[u8]) -> Result<(), Fail> {
    let mut list = Vec::new(alloc);
    for name in words(alloc, names)? {
        list.push(text(alloc, name)?)?;
    }
    dict.synonym(list.as_slice())?;
    Ok(())
}

/// The names of the small cases.
fn small(alloc: Global) -> Result<Dict, Fail> {
    let mut dict = Dict::new(alloc);
    for name in words(alloc, b"t temp tas u wind w p q")? {
        add(alloc, &mut dict, text(alloc, name)?)?;
    }
    for names in [b"t temp".as_slice(), b"temp tas", b"u wind w", b"p", b"q q"] {
        bind(alloc, &mut dict, names)?;
    }
    Ok(dict)
}

fn digit(byte: u8) -> u8 {
    byte.wrapping_sub(b'0')
}

/// The ports of a case.
fn ports_of(alloc: Global, case: &[u8]) -> Result<Vec<Port>, Fail> {
    let mut ports = Vec::new(alloc);
    for word in words(alloc, case)? {
        if let [component, b'.', field, kind, name @ ..] = word {
            ports.push(Port {
                component: digit(*component),
                field: u16::from(digit(*field)),
                import: *kind != b'>',
                standard: text(alloc, name)?,
                optional: *kind == b'?',
            })?;
        }
    }
    Ok(ports)
}

/// The ways of a case.
fn ways_of(alloc: Global, case: &[u8]) -> Result<Vec<Way>, Fail> {
    let mut ways = Vec::new(alloc);
    for word in words(alloc, case)? {
        if let [src, kind, dst] = word {
            ways.push(Way {
                src: digit(*src),
                dst: digit(*dst),
                redist: *kind == b'-',
            })?;
        }
    }
    Ok(ways)
}

/// Whether all ports are of so many components.
fn are_within(ports: &[Port], count: u8) -> bool
    ensures { IsTrue result ↔ All (λ port. port.component < count) ports.now }
{
    ports.iter().all(|port| port.component < count)
}

fn show_field(text: &mut Vec<u8>, field: (u8, u16)) -> Result<(), Fail> {
    write_number(text, u128::from(field.0))?;
    text.push(b'.')?;
    write_number(text, u128::from(field.1))?;
    Ok(())
}

fn shown_pairs(alloc: Global, pairs: &[Pair]) -> Result<Vec<u8>, Fail> {
    let mut text = Vec::new(alloc);
    for pair in pairs {
        if !text.is_empty() {
            text.push(b' ')?;
        }
        show_field(&mut text, (pair.src, pair.src_field))?;
        text.push(b'-')?;
        show_field(&mut text, (pair.dst, pair.dst_field))?;
    }
    Ok(text)
}

fn shown_fields(alloc: Global, word: &[u8], fields: &[(u8, u16)]) -> Result<Vec<u8>, Fail> {
    let mut text = Vec::from_slice(alloc, word)?;
    for field in fields {
        text.push(b' ')?;
        show_field(&mut text, *field)?;
    }
    Ok(text)
}

fn shown_sizes(alloc: Global, src: u8, dst: u8) -> Result<Vec<u8>, Fail> {
    let mut text = Vec::from_slice(alloc, b"sizes ")?;
    write_number(&mut text, u128::from(src))?;
    text.push(b' ')?;
    write_number(&mut text, u128::from(dst))?;
    Ok(text)
}

/// An answer, as the cases write it.
fn shown(alloc: Global, answer: Result<Many<Pair>, MatchFault>) -> Result<Vec<u8>, Fail> {
    match answer {
        Ok(pairs) => shown_pairs(alloc, pairs.items()),
        Err(
            MatchFault::Ambiguous {
                dst,
                field,
                first,
                second,
            },
        ) => shown_fields(alloc, b"ambiguous", &[(dst, field), first, second]),
        Err(MatchFault::Unmatched { dst, field }) => {
            shown_fields(alloc, b"unmatched", &[(dst, field)])
        }
        Err(MatchFault::SizeDiffers { src, dst }) => shown_sizes(alloc, src, dst),
        Err(MatchFault::Memory) => Ok(Vec::from_slice(alloc, b"memory")?),
    }
}

/// What becomes of a case.
fn answer_of(alloc: Global, dict: &Dict, case: &[u8]) -> Result<Vec<u8>, Fail> {
    let ports = ports_of(alloc, case)?;
    let ways = ways_of(alloc, case)?;
    if !are_within(ports.as_slice(), 10) {
        return Ok(Vec::from_slice(alloc, b"far")?);
    }
    let answer = connect(alloc, ports.as_slice(), &CELLS, dict, ways.as_slice());
    shown(alloc, answer)
}

#[test]
fn cases(rt: HostRuntime) -> Result<(), Fail> {
    let alloc = rt.alloc();
    match_examples();
    let dict = small(alloc)?;
    for (place, (case, wanted)) in CASES.iter().enumerate() {
        let answer = answer_of(alloc, &dict, *case)?;
        assert_eq!(rt; answer.as_slice(), *wanted, "case {place}");
    }
    Ok(())
}

/// Whether the port at a place is an import.
fn is_import(names: Names, place: u64) -> bool {
    match names {
        Names::Equal | Names::Two => place % FIELDS >= FIELDS / 2,
        Names::Many => place > 0,
    }
}

/// The place of the export that feeds the import at a place.
fn source(names: Names, place: u64) -> u64
    requires { place < 2048 }
    ensures { result < 2048 }
{
    match names {
        Names::Equal => (place + FIELDS / 2) % PORTS,
        Names::Two | Names::Many => 0,
    }
}

/// The standard name of the port at a place.
fn name_at(alloc: Global, names: Names, place: u64) -> Result<Text, Fail>
    requires { place < 2048 }
{
    match names {
        Names::Equal if is_import(names, place) => numbered(alloc, b'e', source(names, place)),
        Names::Two if is_import(names, place) => numbered(alloc, b'a', place % 2),
        _ => numbered(alloc, b'e', place),
    }
}

fn large_ports(alloc: Global, names: Names) -> Result<Vec<Port>, Fail> {
    let mut ports = Vec::new(alloc);
    for place in 0..PORTS {
        ports.push(Port {
            component: (place / FIELDS) as u8,
            field: (place % FIELDS) as u16,
            import: is_import(names, place),
            standard: name_at(alloc, names, place)?,
            optional: false,
        })?;
    }
    Ok(ports)
}

fn large_dict(alloc: Global, names: Names) -> Result<Dict, Fail> {
    let mut dict = Dict::new(alloc);
    for place in 0..PORTS {
        add(alloc, &mut dict, numbered(alloc, b'e', place)?)?;
    }
    for place in 0..2 {
        add(alloc, &mut dict, numbered(alloc, b'a', place)?)?;
    }
    match names {
        Names::Equal => {}
        Names::Two => bind_two(alloc, &mut dict)?,
        Names::Many => bind_many(alloc, &mut dict)?,
    }
    Ok(dict)
}

fn bind_two(alloc: Global, dict: &mut Dict) -> Result<(), Fail> {
    let names = [
        numbered(alloc, b'a', 0)?,
        numbered(alloc, b'a', 1)?,
        numbered(alloc, b'e', 0)?,
    ];
    for _ in 0..200_000 {
        dict.synonym(&names)?;
    }
    Ok(())
}

fn bind_many(alloc: Global, dict: &mut Dict) -> Result<(), Fail> {
    let mut names = Vec::new(alloc);
    for place in 0..PORTS {
        names.push(numbered(alloc, b'e', place)?)?;
    }
    for _ in 0..650 {
        dict.synonym(names.as_slice())?;
    }
    Ok(())
}

/// A way from each component to each.
fn all_ways(alloc: Global) -> Result<Vec<Way>, Fail> {
    let mut ways = Vec::new(alloc);
    for src in 0..32 {
        for dst in 0..32 {
            ways.push(Way {
                src,
                dst,
                redist: true,
            })?;
        }
    }
    Ok(ways)
}

/// The pair of the import at a place.
fn wanted(names: Names, place: u64) -> Pair
    requires { place < 2048 }
{
    let export = source(names, place);
    Pair {
        src: (export / FIELDS) as u8,
        src_field: (export % FIELDS) as u16,
        dst: (place / FIELDS) as u8,
        dst_field: (place % FIELDS) as u16,
    }
}

/// How many imports stand before this one.
fn rank(names: Names, place: u64) -> u64
    requires { place < 2048 }
{
    match names {
        Names::Equal | Names::Two => place / FIELDS * (FIELDS / 2) + place % (FIELDS / 2),
        Names::Many => place.saturating_sub(1),
    }
}

/// Asserts that the imports have the pairs that they are to have.
fn expect_pairs(rt: &impl Abort, names: Names, pairs: &[Pair]) {
    let count = match names {
        Names::Equal | Names::Two => 1024,
        Names::Many => 2047,
    };
    assert_eq!(rt; pairs.len(), count);
    for place in 0..PORTS {
        if is_import(names, place) {
            let pair = pairs.get(rank(names, place) as usize).copied();
            assert_eq!(rt; pair, Some(wanted(names, place)));
        }
    }
}

#[test]
fn large(rt: HostRuntime) -> Result<(), Fail> {
    let alloc = rt.alloc();
    let ways = all_ways(alloc)?;
    for names in [Names::Equal, Names::Two, Names::Many] {
        let ports = large_ports(alloc, names)?;
        let dict = large_dict(alloc, names)?;
        let is_within = are_within(ports.as_slice(), 32);
        assert!(rt; is_within);
        let pairs = connect(alloc, ports.as_slice(), &MOST_CELLS, &dict, ways.as_slice())?;
        expect_pairs(&rt, names, pairs.items());
    }
    Ok(())
}
