//! The order of initialisation: worked rows, needs made by a small generator against slow walks, and
//! as many components and rows as there may be.

ghost use Rattle.std.specs.Prelude.{◌≡◌, ◌<◌, true, false};
ghost use Rattle.std.specs.Bool.{OnTrue};
ghost use Rattle.cpl_init.specs.Orders.{AreNeeds};

use cpl_init::{InitFault, Needs, init_examples, order, order_laws};
use std::alloc::{AllocError, Global};
use std::process::Abort;
use std::test::Fail;

/// As many components as there may be.
const ALL: u8 = 255;

/// Whether the numbers of all rows are below a count.
fn are_listed(components: u8, needs: &[Needs]) -> bool
    ensures { OnTrue result (AreNeeds components needs.now) }
{
    for row in needs {
        if row.component >= components || row.producer >= components {
            return false;
        }
    }
    true
}

/// Asserts an order, or the components that wait.
fn expect(
    rt: &impl Abort,
    alloc: Global,
    components: u8,
    needs: &[Needs],
    wanted: Result<&[u8], &[u8]>,
) -> Result<(), Fail> {
    let listed = are_listed(components, needs);
    assert!(rt; listed);
    match order(alloc, components, needs) {
        Ok(order) => assert_eq!(rt; Ok(order.numbers()), wanted),
        Err(InitFault::Waiting { components }) => {
            assert_eq!(rt; Err(components.numbers()), wanted);
        }
        Err(InitFault::Memory) => return Err(AllocError.into()),
    }
    Ok(())
}

/// The rows of these pairs, the component first.
fn needs_of(alloc: Global, pairs: &[(u8, u8)]) -> Result<Vec<Needs>, Fail> {
    let mut needs = Vec::new(alloc);
    for (component, producer) in pairs {
        needs.push(Needs {
            component: *component,
            producer: *producer,
        })?;
    }
    Ok(needs)
}

#[test]
fn rows(rt: HostRuntime) -> Result<(), Fail> {
    let alloc = rt.alloc();
    let rows: [(u8, &[(u8, u8)], Result<&[u8], &[u8]>); 26] = [
        (0, &[], Ok(&[])),
        (1, &[], Ok(&[0])),
        (3, &[], Ok(&[0, 1, 2])),
        (2, &[(0, 1)], Ok(&[1, 0])),
        (2, &[(1, 0)], Ok(&[0, 1])),
        (2, &[(0, 1), (0, 1), (0, 1)], Ok(&[1, 0])),
        (4, &[(0, 1)], Ok(&[1, 0, 2, 3])),
        (4, &[(0, 2)], Ok(&[1, 2, 0, 3])),
        (4, &[(0, 3)], Ok(&[1, 2, 3, 0])),
        (4, &[(1, 0), (2, 1), (3, 2)], Ok(&[0, 1, 2, 3])),
        (4, &[(0, 1), (1, 2), (2, 3)], Ok(&[3, 2, 1, 0])),
        (4, &[(2, 0), (0, 3), (3, 1)], Ok(&[1, 3, 0, 2])),
        (4, &[(0, 1), (0, 2), (1, 3), (2, 3)], Ok(&[3, 1, 2, 0])),
        (4, &[(3, 1), (3, 2), (1, 0), (2, 0)], Ok(&[0, 1, 2, 3])),
        (5, &[(0, 4), (1, 4), (2, 4), (3, 4)], Ok(&[4, 0, 1, 2, 3])),
        (5, &[(4, 0), (4, 1), (4, 2), (4, 3)], Ok(&[0, 1, 2, 3, 4])),
        (
            6,
            &[(0, 5), (1, 4), (3, 1), (4, 2)],
            Ok(&[2, 4, 1, 3, 5, 0]),
        ),
        (1, &[(0, 0)], Err(&[0])),
        (3, &[(1, 1)], Err(&[1])),
        (3, &[(1, 1), (0, 1), (1, 2)], Err(&[0, 1])),
        (2, &[(0, 1), (1, 0)], Err(&[0, 1])),
        (4, &[(0, 1), (1, 0), (2, 0)], Err(&[0, 1, 2])),
        (4, &[(3, 2), (2, 3), (3, 0), (0, 1)], Err(&[2, 3])),
        (5, &[(0, 1), (1, 2), (2, 1), (2, 3)], Err(&[0, 1, 2])),
        (5, &[(0, 3), (3, 0), (1, 4), (4, 1)], Err(&[0, 1, 3, 4])),
        (
            6,
            &[(5, 4), (4, 3), (3, 5), (2, 3), (1, 2)],
            Err(&[1, 2, 3, 4, 5]),
        ),
    ];
    for (components, pairs, wanted) in rows {
        let needs = needs_of(alloc, pairs)?;
        expect(&rt, alloc, components, needs.as_slice(), wanted)?;
    }
    order_laws();
    init_examples();
    Ok(())
}

/// The next number of a small generator, below 2^32.
fn after(seed: u64) -> u64
    ensures { result < 4294967296 }
{
    (seed % 4_294_967_296 * 1_664_525 + 1_013_904_223) % 4_294_967_296
}

/// Where a component stands in a hidden order of at most 41.
fn rank(component: u8) -> u16 {
    u16::from(component) * 17 % 41
}

/// So many rows among components, of which there are some; without rings only those that follow the
/// hidden order.
fn drawn(
    alloc: Global,
    components: u8,
    rows: u64,
    rings: bool,
    first: u64,
) -> Result<Vec<Needs>, Fail>
    requires { 0 < components }
{
    let mut needs = Vec::new(alloc);
    let mut seed = first;
    for _row in 0..rows {
        seed = after(seed);
        let component = (seed / 65_536 % u64::from(components)) as u8;
        seed = after(seed);
        let producer = (seed / 65_536 % u64::from(components)) as u8;
        if rings || rank(producer) < rank(component) {
            needs.push(Needs {
                component,
                producer,
            })?;
        }
    }
    Ok(needs)
}

/// Whether a component is new and all that it needs stands before.
fn may_follow(needs: &[Needs], before: &[u8], component: u8) -> bool {
    let mut ready = !before.contains(&component);
    for row in needs {
        if row.component == component && !before.contains(&row.producer) {
            ready = false;
        }
    }
    ready
}

/// The order by a walk over all rows for each component of each place.
fn walked(alloc: Global, components: u8, needs: &[Needs]) -> Result<Vec<u8>, Fail> {
    let mut before = Vec::new(alloc);
    for _place in 0..components {
        let mut next = None;
        for component in 0..components {
            if next.is_none() && may_follow(needs, before.as_slice(), component) {
                next = Some(component);
            }
        }
        if let Some(component) = next {
            before.push(component)?;
        }
    }
    Ok(before)
}

/// Whether a component needs a member of a set.
fn needs_member(needs: &[Needs], set: &[u8], component: u8) -> bool {
    let mut found = false;
    for row in needs {
        if row.component == component && set.contains(&row.producer) {
            found = true;
        }
    }
    found
}

/// The greatest set each of which needs a member of it: of all components those that need none of the
/// set are left out, as often as there are components.
fn greatest_set(alloc: Global, components: u8, needs: &[Needs]) -> Result<Vec<u8>, Fail> {
    let mut set = Vec::new(alloc);
    for component in 0..components {
        set.push(component)?;
    }
    for _time in 0..components {
        let mut left = Vec::new(alloc);
        for component in &set {
            if needs_member(needs, set.as_slice(), *component) {
                left.push(*component)?;
            }
        }
        set = left;
    }
    Ok(set)
}

#[test]
fn against_walks(rt: HostRuntime) -> Result<(), Fail> {
    let alloc = rt.alloc();
    let mut orders = 0u8;
    let mut waits = 0u8;
    for graph in 0u8..16 {
        let components = 40 - graph * 2;
        let rows = u64::from(components) / 4 * (1 + u64::from(graph) % 4 * 3);
        let rings = graph % 8 >= 4;
        let needs = drawn(alloc, components, rows, rings, u64::from(graph))?;
        let walk = walked(alloc, components, needs.as_slice())?;
        let waiting = greatest_set(alloc, components, needs.as_slice())?;
        assert_eq!(rt; walk.len() + waiting.len(), usize::from(components));
        let wanted = if waiting.is_empty() {
            orders = orders.saturating_add(1);
            Ok(walk.as_slice())
        } else {
            waits = waits.saturating_add(1);
            Err(waiting.as_slice())
        };
        expect(&rt, alloc, components, needs.as_slice(), wanted)?;
    }
    assert!(rt; orders >= 8);
    assert!(rt; waits >= 4);
    Ok(())
}

#[test]
fn chain(rt: HostRuntime) -> Result<(), Fail> {
    let alloc = rt.alloc();
    let mut needs = Vec::new(alloc);
    let mut wanted = Vec::new(alloc);
    for component in 0..ALL - 1 {
        needs.push(Needs {
            component,
            producer: component + 1,
        })?;
    }
    for place in 0..ALL {
        wanted.push(ALL - 1 - place)?;
    }
    expect(&rt, alloc, ALL, needs.as_slice(), Ok(wanted.as_slice()))
}

#[test]
fn many_rows(rt: HostRuntime) -> Result<(), Fail> {
    let alloc = rt.alloc();
    let mut needs = Vec::new(alloc);
    let mut wanted = Vec::new(alloc);
    for component in 0..ALL {
        wanted.push(component)?;
        for other in 0..ALL {
            let (low, high) = (component.min(other), component.max(other));
            if low < high {
                needs.push(Needs {
                    component: high,
                    producer: low,
                })?;
            }
        }
    }
    for component in 1..ALL {
        needs.push(Needs {
            component,
            producer: 0,
        })?;
    }
    assert!(rt; needs.len() >= 65_000);
    expect(&rt, alloc, ALL, needs.as_slice(), Ok(wanted.as_slice()))?;
    needs.push(Needs {
        component: 0,
        producer: ALL - 1,
    })?;
    expect(&rt, alloc, ALL, needs.as_slice(), Err(wanted.as_slice()))
}
