//! What matching and the run sequence are given of components.

ghost use Rattle.std.specs.Prelude.{◌≡◌, ◌≤◌, ◌<◌, ◌++◌, ◌∷◌, [], length, map, IfOk, OnOk, IsTrue, ◌↔◌};
ghost use Rattle.std.specs.List.{All, enumerate_from, filter_map};
ghost use Rattle.std.specs.Option.{option_to_list};
ghost use Rattle.cpl_init.specs.Orders.{AreNeeds, IsListed};
ghost use Rattle.cpl_script.specs.Matched.{cell_counts, comp_ports, is_redist, name_of, names_of, port_of, ports_of, way_of};
ghost use Rattle.cpl_script.specs.Operations.{is_init_pair, needs_in};

use cpl_base::{Many, Memory, Text};
use cpl_comp::{Comp, Field, Phase, Role};
use cpl_init::Needs;
use cpl_match::{Pair, Port, Way};
use cpl_sequence::{LinkLine, Method, SeqName};
use std::alloc::Global;

/// The ports of components.
pub fn ports_of(alloc: Global, comps: &[Comp]) -> Result<Vec<Port>, Memory>
    requires comps { length comps.now ≤ 32 }
    requires fields { All (λ comp. length comp.fields ≤ 64) comps.now }
    ensures { IfOk result (λ ports. ports.items ≡ ports_of comps.now) }
{
    let mut ports = Vec::new(alloc);
    for place in 0..comps.len() {
        let comp = &comps[place];
        push_ports(alloc, place as u8, comp.fields.items(), &mut ports)?;
    }
    Ok(ports)
}

/// Puts the ports of a component behind others.
fn push_ports(
    alloc: Global,
    component: u8,
    fields: &[Field],
    ports: &mut Vec<Port>,
) -> Result<(), Memory>
    requires { length fields.now ≤ 64 }
    ensures { OnOk result (ports.new.items ≡ ports.old.items ++ filter_map (port_of component) (enumerate_from 0 fields.now)) }
{
    for place in 0..fields.len() {
        let field = &fields[place];
        push_port(alloc, component, place as u16, field, ports)?;
    }
    Ok(())
}

/// Puts the port of a field behind others, if it has one.
fn push_port(
    alloc: Global,
    component: u8,
    place: u16,
    field: &Field,
    ports: &mut Vec<Port>,
) -> Result<(), Memory>
    ensures { OnOk result (ports.new.items ≡ ports.old.items ++ option_to_list (port_of component (place, field.now))) }
{
    match field.role {
        Role::Var => Ok(()),
        Role::Import => push_one(alloc, component, place, true, field, ports),
        Role::Export => push_one(alloc, component, place, false, field, ports),
    }
}

/// Puts a port behind others.
fn push_one(
    alloc: Global,
    component: u8,
    place: u16,
    import: bool,
    field: &Field,
    ports: &mut Vec<Port>,
) -> Result<(), Memory>
    ensures { OnOk result (ports.new.items ≡ ports.old.items ++ record { component = component; field = place; import = import; standard = field.now.standard; optional = field.now.optional } ∷ []) }
{
    let standard = field.standard.copy(alloc)?;
    ports.push(Port {
        component,
        field: place,
        import,
        standard,
        optional: field.optional,
    })?;
    Ok(())
}

/// How many cells each component has.
pub fn cell_counts(alloc: Global, comps: &[Comp]) -> Result<Vec<u32>, Memory>
    ensures { IfOk result (λ counts. counts.items ≡ cell_counts comps.now) }
{
    let mut counts = Vec::new(alloc);
    for comp in comps {
        counts.push(comp.decomp.grid().cells())?;
    }
    Ok(counts)
}

/// The ways of connectors.
pub fn ways_of(alloc: Global, lines: &[LinkLine]) -> Result<Vec<Way>, Memory>
    ensures { IfOk result (λ ways. ways.items ≡ map way_of lines.now) }
{
    let mut ways = Vec::new(alloc);
    for line in lines {
        ways.push(Way {
            src: line.src,
            dst: line.dst,
            redist: is_redist(line.method),
        })?;
    }
    Ok(ways)
}

/// Whether a method redistributes.
pub fn is_redist(method: Method) -> bool
    ensures { result ≡ is_redist method }
{
    match method {
        Method::Redist => true,
        Method::Weights => false,
    }
}

/// Components as the run sequence may name them.
pub fn names_of(alloc: Global, comps: &[Comp]) -> Result<Vec<SeqName>, Memory>
    ensures { IfOk result (λ names. names.items ≡ names_of comps.now) }
{
    let mut names = Vec::new(alloc);
    for comp in comps {
        let name = name_of(alloc, comp)?;
        names.push(name)?;
    }
    Ok(names)
}

/// A component as the run sequence may name it.
fn name_of(alloc: Global, comp: &Comp) -> Result<SeqName, Memory>
    ensures { IfOk result (λ name. name ≡ name_of comp.now) }
{
    let name = comp.name.copy(alloc)?;
    let labels = labels_of(alloc, comp.phases.items())?;
    Ok(SeqName {
        name,
        phases: Many::of(labels),
        substep: comp.substep,
    })
}

/// The names of phases.
fn labels_of(alloc: Global, phases: &[Phase]) -> Result<Vec<Text>, Memory>
    ensures { IfOk result (λ labels. labels.items ≡ map (λ phase. phase.label) phases.now) }
{
    let mut labels = Vec::new(alloc);
    for phase in phases {
        labels.push(phase.label.copy(alloc)?)?;
    }
    Ok(labels)
}

/// What components need before they are initialised.
pub fn needs_in(alloc: Global, comps: &[Comp], pairs: &[Pair]) -> Result<Vec<Needs>, Memory>
    ensures { IfOk result (λ needs. needs.items ≡ needs_in comps.now pairs.now) }
{
    let mut needs = Vec::new(alloc);
    for pair in pairs {
        if is_init_pair(comps, *pair) {
            needs.push(Needs {
                component: pair.dst,
                producer: pair.src,
            })?;
        }
    }
    Ok(needs)
}

/// Whether a pair feeds an import that is taken before its component is initialised.
fn is_init_pair(comps: &[Comp], pair: Pair) -> bool
    ensures { result ≡ is_init_pair comps.now pair }
{
    let Some(comp) = comps.get(usize::from(pair.dst)) else {
        return false;
    };
    let fields = comp.fields.items();
    let Some(field) = fields.get(usize::from(pair.dst_field)) else {
        return false;
    };
    field.at_init
}

/// Whether all needs are of listed components.
pub fn are_listed(needs: &[Needs], count: u8) -> bool
    ensures { IsTrue result ↔ AreNeeds count needs.now }
{
    needs.iter().all(|need| is_listed(*need, count))
}

/// Whether a need is of listed components.
fn is_listed(need: Needs, count: u8) -> bool
    ensures { IsTrue result ↔ IsListed count need }
{
    need.component < count && need.producer < count
}

/// Whether all ports are of listed components.
pub fn are_within(ports: &[Port], count: usize) -> bool
    ensures { IsTrue result ↔ All (λ port. port.component < count) ports.now }
{
    ports.iter().all(|port| usize::from(port.component) < count)
}
