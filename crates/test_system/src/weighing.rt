//! Weights of connectors, all of one file.

ghost use Rattle.std.specs.Prelude.{◌≡◌, ◌<◌, ◌≤◌, List, length, IfOk, None, true};
ghost use Rattle.std.specs.List.{All, zip};
ghost use Rattle.cpl_script.specs.Sound.{cells_at};
ghost use Rattle.cpl_sequence.specs.Bounds.{IsLinkOver};
ghost use Rattle.test_system.specs.Weighed.{IsWeighed};

use crate::matched::is_redist;
use cpl_base::Memory;
use cpl_comp::Comp;
use cpl_sequence::LinkLine;
use cpl_smm::{Weights, read_weights};
use std::alloc::Global;
use std::test::Fail;

/// The weights of connectors: those of a file where it doesn't redistribute.
pub fn weights_of(
    alloc: Global,
    comps: &[Comp],
    lines: &[LinkLine],
    file: &[u8],
) -> Result<Vec<Option<Weights>>, Fail>
    ensures count { IfOk result (λ weights. length weights.items ≡ length lines.now) }
    ensures each { IfOk result (λ weights. All (IsWeighed comps.now) (zip lines.now weights.items)) }
{
    let mut weights = Vec::new(alloc);
    for line in lines {
        let given = weights_for(alloc, comps, line, file)?;
        weights.push(given)?;
    }
    Ok(weights)
}

/// The weights of a connector.
fn weights_for(
    alloc: Global,
    comps: &[Comp],
    line: &LinkLine,
    file: &[u8],
) -> Result<Option<Weights>, Fail>
    ensures { IfOk result (λ weights. IsWeighed comps.now (line.now, weights)) }
{
    if is_redist(line.method) {
        return Ok(None);
    }
    let src = cells_at(comps, line.src)?;
    let dst = cells_at(comps, line.dst)?;
    let weights = read_weights(alloc, file, src, dst)?;
    if weights.src_cells() != src || weights.dst_cells() != dst {
        return Err(Fail::from(Memory));
    }
    Ok(Some(weights))
}

/// How many cells a component has.
fn cells_at(comps: &[Comp], component: u8) -> Result<u32, Fail>
    ensures { IfOk result (λ count. count ≡ cells_at comps.now component) }
{
    let Some(comp) = comps.get(usize::from(component)) else {
        return Err(Fail::from(Memory));
    };
    Ok(comp.decomp.grid().cells())
}
