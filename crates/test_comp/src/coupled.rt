//! What is read of a model and of a mediator, compared part by part.

use crate::files::{File, edited};
use crate::parts::put_component;
use crate::reading::{components, setting_of};
use std::alloc::Global;
use std::process::Abort;
use std::test::Fail;

/// A model on four PETs, and a mediator on all five.
const COUPLED: File = &[
    b"EARTH_component_list: A M",
    b"dictionary::",
    b"level m",
    b"heat W/m2",
    b"::",
    b"alarms::",
    b"noon every 86400 from 43200",
    b"dusk monthly",
    b"::",
    b"A_petlist_bounds: 1 4",
    b"A_grid: 5 3 periodic",
    b"A_decomp: 2 2",
    b"A_substep: 900",
    b"A_vars::",
    b"x = 1.5",
    b"y = call relax down[1,0] -2 ring_dusk",
    b"::",
    b"A_import::",
    b"down heat W/m2 check=next init",
    b"back level m optional",
    b"::",
    b"A_export::",
    b"up level m = down - back[0,-2] * 2",
    b"::",
    b"A_phases: fast slow",
    b"A_phase_fast::",
    b"x = x + up[-1,2] * down[0,-2] - ring_dusk",
    b"check back -1.5 2",
    b"check x 0 0.000001",
    b"::",
    b"A_phase_slow::",
    b"up = call diffuse x x[1,0] x[-1,0] up[0,1] up[0,-1] 0.25",
    b"::",
    b"M_kind: mediator",
    b"M_grid: 7 3",
    b"M_substep: 60",
    b"M_vars::",
    b"mix = 0",
    b"kept = dt / 2",
    b"::",
    b"M_import::",
    b"a level m check=none",
    b"b heat W/m2",
    b"::",
    b"M_export::",
    b"sum level m = a",
    b"::",
    b"M_phase_run::",
    b"merge mix = a b b b",
    b"add kept = a * 3 + s",
    b"add sum = call flux a b[2,2] mix",
    b"average kept",
    b"sum = mix[0,1]",
    b"check b -3 4",
    b"::",
];

/// The model: PETs 1 to 4 have blocks of three or two columns and of two rows or one.
const MODEL: File = &[
    b"",
    b"component [A] Model (1, 4)",
    b"grid (5, 3, true)",
    b"part (0, 3) (0, 2)",
    b"part (3, 2) (0, 2)",
    b"part (0, 3) (2, 1)",
    b"part (3, 2) (2, 1)",
    b"substep Some(900)",
    b"field [x] Var [] [] Unchecked (false, false, 15) formula worth Some(1500000)",
    b"field [y] Var [] [] Unchecked (false, false, 16) call 0 Field(2) (1, 0) -2000000 Ring(1)",
    b"field [down] Import [heat] [W/m2] Next (false, true, 19)",
    b"field [back] Import [level] [m] Current (true, false, 20)",
    b"field [up] Export [level] [m] Unchecked (false, false, 23) formula Field(2) Field(3) (0, -2) worth Some(-19000000)",
    b"beside (0, -2) (1, 0) of 2 3",
    b"phase [fast]",
    b"set 0 formula Field(0) Field(4) (-1, 2) Field(2) (0, -2) Ring(1) worth Some(1000000)",
    b"range (3, -1500000, 2000000)",
    b"range (0, 0, 1)",
    b"beside (0, -2) (-1, 2) of 2 4",
    b"phase [slow]",
    b"set 4 call 1 Field(0) Field(0) (1, 0) Field(0) (-1, 0) Field(4) (0, 1) Field(4) (0, -1) 250000",
    b"beside (0, -1) (-1, 0) (1, 0) (0, 1) of 0 4",
];

/// The mediator: seven columns on five PETs, and no substep.
const MEDIATOR: File = &[
    b"",
    b"component [M] Mediator (0, 5)",
    b"grid (7, 3, false)",
    b"part (0, 2) (0, 3)",
    b"part (2, 2) (0, 3)",
    b"part (4, 1) (0, 3)",
    b"part (5, 1) (0, 3)",
    b"part (6, 1) (0, 3)",
    b"substep None",
    b"field [mix] Var [] [] Unchecked (false, false, 38) formula worth Some(0)",
    b"field [kept] Var [] [] Unchecked (false, false, 39) formula Dt worth Some(500000)",
    b"field [a] Import [level] [m] Unchecked (false, false, 42)",
    b"field [b] Import [heat] [W/m2] Current (false, false, 43)",
    b"field [sum] Export [level] [m] Unchecked (false, false, 46) formula Field(2) worth Some(1000000)",
    b"beside of",
    b"phase [run]",
    b"set 4 formula Field(0) (0, 1) worth Some(1000000)",
    b"merge 0 (2, 3) (3, 3)",
    b"add 1 formula Field(2) S worth Some(13000000)",
    b"add 4 call 2 Field(2) Field(3) (2, 2) Field(0)",
    b"average 1",
    b"range (3, -3000000, 4000000)",
    b"beside (0, 1) (2, 2) of 0 3",
];

/// What must be printed: each component as it is lent, and then each as it is given back.
const WANTED: &[File] = &[MODEL, MEDIATOR, MODEL, MEDIATOR];

/// The components of the file in print: each as it is lent, and then each as it is given back.
fn shown(alloc: Global) -> Result<Vec<Vec<u8>>, Fail> {
    let file = edited(alloc, COUPLED, &[])?;
    let setting = setting_of(alloc, file.as_slice())?;
    let list = components(alloc, &setting)?;
    let mut texts = Vec::new(alloc);
    for component in list.as_slice() {
        let mut out = Vec::new(alloc);
        put_component(&mut out, alloc, component.comp())?;
        texts.push(out)?;
    }
    for component in list {
        let mut out = Vec::new(alloc);
        put_component(&mut out, alloc, &component.into_comp())?;
        texts.push(out)?;
    }
    Ok(texts)
}

/// Asserts the lines of a text.
fn expect_lines(rt: &impl Abort, text: &[u8], wanted: File) {
    let mut place = 0usize;
    for line in text.split(|byte| *byte == b'\n') {
        assert_eq!(rt; Some(&line), wanted.get(place), "at line {place}");
        place = place.saturating_add(1);
    }
    assert_eq!(rt; place, wanted.len());
}

#[test]
fn parts_of_components(rt: HostRuntime) -> Result<(), Fail> {
    let texts = shown(rt.alloc())?;
    assert_eq!(rt; texts.len(), WANTED.len());
    for (text, wanted) in texts.iter().zip(WANTED) {
        expect_lines(&rt, text.as_slice(), *wanted);
    }
    Ok(())
}
