//! Which source cells each PET of a decomposition needs.

use cpl_base::write_number;
use cpl_grid::{Decomp, Grid};
use cpl_route::Need;
use cpl_smm::{Weights, read_weights};
use std::alloc::Global;
use std::test::Fail;

/// Files over seven source cells and as many destination cells as a grid has; the columns and rows of that grid, the
/// blocks that they are cut into, the first PET, and what the PETs need.
const CASES: [(&[u8], (u32, u32), (u32, u32), u8, &[u8]); 8] = [
    (
        b"1,1,1\n3,1,1\n7,5,1\n3,2,1\n2,4,1\n",
        (5, 1),
        (3, 1),
        4,
        b"4:1 3 5:2 6:7",
    ),
    (b"7,1,1\n6,1,1\n5,1,1\n", (1, 1), (1, 1), 63, b"63:5 6 7"),
    (b"", (2, 1), (2, 1), 0, b"0: 1:"),
    (b"4,2,0\n", (2, 1), (3, 1), 0, b"0: 1:4 2:"),
    (
        b"1,1,1\n2,2,1\n3,3,1\n4,4,1\n5,5,1\n6,6,1\n",
        (3, 2),
        (2, 1),
        0,
        b"0:1 2 4 5 1:3 6",
    ),
    (
        b"1,1,1\n2,2,1\n3,3,1\n4,4,1\n5,5,1\n6,6,1\n",
        (3, 2),
        (1, 2),
        0,
        b"0:1 2 3 1:4 5 6",
    ),
    (b"7,1,1\n7,2,1\n7,3,1\n1,2,1\n", (3, 1), (1, 1), 2, b"2:1 7"),
    (b"7,1,1\n7,2,1\n7,3,1\n", (3, 1), (3, 1), 0, b"0:7 1:7 2:7"),
];

/// The needs, as the cases write them.
fn shown(alloc: Global, needs: &[Need]) -> Result<Vec<u8>, Fail> {
    let mut text = Vec::new(alloc);
    for need in needs {
        if !text.is_empty() {
            text.push(b' ')?;
        }
        write_number(&mut text, u128::from(need.pet))?;
        text.push(b':')?;
        for (place, cell) in need.cells.items().iter().enumerate() {
            if place > 0 {
                text.push(b' ')?;
            }
            write_number(&mut text, u128::from(*cell))?;
        }
    }
    Ok(text)
}

/// What the PETs of a grid need that is cut into blocks; nothing where it can't be cut so.
fn needs_of(
    weights: &Weights,
    (nx, ny): (u32, u32),
    (px, py): (u32, u32),
    first: u8,
) -> Result<Vec<Need>, Fail> {
    let grid = Grid {
        nx,
        ny,
        periodic: false,
    };
    if nx < 1 || ny < 1 || nx > 100 || ny > 100 || px < 1 || py < 1 || px > 8 || py > 8 {
        return Err(Fail::from("no blocks"));
    }
    let pets = (px * py) as u8;
    if u32::from(first) + u32::from(pets) > 64 {
        return Err(Fail::from("too many PETs"));
    }
    let decomp = Decomp::new(grid, px, py, first, pets)?;
    if decomp.grid().cells() != weights.dst_cells() {
        return Err(Fail::from("other cells"));
    }
    Ok(weights.needs(&decomp)?)
}

#[test]
fn cases(rt: HostRuntime) -> Result<(), Fail> {
    let alloc = rt.alloc();
    for (place, (file, cells, blocks, first, wanted)) in CASES.iter().enumerate() {
        let count = cells.0.saturating_mul(cells.1);
        let weights = read_weights(alloc, *file, 7, count)?;
        let needs = needs_of(&weights, *cells, *blocks, *first)?;
        assert_eq!(rt;
            shown(alloc, needs.as_slice())?.as_slice(),
            *wanted,
            "case {place}"
        );
    }
    Ok(())
}
