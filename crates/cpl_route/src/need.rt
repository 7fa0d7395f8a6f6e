//! What a PET needs of a grid.

ghost use Rattle.std.specs.Prelude.{◌≡◌};
ghost use Rattle.cpl_route.specs.Routes.{are_ascending, is_ascending};

use cpl_base::Many;

/// The cells of a grid that a PET needs, in any order and perhaps more than once.
///
/// Source: this project's own.
#[derive(Debug, Drop)]
pub struct Need {
    /// The PET.
    pub pet: u8,
    /// The sequence indices of the cells.
    pub cells: Many<u32>,
}

/// Whether the lists are in the order of their PETs, each PET once, and the cells of each ascend, perhaps with repeats.
///
/// Source: this project's own.
pub fn are_ascending(needs: &[Need]) -> bool
    ensures { result ≡ are_ascending needs.now }
{
    let mut free = 0;
    for need in needs {
        if u16::from(need.pet) < free || !is_ascending(need.cells.items()) {
            return false;
        }
        free = u16::from(need.pet) + 1;
    }
    true
}

/// Whether each number is at least the one before it.
fn is_ascending(cells: &[u32]) -> bool
    ensures { result ≡ is_ascending 0 cells.now }
{
    let mut least = 0;
    for cell in cells {
        if *cell < least {
            return false;
        }
        least = *cell;
    }
    true
}
