//! What holds of every route.

ghost use Rattle.std.specs.Prelude.{ℕ, Bool, List};
ghost use Rattle.cpl_grid.specs.Owners.{Layout};
ghost use Rattle.cpl_route.specs.Routes.{AreSharedCells};

/// What holds of every route, whatever its receivers need: from a PET that has a block to a receiver it leads just the
/// cells that the one owns and the other needs, and between other PETs none. Those cells ascend, each once.
///
/// Source: this project's own.
pub fn route_laws()
    ensures { (src : Layout) (is_needed : ℕ → ℕ → Bool) (receivers : List ℕ) → AreSharedCells src is_needed receivers }
{}
