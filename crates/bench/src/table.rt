//! Values as a run has them: up to a thousand units above and below 0.

ghost use Rattle.std.specs.Prelude.{◌≡◌, All, IfOk, length};
ghost use Rattle.cpl_base.specs.Numbers.{IsValue};

use std::alloc::{AllocError, Global};

/// The inputs of 1,024 cells: each begins one value behind the one before it, and takes six.
const COUNT: u64 = 1_029;

/// Half the range of 31 bits.
const HALF: i64 = 1_073_741_824;

/// The same values each time, in no order.
pub fn table(alloc: Global) -> Result<Vec<i64>, AllocError>
    ensures values { IfOk result (λ values. All IsValue values.items) }
    ensures count { IfOk result (λ values. length values.items ≡ 1029) }
{
    let mut values = Vec::new(alloc);
    let mut state = 1u64;
    'fill: for _ in 0..COUNT {
        state = state
            .wrapping_mul(6_364_136_223_846_793_005)
            .wrapping_add(1_442_695_040_888_963_407);
        values.push((state / 8_589_934_592) as i64 - HALF)?;
    }
    Ok(values)
}
