//! Fields: made, written, replaced, and copied into.

ghost use Rattle.std.specs.Prelude.{◌<◌, All, IsTrue, length};

use cpl_field::{Field, copy_from, field_examples, replace};
use std::alloc::Global;
use std::test::Fail;

/// A field with these values.
fn field(alloc: Global, values: &[i64]) -> Result<Field, Fail> {
    let mut field = Field::new(alloc, values.len())?;
    let slice = field.values_mut();
    if slice.len() == values.len() {
        slice.copy_from_slice(values);
    }
    Ok(field)
}

/// Fills two places of a field from another list.
fn fill_two(field: &mut Field, values: &[i64]) -> bool {
    let slice = field.values_mut();
    if slice.len() < 4 || values.len() < 2 {
        return false;
    }
    copy_from(slice, &[3, 0], &[1, 0], values);
    true
}

#[test]
fn fields(rt: HostRuntime) -> Result<(), Fail> {
    let alloc = rt.alloc();
    field_examples();
    assert_eq!(rt; Field::new(alloc, 0)?.values(), [].as_slice());
    assert_eq!(rt; Field::new(alloc, 3)?.values(), [0, 0, 0].as_slice());
    let first = field(alloc, &[1, -2, i64::MAX, i64::MIN])?;
    assert_eq!(rt; first.values(), [1, -2, i64::MAX, i64::MIN].as_slice());
    let mut fields = vec![in alloc; first, field(alloc, &[5])?]?;
    let mut next = field(alloc, &[7, 8])?;
    assert_eq!(rt; fields.len(), 2);
    replace(fields.as_mut_slice(), 1, &mut next);
    assert_eq!(rt; next.values(), [5].as_slice());
    assert_eq!(rt; fields.len(), 2);
    assert_eq!(rt; fields[1].values(), [7, 8].as_slice());
    assert_eq!(rt; fields[0].values(), [1, -2, i64::MAX, i64::MIN].as_slice());
    assert_eq!(rt; fill_two(&mut fields[0], &[40, 50]), true);
    assert_eq!(rt; fields[0].values(), [40, -2, i64::MAX, 50].as_slice());
    Ok(())
}
