//! Copies of values by lists of places.

ghost use Rattle.std.specs.Prelude.{◌≡◌, ◌<◌, All, length};
ghost use Rattle.cpl_field.specs.Copies.{AreApart, AreSame, IsCopied};

/// Copies values to places of a field from other places of it: the place `to[j]` gets what stands at `from[j]`. A place
/// may be filled twice, from one place, and none that is filled is copied from. Takes no memory.
///
/// Source: this project's own.
pub fn copy_within(field: &mut [i64], to: &[u32], from: &[u32])
    requires count { length from.now ≡ length to.now }
    requires to { All (λ place. place < length field.old) to.now }
    requires from { All (λ place. place < length field.old) from.now }
    requires same { AreSame to.now from.now }
    requires apart { AreApart to.now from.now }
    ensures { IsCopied to.now from.now field.old field.old field.new }
{
    for j in 0..to.len() {
        field[to[j] as usize] = field[from[j] as usize];
    }
}

/// Copies values to places of a field: the place `to[j]` gets the value at `from[j]`. A place may be filled twice, from
/// one place. Takes no memory.
///
/// Source: this project's own.
pub fn copy_from(field: &mut [i64], to: &[u32], from: &[u32], values: &[i64])
    requires count { length from.now ≡ length to.now }
    requires to { All (λ place. place < length field.old) to.now }
    requires from { All (λ place. place < length values.now) from.now }
    requires same { AreSame to.now from.now }
    ensures { IsCopied to.now from.now values.now field.old field.new }
{
    for j in 0..to.len() {
        field[to[j] as usize] = values[from[j] as usize];
    }
}
