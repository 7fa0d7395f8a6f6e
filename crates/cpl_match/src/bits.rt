//! Words whose bits stand for ports.

ghost use Rattle.std.specs.Prelude.{◌≡◌, ℕ, ◌<◌, ◌||◌, ◌==◌, false, length};
ghost use Rattle.cpl_match.specs.Marks.{has_bit, is_set};

/// Whether the word at a place has this bit.
pub(crate) fn has_bit(words: &[u64], place: usize, bit: usize) -> bool
    requires place { place < length words.now }
    requires bit { bit < 64 }
    ensures { result ≡ has_bit words.now place bit }
{
    (words[place] >> bit) & 1 == 1
}

/// The bits of either word.
pub(crate) fn either(a: u64, b: u64) -> u64
    ensures { (bit : ℕ) → is_set result bit ≡ (is_set a bit || is_set b bit) }
{
    a | b
}

/// A word with this bit alone.
pub(crate) fn lone_bit(bit: usize) -> u64
    requires { bit < 64 }
    ensures { (other : ℕ) → is_set result other ≡ (bit == other) }
{
    1 << bit
}

/// Takes all bits away.
pub(crate) fn clear(words: &mut Vec<u64>)
    ensures count { length words.new.items ≡ length words.old.items }
    ensures none { (place bit : ℕ) → has_bit words.new.items place bit ≡ false }
{
    for place in 0..words.len() {
        words[place] = 0;
    }
}
