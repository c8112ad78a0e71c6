//! Sets of numbers below 64, as the bits of one word.

ghost use Rattle.std.specs.Prelude.{◌≡◌, ◌≢◌, ◌↔◌, ℕ, ◌<◌, ◌≤◌, IsTrue, IfSome, IfNone};
ghost use Rattle.std.specs.Int.{bit_at};

pub(crate) fn is_set(word: u64, bit: u32) -> bool
    requires { bit < 64 }
    ensures { IsTrue result ↔ (bit_at word bit ≡ 1) }
{
    word & (1 << bit) != 0
}

pub(crate) fn with_bit(word: u64, bit: u32) -> u64
    requires { bit < 64 }
    ensures set { bit_at result bit ≡ 1 }
    ensures others { (i : ℕ) → i < 64 → i ≢ bit → bit_at result i ≡ bit_at word i }
{
    word | (1 << bit)
}

pub(crate) fn without_bit(word: u64, bit: u32) -> u64
    requires { bit < 64 }
    ensures clear { bit_at result bit ≡ 0 }
    ensures others { (i : ℕ) → i < 64 → i ≢ bit → bit_at result i ≡ bit_at word i }
{
    word & !(1 << bit)
}

/// Returns the number of the lowest clear bit that is at least `least`, or `None` if all bits from
/// `least` on are set.
pub(crate) fn first_clear(word: u64, least: u32) -> Option<u32>
    requires { least < 64 }
    ensures within { IfSome result (λ bit. bit < 64) }
    ensures least { IfSome result (λ bit. least ≤ bit) }
    ensures clear { IfSome result (λ bit. bit_at word bit ≡ 0) }
    ensures first { IfSome result (λ bit. (i : ℕ) → least ≤ i → i < bit → bit_at word i ≡ 1) }
    ensures none { IfNone result ((i : ℕ) → least ≤ i → i < 64 → bit_at word i ≡ 1) }
{
    let filled = word | ((1 << least) - 1);
    if filled == u64::MAX {
        return None;
    }
    Some(filled.trailing_ones())
}
