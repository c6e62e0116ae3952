//! Sets of the numbers from 0 to 63, as the bits of a number.

ghost use Rattle.std.specs.Prelude.{◌≡◌, ◌≢◌, ℕ, ◌<◌, ◌≤◌};
ghost use Rattle.std.specs.Int.{bit_at};

/// The set with one more number.
pub fn with(set: u64, at: u8) -> u64
    requires { at < 64 }
    ensures there { bit_at result at ≡ 1 }
    ensures others { (i : ℕ) → i ≢ at → bit_at result i ≡ bit_at set i }
{
    set | (1 << u32::from(at))
}

/// The set without a number.
pub fn without(set: u64, at: u8) -> u64
    requires { at < 64 }
    ensures less { result ≤ set }
    ensures gone { bit_at result at ≡ 0 }
    ensures others { (i : ℕ) → i < 64 → i ≢ at → bit_at result i ≡ bit_at set i }
{
    set & !(1 << u32::from(at))
}

/// The least number of a set.
pub fn least(set: u64) -> u8
    requires { 0 < set }
    ensures within { result < 64 }
    ensures there { bit_at set result ≡ 1 }
    ensures none { (i : ℕ) → i < result → bit_at set i ≡ 0 }
{
    set.trailing_zeros() as u8
}

/// The greatest number of a set.
pub fn greatest(set: u64) -> u8
    requires { 0 < set }
    ensures within { result < 64 }
    ensures there { bit_at set result ≡ 1 }
    ensures none { (i : ℕ) → result < i → bit_at set i ≡ 0 }
{
    63 - set.leading_zeros() as u8
}
