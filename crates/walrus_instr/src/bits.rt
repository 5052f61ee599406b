//! The bits of a vector constant.
ghost use Rattle.std.specs.Prelude.{◌≡◌};

use std::marker::Model;

/// 128 bits, kept as two halves: what holds them is aligned as a `u64` is.
#[derive(Clone, Copy, PartialEq, Eq)]
pub struct Bits128 {
    low: u64,
    high: u64,
}

impl Model for Bits128 {
    ghost use Rattle.std.specs.Prelude.{ℕ, ◌+◌, ◌*◌, ◌/◌, ◌%◌, ◌<◌};
    ghost use Rattle.walrus_instr.specs.Bits.{halves_of, halves-again};

    ghost Value = { ℕ };

    ghost view = { λ b. b.low + 18446744073709551616 * b.high };

    ghost invariant = { λ b. b.low < 18446744073709551616 };

    ghost inverse = { λ n. let h = halves_of n in record { low = h.0; high = h.1 } };

    ghost inverse_ok = { λ b h. halves-again (λ low high. record { low = low; high = high }) b.low b.high h };
}

impl Bits128 {
    /// These bits.
    pub fn new(bits: u128) -> Self
        ensures { result ≡ bits }
    {
        Bits128 {
            low: (bits % 0x1_0000_0000_0000_0000) as u64,
            high: (bits / 0x1_0000_0000_0000_0000) as u64,
        }
    }

    /// The bits as a number.
    pub fn get(self) -> u128
        ensures { result ≡ self }
    {
        self.high as u128 * 0x1_0000_0000_0000_0000 + self.low as u128
    }
}
