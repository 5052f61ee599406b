//! Floats, as their bits.

ghost use Rattle.std.specs.Prelude.{◌≡◌};

/// The bits of an f32.
#[derive(Clone, Copy, Debug, PartialEq, Eq, PartialOrd, Ord, Hash)]
pub struct Ieee32(pub u32);

/// The bits of an f64.
#[derive(Clone, Copy, Debug, PartialEq, Eq, PartialOrd, Ord, Hash)]
pub struct Ieee64(pub u64);

impl Ieee32 {
    /// The bits.
    pub fn bits(self) -> u32
        ensures { result ≡ self.0 }
    {
        self.0
    }
}

impl Ieee64 {
    /// The bits.
    pub fn bits(self) -> u64
        ensures { result ≡ self.0 }
    {
        self.0
    }
}
