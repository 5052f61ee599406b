//! What loads, stores and atomic accesses do (Core Specification, memory instructions).
ghost use Rattle.std.specs.Prelude.{◌≡◌};
ghost use Rattle.walrus_instr.specs.Widths.{extends_atomically, load_width, load_is_atomic, store_width, store_is_atomic, atomic_bytes};

/// Alignment and offset of a memory access, in bytes.
#[derive(Clone, Copy, PartialEq, Eq)]
pub struct MemArg {
    /// The alignment. What is written is the count of its trailing zeros, at most 31.
    pub align: u32,
    /// What is added to the address.
    pub offset: u64,
}

/// How a load from fewer bits fills the rest.
#[derive(Clone, Copy, PartialEq, Eq)]
pub enum ExtendedLoad {
    /// By copies of the sign.
    SignExtend,
    /// By zeros.
    ZeroExtend,
    /// By zeros, in one atomic access.
    ZeroExtendAtomic,
}

impl ExtendedLoad {
    /// Whether the access is atomic.
    pub fn atomic(&self) -> bool
        ensures { result ≡ extends_atomically self.now }
    {
        match self {
            ExtendedLoad::SignExtend | ExtendedLoad::ZeroExtend => false,
            ExtendedLoad::ZeroExtendAtomic => true,
        }
    }
}

/// What is loaded: the type of the value, then the bits that are read, where they are fewer.
#[derive(Clone, Copy, PartialEq, Eq)]
pub enum LoadKind {
    I32 { atomic: bool },
    I64 { atomic: bool },
    F32,
    F64,
    V128,
    I32_8 { kind: ExtendedLoad },
    I32_16 { kind: ExtendedLoad },
    I64_8 { kind: ExtendedLoad },
    I64_16 { kind: ExtendedLoad },
    I64_32 { kind: ExtendedLoad },
}

impl LoadKind {
    /// How many bytes are read.
    pub fn width(&self) -> u32
        ensures { result ≡ load_width self.now }
    {
        match self {
            LoadKind::I32_8 { .. } | LoadKind::I64_8 { .. } => 1,
            LoadKind::I32_16 { .. } | LoadKind::I64_16 { .. } => 2,
            LoadKind::I32 { .. } | LoadKind::F32 | LoadKind::I64_32 { .. } => 4,
            LoadKind::I64 { .. } | LoadKind::F64 => 8,
            LoadKind::V128 => 16,
        }
    }

    /// Whether the access is atomic.
    pub fn atomic(&self) -> bool
        ensures { result ≡ load_is_atomic self.now }
    {
        match self {
            LoadKind::I32 { atomic } | LoadKind::I64 { atomic } => *atomic,
            LoadKind::F32 | LoadKind::F64 | LoadKind::V128 => false,
            LoadKind::I32_8 { kind }
            | LoadKind::I32_16 { kind }
            | LoadKind::I64_8 { kind }
            | LoadKind::I64_16 { kind }
            | LoadKind::I64_32 { kind } => kind.atomic(),
        }
    }
}

/// What is stored: the type of the value, then the bits that are written, where they are fewer.
#[derive(Clone, Copy, PartialEq, Eq)]
pub enum StoreKind {
    I32 { atomic: bool },
    I64 { atomic: bool },
    F32,
    F64,
    V128,
    I32_8 { atomic: bool },
    I32_16 { atomic: bool },
    I64_8 { atomic: bool },
    I64_16 { atomic: bool },
    I64_32 { atomic: bool },
}

impl StoreKind {
    /// How many bytes are written.
    pub fn width(&self) -> u32
        ensures { result ≡ store_width self.now }
    {
        match self {
            StoreKind::I32_8 { .. } | StoreKind::I64_8 { .. } => 1,
            StoreKind::I32_16 { .. } | StoreKind::I64_16 { .. } => 2,
            StoreKind::I32 { .. } | StoreKind::F32 | StoreKind::I64_32 { .. } => 4,
            StoreKind::I64 { .. } | StoreKind::F64 => 8,
            StoreKind::V128 => 16,
        }
    }

    /// Whether the access is atomic.
    pub fn atomic(&self) -> bool
        ensures { result ≡ store_is_atomic self.now }
    {
        match self {
            StoreKind::F32 | StoreKind::F64 | StoreKind::V128 => false,
            StoreKind::I32 { atomic }
            | StoreKind::I64 { atomic }
            | StoreKind::I32_8 { atomic }
            | StoreKind::I32_16 { atomic }
            | StoreKind::I64_8 { atomic }
            | StoreKind::I64_16 { atomic }
            | StoreKind::I64_32 { atomic } => *atomic,
        }
    }
}

/// A vector access that fills, widens, or reads or writes one lane, which it then holds.
#[derive(Clone, Copy, PartialEq, Eq)]
pub enum LoadSimdKind {
    /// `v128.load8_splat`, and so on.
    Splat8,
    Splat16,
    Splat32,
    Splat64,
    V128Load8x8S,
    V128Load8x8U,
    V128Load16x4S,
    V128Load16x4U,
    V128Load32x2S,
    V128Load32x2U,
    V128Load32Zero,
    V128Load64Zero,
    V128Load8Lane(u8),
    V128Load16Lane(u8),
    V128Load32Lane(u8),
    V128Load64Lane(u8),
    V128Store8Lane(u8),
    V128Store16Lane(u8),
    V128Store32Lane(u8),
    V128Store64Lane(u8),
}

/// What an atomic read, change and write does.
#[derive(Clone, Copy, PartialEq, Eq)]
pub enum AtomicOp {
    Add,
    Sub,
    And,
    Or,
    Xor,
    Xchg,
}

/// The type of an atomic change, then the bits that are changed, where they are fewer.
#[derive(Clone, Copy, PartialEq, Eq)]
pub enum AtomicWidth {
    I32,
    I32_8,
    I32_16,
    I64,
    I64_8,
    I64_16,
    I64_32,
}

impl AtomicWidth {
    /// How many bytes are changed.
    pub fn bytes(&self) -> u32
        ensures { result ≡ atomic_bytes self.now }
    {
        match self {
            AtomicWidth::I32_8 | AtomicWidth::I64_8 => 1,
            AtomicWidth::I32_16 | AtomicWidth::I64_16 => 2,
            AtomicWidth::I32 | AtomicWidth::I64_32 => 4,
            AtomicWidth::I64 => 8,
        }
    }
}
