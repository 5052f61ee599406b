//! What a reader refuses, and where.

ghost use Rattle.std.specs.Prelude.{◌≡◌};
ghost use Rattle.wasm_reader.specs.Messages.{message_of, hint_of, missing_of};

use thiserror::Error as ThisError;
use wasm_features::WasmFeatures;

/// What a call of the reader answers.
pub type Result<T, E = Error> = std::result::Result<T, E>;

/// Why a reading was refused.
#[derive(Clone, Copy, Debug, PartialEq, Eq)]
pub enum ErrorKind {
    /// Bytes are missing: so many, from the fault's offset on.
    EndOfFile(usize),
    /// The last byte that a number may take goes on.
    TooLong,
    /// The last byte of a number has unused bits that do not fit.
    TooLarge,
    /// A text is not UTF-8.
    Utf8,
    /// A byte that no case allows.
    BadByte,
    /// A count, a length or an index is past its limit.
    Limit,
    /// A form whose feature, this one, is off.
    Feature(WasmFeatures),
    /// Bytes are left over at the end of a section.
    Trailing,
    /// Memory was refused.
    Memory,
}

/// A refused reading: its kind, and the offset of the byte where it stands.
#[derive(Clone, Copy, Debug, PartialEq, Eq, ThisError)]
#[error("{} (at offset 0x{offset:x})", .kind.message())]
pub struct Error {
    kind: ErrorKind,
    offset: u64,
}

impl ErrorKind {
    /// The fault's text.
    pub fn message(&self) -> &'static str
        ensures { result.now ≡ message_of self.now }
    {
        match self {
            ErrorKind::EndOfFile(_) => "unexpected end",
            ErrorKind::TooLong => "number is too long",
            ErrorKind::TooLarge => "number is too large",
            ErrorKind::Utf8 => "text is not UTF-8",
            ErrorKind::BadByte => "byte is not allowed here",
            ErrorKind::Limit => "count passes a limit",
            ErrorKind::Feature(_) => "feature is off",
            ErrorKind::Trailing => "trailing bytes",
            ErrorKind::Memory => "out of memory",
        }
    }
}

impl Error {
    /// A fault of this kind at this offset.
    pub fn new(kind: ErrorKind, offset: u64) -> Self
        ensures kind { result.kind ≡ kind }
        ensures offset { result.offset ≡ offset }
    {
        Error { kind, offset }
    }

    /// Why the reading was refused.
    pub fn kind(&self) -> ErrorKind
        ensures { result ≡ self.now.kind }
    {
        self.kind
    }

    /// The fault's text.
    pub fn message(&self) -> &'static str
        ensures { result.now ≡ message_of self.now.kind }
    {
        self.kind.message()
    }

    /// The offset of the byte where the fault stands.
    pub fn offset(&self) -> u64
        ensures { result ≡ self.now.offset }
    {
        self.offset
    }

    /// The feature that has to be on, where one is off.
    pub fn missing_wasm_feature(&self) -> Option<WasmFeatures>
        ensures { result ≡ missing_of self.now.kind }
    {
        match self.kind {
            ErrorKind::Feature(missing) => Some(missing),
            _ => None,
        }
    }

    /// How many more bytes the reading needs at least, where it met the end.
    pub fn needed_hint(&self) -> Option<usize>
        ensures { result ≡ hint_of self.now.kind }
    {
        match self.kind {
            ErrorKind::EndOfFile(needed) => Some(needed),
            _ => None,
        }
    }
}
