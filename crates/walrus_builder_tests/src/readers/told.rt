//! What is read, or its fault, compared with the words of a row.

use test_words::{Words, nth, place};

pub mod types;

use wasm_reader::{Error, ErrorKind, Ieee32, Ieee64, Result, WasmFeatures};

/// A value that can be compared with the words of a row.
pub trait Told {
    fn tell(&self, words: &mut Words<'_>);
}

/// The same of a value that is the caller's.
pub fn tell<T>(value: T, words: &mut Words<'_>)
where
    T: Told + Drop,
{
    value.tell(words);
}

/// A number, or the fault.
pub fn tell_number<T>(read: Result<T>, words: &mut Words<'_>)
where
    T: Into<i128>,
{
    match read {
        Ok(number) => words.tell_number(number.into()),
        Err(e) => tell_fault(e, words),
    }
}

// The kinds of faults, in the order of the arms below.
const KINDS: &str = "end long large utf8 byte limit trailing off memory";

fn place_of(kind: ErrorKind) -> u32 {
    match kind {
        ErrorKind::EndOfFile(_) => 0,
        ErrorKind::TooLong => 1,
        ErrorKind::TooLarge => 2,
        ErrorKind::Utf8 => 3,
        ErrorKind::BadByte => 4,
        ErrorKind::Limit => 5,
        ErrorKind::Trailing => 6,
        ErrorKind::Feature(_) => 7,
        ErrorKind::Memory => 8,
    }
}

// Sets of features, in the order of the arms below.
const SETS: &str = "usual mvp floats shared gc no-shared no-gc";

/// The set of this name; all where there is none.
pub fn features(name: &[u8]) -> WasmFeatures {
    match place(SETS.as_bytes(), name) {
        0 => WasmFeatures::default(),
        1 => WasmFeatures::MVP,
        2 => WasmFeatures::FLOATS,
        3 => WasmFeatures::SHARED_EVERYTHING_THREADS,
        4 => WasmFeatures::GC_TYPES,
        5 => WasmFeatures::all() - WasmFeatures::SHARED_EVERYTHING_THREADS,
        6 => WasmFeatures::all() - WasmFeatures::GC_TYPES,
        _ => WasmFeatures::all(),
    }
}

/// A fault: its kind, how many bytes are missing or which feature is off, and its place.
pub fn tell_fault(e: Error, words: &mut Words<'_>) {
    words.tell(nth(KINDS.as_bytes(), place_of(e.kind())));
    match e.kind() {
        ErrorKind::EndOfFile(missing) => words.tell_number(missing as i128),
        ErrorKind::Feature(feature) => {
            let wanted = features(words.next());
            words.ask(feature == wanted);
        }
        _ => {}
    }
    words.tell_number(i128::from(e.offset()));
}

impl<T: Told> Told for Result<T> {
    fn tell(&self, words: &mut Words<'_>) {
        match self {
            Ok(value) => value.tell(words),
            Err(e) => tell_fault(*e, words),
        }
    }
}

// What comes next, or `none`.
impl<T: Told> Told for Option<T> {
    fn tell(&self, words: &mut Words<'_>) {
        match self {
            Some(value) => value.tell(words),
            None => words.tell(b"none"),
        }
    }
}

// How many there are, and each.
impl<T: Told> Told for Vec<T> {
    fn tell(&self, words: &mut Words<'_>) {
        words.tell_number(self.len() as i128);
        for item in self.as_slice() {
            item.tell(words);
        }
    }
}

// Nothing is known of it but that it was read.
impl Told for () {
    fn tell(&self, _words: &mut Words<'_>) {}
}

impl Told for u32 {
    fn tell(&self, words: &mut Words<'_>) {
        words.tell_number(i128::from(*self));
    }
}

impl Told for &[u8] {
    fn tell(&self, words: &mut Words<'_>) {
        words.tell_bytes(self);
    }
}

impl Told for &str {
    fn tell(&self, words: &mut Words<'_>) {
        words.tell_bytes(self.as_bytes());
    }
}

// By its bits.
impl Told for Ieee32 {
    fn tell(&self, words: &mut Words<'_>) {
        words.tell_number(i128::from(self.bits()));
    }
}

impl Told for Ieee64 {
    fn tell(&self, words: &mut Words<'_>) {
        words.tell_number(i128::from(self.bits()));
    }
}

impl Told for usize {
    fn tell(&self, words: &mut Words<'_>) {
        words.tell_number(*self as i128);
    }
}
