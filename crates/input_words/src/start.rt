//! Whether bytes are a module's text.

ghost use Rattle.std.specs.Prelude.{◌≡◌};
ghost use Rattle.input_words.specs.Starts.{start_after, start_of, start_then};

/// What bytes begin with, behind white space.
#[derive(Clone, Copy, Debug, PartialEq, Eq)]
pub enum Start {
    /// Nothing yet.
    Blank,
    /// `(`, as each text of a module does.
    Text,
    /// Another byte.
    Other,
}

impl Start {
    // The same, where one byte more is known.
    fn then(self, byte: u8) -> Start
        ensures { result ≡ start_then self byte }
    {
        match self {
            Start::Blank => start_of(byte),
            Start::Text | Start::Other => self,
        }
    }

    /// The same, where these bytes follow.
    pub fn after(self, bytes: &[u8]) -> Start
        ensures { result ≡ start_after self bytes.now }
    {
        let mut start = self;
        for byte in bytes {
            start = start.then(*byte);
        }
        start
    }
}

fn start_of(byte: u8) -> Start
    ensures { result ≡ start_of byte }
{
    match byte {
        b' ' | b'\t' | b'\n' | b'\r' => Start::Blank,
        b'(' => Start::Text,
        _ => Start::Other,
    }
}
