//! Names (Core Specification, binary format, values: names).

ghost use Rattle.wasm_reader.specs.Reading.{Reads, plain, seen_bytes};
ghost use Rattle.wasm_reader.specs.Text.{size_at, skipped_string_at, string_at, text_at, unlimited_string_at};

use crate::error::{Error, ErrorKind, Result};
use crate::limits::MAX_WASM_STRING_SIZE;
use crate::reader::BinaryReader;

impl<'a> BinaryReader<'a> {
    /// A length or a count of at most `limit`. A greater one is `Limit` at its first byte.
    #[tactic(auto, unfolding(crate::specs::Text::size_at))]
    pub fn read_size(&mut self, limit: usize) -> Result<usize>
        ensures { Reads (size_at limit) plain self.old self.new result }
    {
        let offset = self.original_position();
        let size = self.read_var_u32()? as usize;
        if size > limit {
            return Err(Error::new(ErrorKind::Limit, offset));
        }
        Ok(size)
    }

    #[tactic(auto, using(crate::proofs::Utf8::is_text, crate::proofs::Utf8::is_no_text), unfolding(crate::specs::Text::text_at))]
    fn read_text(&mut self, size: usize) -> Result<&'a str>
        ensures { Reads (text_at size) seen_bytes self.old self.new result }
    {
        let offset = self.original_position();
        let bytes = self.read_bytes(size)?;
        match str::from_utf8(bytes) {
            Ok(text) => Ok(text),
            Err(_) => Err(Error::new(ErrorKind::Utf8, offset)),
        }
    }

    /// A name: a length of at most [`MAX_WASM_STRING_SIZE`], and that many bytes of text, borrowed from the input.
    /// `Limit` at the length's first byte, `Utf8` at the text's, `EndOfFile` where bytes are missing.
    #[tactic(auto, unfolding(crate::specs::Text::string_at))]
    pub fn read_string(&mut self) -> Result<&'a str>
        ensures { Reads string_at seen_bytes self.old self.new result }
    {
        let size = self.read_size(MAX_WASM_STRING_SIZE)?;
        self.read_text(size)
    }

    /// A name of any length, refused as [`BinaryReader::read_string`] is, `Limit` aside.
    #[tactic(auto, unfolding(crate::specs::Text::unlimited_string_at))]
    pub fn read_unlimited_string(&mut self) -> Result<&'a str>
        ensures { Reads unlimited_string_at seen_bytes self.old self.new result }
    {
        let size = self.read_var_u32()? as usize;
        self.read_text(size)
    }

    /// Reads a name, and refuses it, as [`BinaryReader::read_string`] does.
    #[tactic(auto, unfolding(crate::specs::Text::skipped_string_at))]
    pub fn skip_string(&mut self) -> Result<()>
        ensures { Reads skipped_string_at plain self.old self.new result }
    {
        self.read_string()?;
        Ok(())
    }
}
