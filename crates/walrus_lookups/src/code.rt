//! Where code stands in a file.
ghost use Rattle.std.specs.Prelude.{◌≡◌, ◌<◌, ◌≤◌, ◌+◌, ◌++◌, List, ℕ, IfSome, MatchOption, Ok, IsErr, length};
ghost use Rattle.wasm_reader.specs.Cursor.{rest};
ghost use Rattle.wasm_reader.specs.Reading.{bytes_at};
ghost use Rattle.walrus_lookups.specs.Code.{CodeBegins, IsCodeOf, header, section_at};

use wasm_reader::BinaryReader;

// The magic number and the version.
const HEADER: [u8; 8] = *b"\0asm\x01\0\0\0";

// The id of the code section.
const CODE: u8 = 10;

// The id and the size of the next section.
fn read_section(reader: &mut BinaryReader<'_>) -> Option<(u8, u32)>
    ensures read { MatchOption result (IsErr (section_at (rest reader.old))) (λ s. section_at (rest reader.old) ≡ Ok (s, rest reader.new)) }
    ensures moves { MatchOption result (length (rest reader.new) ≤ length (rest reader.old)) (λ _. length (rest reader.new) < length (rest reader.old)) }
{
    match reader.read_u8() {
        Ok(id) => match reader.read_var_u32() {
            Ok(size) => Some((id, size)),
            Err(_) => None,
        },
        Err(_) => None,
    }
}

// Reads past so many bytes, if there are as many.
fn skip_bytes(reader: &mut BinaryReader<'_>, size: u32) -> Option<()>
    ensures read { MatchOption result (IsErr (bytes_at size (rest reader.old))) (λ _. (run : List ℕ) × (bytes_at size (rest reader.old) ≡ Ok (run, rest reader.new))) }
    ensures moves { length (rest reader.new) ≤ length (rest reader.old) }
{
    match reader.read_bytes(size as usize) {
        Ok(_) => Some(()),
        Err(_) => None,
    }
}

// How many bytes are left where the contents of the code section begin.
fn left_at_code(sections: &[u8]) -> Option<usize>
    ensures found { MatchOption result ((contents : List ℕ) → CodeBegins sections.now contents → ⊥) (λ left. (contents : List ℕ) × CodeBegins sections.now contents × (left ≡ length contents)) }
    ensures within { IfSome result (λ left. left ≤ length sections.now) }
{
    let mut reader = BinaryReader::new(sections, 0);
    while let Some((id, size)) = read_section(&mut reader) {
        if id == CODE {
            return Some(reader.bytes_remaining());
        }
        let Some(()) = skip_bytes(&mut reader, size) else {
            return None;
        };
    }
    None
}

// What stands behind the header, if the file begins so.
fn behind_header(file: &[u8]) -> Option<&[u8]>
    ensures { MatchOption result ((sections : List ℕ) → file.now ≡ header ++ sections → ⊥) (λ sections. file.now ≡ header ++ sections.now) }
{
    file.strip_prefix(HEADER.as_slice())
}

/// The offset in a file at which the contents of its code section begin, from which locations are counted. `None` where the file doesn't begin as a
/// module, has no code section, or is broken off in front of it.
pub fn code_section_start(file: &[u8]) -> Option<usize>
    ensures { MatchOption result ((contents : List ℕ) → IsCodeOf file.now contents → ⊥) (λ start. (contents : List ℕ) × IsCodeOf file.now contents × (start + length contents ≡ length file.now)) }
{
    let sections = behind_header(file)?;
    let left = left_at_code(sections)?;
    Some(file.len() - left)
}
