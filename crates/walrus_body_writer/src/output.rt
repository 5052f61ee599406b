//! Where operators are written to.

ghost use Rattle.std.specs.Prelude.{◌≡◌, ◌++◌, [], ◌∷◌, IfOk, OnErr, OnOk, if◌then◌else◌, length, take};
ghost use Rattle.walrus_pairing.specs.walrus_operators.Operators.{seen};
ghost use Rattle.walrus_body_writer.specs.Outputs.{IsAside, IsCut, IsNoted, IsSame, IsTaken, Joins, Puts, is_short, moved};

use std::alloc::{AllocError, Global};
use walrus_body_text::tree::instr::InstrLocId;
use walrus_operators::write_operator;
use walrus_pairing::operators::Operator;

/// Bytes that are written, and the places of the operators among them.
#[derive(Drop)]
pub struct Output {
    /// The bytes.
    pub bytes: Vec<u8>,
    /// For each written operator its location and the place of its first byte among the bytes.
    pub places: Vec<(InstrLocId, usize)>,
    /// Whether places are kept.
    pub keeps_places: bool,
}

// Puts places behind these, each so much further on.
fn append_places(
    places: &mut Vec<(InstrLocId, usize)>,
    more: &[(InstrLocId, usize)],
    by: usize,
) -> Result<(), AllocError>
    ensures put { OnOk result (places.new.items ≡ places.old.items ++ moved by more.now) }
    ensures kept { take (length places.old.items) places.new.items ≡ places.old.items }
{
    for (place, at) in more {
        let Some(at) = by.checked_add(*at) else {
            return Err(AllocError);
        };
        places.push((*place, at))?;
    }
    Ok(())
}

impl Output {
    /// No bytes; places are kept if that is wanted. Takes no memory.
    pub fn new(alloc: Global, keeps_places: bool) -> Self
        ensures bytes { result.bytes.items ≡ [] }
        ensures places { result.places.items ≡ [] }
        ensures keeps { result.keeps_places ≡ keeps_places }
    {
        Output {
            bytes: Vec::new(alloc),
            places: Vec::new(alloc),
            keeps_places,
        }
    }

    // An operator that begins there was written.
    fn note(&mut self, place: InstrLocId, at: usize) -> Result<(), AllocError>
        ensures places { OnOk result (self.new.places.items ≡ (if self.old.keeps_places then self.old.places.items ++ (place, at) ∷ [] else self.old.places.items)) }
        ensures unnoted { OnErr result (self.new.places.items ≡ self.old.places.items) }
        ensures bytes { self.new.bytes ≡ self.old.bytes }
        ensures keeps { self.new.keeps_places ≡ self.old.keeps_places }
    {
        if self.keeps_places {
            self.places.push((place, at))?;
        }
        Ok(())
    }

    /// The bytes behind this place are an operator: notes it, or cuts them off.
    ///
    /// # Errors
    ///
    /// Want of memory.
    #[inline]
    pub(crate) fn end(&mut self, place: InstrLocId, at: usize) -> Result<(), AllocError>
        ensures noted { OnOk result (IsNoted place at self.old self.new) }
        ensures cut { OnErr result (IsCut at self.old self.new) }
    {
        if let Err(refused) = self.note(place, at) {
            self.bytes.truncate(at);
            return Err(refused);
        }
        Ok(())
    }

    // Puts what was written elsewhere behind what was written here. Where memory is wanted the bytes and places are as they were.
    fn append(&mut self, more: &Output) -> Result<(), AllocError>
        ensures joined { OnOk result (Joins more.now self.old self.new) }
        ensures unjoined { OnErr result (IsSame self.old self.new) }
    {
        let count = self.places.len();
        let by = self.bytes.len();
        if let Err(refused) = append_places(&mut self.places, more.places.as_slice(), by) {
            self.places.truncate(count);
            return Err(refused);
        }
        if let Err(refused) = self.bytes.extend_from_slice(more.bytes.as_slice()) {
            self.places.truncate(count);
            return Err(refused);
        }
        Ok(())
    }

    // Whether no place and so few bytes were written, as of a body's locals, that to copy them takes no time.
    fn is_short(&self) -> bool
        ensures { result ≡ is_short self.now }
    {
        self.places.is_empty() && self.bytes.len() <= 64
    }

    /// Where more may be written apart: behind a copy of what was written if that is short, else behind nothing.
    ///
    /// # Errors
    ///
    /// Want of memory.
    pub(crate) fn aside(&self, alloc: Global) -> Result<Self, AllocError>
        ensures { IfOk result (λ own. IsAside self.now own) }
    {
        let mut own = Output::new(alloc, self.keeps_places);
        if self.is_short() {
            own.bytes.extend_from_slice(self.bytes.as_slice())?;
        }
        Ok(own)
    }

    /// Takes what was written apart, so that it stands behind what was written.
    ///
    /// # Errors
    ///
    /// Want of memory. The bytes and places are as they were.
    pub(crate) fn take(&mut self, own: Output) -> Result<(), AllocError>
        ensures taken { OnOk result (IsTaken own self.old self.new) }
        ensures untaken { OnErr result (IsSame self.old self.new) }
    {
        if self.is_short() {
            *self = own;
            return Ok(());
        }
        self.append(&own)
    }

    /// Puts an operator behind what was written, in its shortest spelling.
    ///
    /// # Errors
    ///
    /// Want of memory. The bytes and places are as they were.
    pub fn write(&mut self, operator: &Operator, place: InstrLocId) -> Result<(), AllocError>
        ensures put { OnOk result (Puts (seen operator.now) place self.old self.new) }
        ensures unwritten { OnErr result (IsSame self.old self.new) }
    {
        let at = self.bytes.len();
        write_operator(&mut self.bytes, operator)?;
        self.end(place, at)
    }
    /// Forgets what was written, and keeps its memory.
    pub fn clear(&mut self)
        ensures bytes { self.new.bytes.items ≡ [] }
        ensures places { self.new.places.items ≡ [] }
        ensures keeps { self.new.keeps_places ≡ self.old.keeps_places }
    {
        self.bytes.clear();
        self.places.clear();
    }
}
