//! What a file must not lack at its end.

ghost use Rattle.std.specs.Prelude.{◌≡◌, ◌&&◌};
ghost use Rattle.walrus_entry_readers.specs.walrus_known_sections.wasm_sections.Modules.{has_bodies, has_data};
ghost use Rattle.walrus_entry_readers.specs.walrus_known_sections.State.{state_of};

use walrus_entry_readers::Sections;

// Whether there are bodies, or no function wants one.
fn has_bodies(sections: &Sections<'_>) -> bool
    ensures { result ≡ has_bodies (state_of sections.now) }
{
    sections.bodies.is_some() || sections.functions.len().saturating_sub(sections.imported) == 0
}

// Whether there are as many data segments as the data count says.
fn has_data(sections: &Sections<'_>) -> bool
    ensures { result ≡ has_data (state_of sections.now) }
{
    match sections.data_count {
        Some(count) => count as usize == sections.segments.len(),
        None => true,
    }
}

/// Whether no bodies are missing, and no data.
pub fn has_all(sections: &Sections<'_>) -> bool
    ensures { result ≡ (has_bodies (state_of sections.now) && has_data (state_of sections.now)) }
{
    has_bodies(sections) && has_data(sections)
}
