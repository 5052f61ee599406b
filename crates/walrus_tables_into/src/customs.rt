//! Custom sections (Core Specification, custom section).

ghost use Rattle.std.specs.Prelude.{◌≡◌, OnOk, OnErr};
ghost use Rattle.walrus_sections_into.specs.Slots.{Filled, FilledInPart};
ghost use Rattle.walrus_tables_into.specs.Customs.{IsCustomOf, is_payload, plain, plain_if};

use std::alloc::AllocError;
use walrus_sections::Sections;
use walrus_sections_into::known_sections::Custom;

// Whether its names or producers have places of their own in a module.
fn is_payload(custom: &Custom<'_>) -> bool
    ensures { result ≡ is_payload custom.now }
{
    custom.name == "name" || custom.name == "producers"
}

// Adds the section, if it stays one.
fn add_custom<B: Drop>(custom: &Custom<'_>, into: &mut Sections<B>) -> Result<(), AllocError>
    ensures added { OnOk result (Filled IsCustomOf (plain_if custom.now) into.old.slots into.new.slots) }
    ensures refused { OnErr result (into.new.slots ≡ into.old.slots) }
{
    if is_payload(custom) {
        return Ok(());
    }
    into.add_raw(custom.name, custom.bytes)?;
    Ok(())
}

/// Adds the custom sections as they stand, in their order, but for those called `name` and `producers`: what they say is kept as the
/// names of items and the producers of a module.
///
/// # Errors
///
/// Want of memory. The first of the sections may be there.
pub fn add_customs<B: Drop>(
    customs: &[Custom<'_>],
    into: &mut Sections<B>,
) -> Result<(), AllocError>
    ensures added { OnOk result (Filled IsCustomOf (plain customs.now) into.old.slots into.new.slots) }
    ensures in_part { OnErr result (FilledInPart IsCustomOf (plain customs.now) into.old.slots into.new.slots) }
{
    for custom in customs {
        add_custom(custom, into)?;
    }
    Ok(())
}
