//! Laws of the sections `name` and `producers` that are written: each is read as the custom section that it is, and gives back what was written.
#![tactic(auto)]

ghost use Rattle.walrus_payload_laws.specs.Laws.{WrittenNamesAreRead, WrittenProducersAreRead};

/// The section `name` that `write_names` writes stands as a custom section whose payload gives the names back, those of what isn't there
/// aside.
pub fn written_names_are_read()
    ensures { WrittenNamesAreRead }
{
    wasm_name_payloads::laws::names_are_read_back();
}

/// And so does the section `producers` that `write_producers` writes.
pub fn written_producers_are_read()
    ensures { WrittenProducersAreRead }
{
    wasm_name_payloads::laws::producers_are_read();
}
