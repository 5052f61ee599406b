// Rewriting a module, from bytes to bytes.
ghost use Rattle.std.specs.Prelude.{◌≡◌, ◌<◌, ◌≤◌, ◌^◌, ◌↔◌, length, IfErr, IfOk, IfSome, IsErrOf, OnOk, vec_items, vec_len};
ghost use Rattle.std.specs.Option.{is_some, option_map};
ghost use Rattle.walrus_parse.specs.Parsed.{IsRead};
ghost use Rattle.wasm_rewriter.specs.Made.{IsRewritten, Keeps, WritesOut, WritesWhatIsKept, if_asked};
ghost use Rattle.wasm_rewriter.specs.Rewrites.{IsAccepted, IsRefused, IsUnread, MayBeRefused, config_of as flags_of};

use crate::faults::{fault_of, late_fault};
use crate::none::NoSection;
use crate::{Fault, Options};
use rewriter_devices::MAX_INPUT_LEN;
use std::alloc::{AllocError, Global};
use walrus_config::ModuleConfig;
use walrus_emit::{Emitted, emit_sound};
use walrus_module::Module;
use walrus_parse::Parse;
use walrus_passes::gc;
use wasm_modules::laws::read_dont_stop;

/// A module's bytes, and the pairs (old, new) of places, by rising new place, where they were asked for.
#[derive(Drop)]
pub struct Rewritten {
    pub bytes: Vec<u8>,
    pub places: Option<Vec<(u32, u32)>>,
}

impl Rewritten {
    /// The same bytes and pairs.
    ///
    /// # Errors
    ///
    /// Want of memory.
    pub fn clone(&self) -> Result<Self, AllocError>
        ensures bytes { IfOk result (λ copy. copy.bytes.items ≡ self.now.bytes.items) }
        ensures places { IfOk result (λ copy. option_map vec_items copy.places ≡ option_map vec_items self.now.places) }
    {
        let places = match &self.places {
            Some(places) => Some(places.clone()?),
            None => None,
        };
        Ok(Rewritten {
            bytes: self.bytes.clone()?,
            places,
        })
    }
}

// The flags of a module that is rewritten so.
fn config_of(options: &Options) -> ModuleConfig
    ensures { result ≡ flags_of options.now }
{
    let mut config = ModuleConfig::new();
    config.only_stable_features = options.only_stable_features;
    config.legacy_exceptions = options.legacy_exceptions;
    config.generate_name_section = options.names;
    config.generate_producers_section = options.producers;
    config.preserve_code_transform = options.places;
    config.shared_types = options.shared_types;
    config.keep_segments = options.keep_segments;
    config
}

// The module that the bytes spell.
fn read(alloc: Global, bytes: &[u8], options: &Options) -> Result<Module<NoSection>, Fault>
    ensures accepted { OnOk result (IsAccepted options.now bytes.now) }
    ensures read { IfOk result (λ input. IsRead (flags_of options.now) bytes.now input) }
    ensures refused { IfErr result (λ fault. IsUnread options.now bytes.now fault) }
{
    match config_of(options).parse(alloc, bytes) {
        Ok(input) => Ok(input),
        Err(error) => Err(fault_of(error)),
    }
}

// Drops of the module what isn't kept.
fn keep(alloc: Global, input: &mut Module<NoSection>) -> Result<(), Fault>
    ensures kept { OnOk result (Keeps input.old input.new) }
    ensures refused { IfErr result (λ fault. MayBeRefused fault) }
{
    match gc::run_from_roots(alloc, input, &[]) {
        Ok(()) => Ok(()),
        Err(error) => Err(late_fault(error)),
    }
}

// Writes the module.
fn write(alloc: Global, input: &mut Module<NoSection>) -> Result<Emitted, Fault>
    ensures written { IfOk result (λ emitted. WritesOut input.old input.new emitted) }
    ensures refused { IfErr result (λ fault. MayBeRefused fault) }
{
    match emit_sound(alloc, input) {
        Ok(emitted) => Ok(emitted),
        Err(error) => Err(late_fault(error)),
    }
}

// Drops of the module what isn't kept, and writes the rest.
fn write_kept(alloc: Global, input: &mut Module<NoSection>) -> Result<Emitted, Fault>
    ensures written { IfOk result (λ emitted. WritesWhatIsKept input.old input.new emitted) }
    ensures refused { IfErr result (λ fault. MayBeRefused fault) }
{
    keep(alloc, input)?;
    write(alloc, input)
}

// What was written, with the pairs of places where they are asked for. Each pair has a byte of its own in a file that is no longer than
// an input may be, so that more pairs never come.
fn with_places(emitted: Emitted, places: bool) -> Result<Rewritten, Fault>
    ensures bytes { IfOk result (λ out. out.bytes.items ≡ emitted.bytes.items) }
    ensures pairs { IfOk result (λ out. option_map vec_items out.places ≡ if_asked places emitted.locations.items) }
    ensures few { IfOk result (λ out. IfSome out.places (λ pairs. vec_len pairs ≤ 2 ^ 30)) }
    ensures refused { IfErr result (λ fault. MayBeRefused fault) }
{
    if emitted.locations.len() > MAX_INPUT_LEN {
        return Err(Fault::Memory);
    }
    Ok(Rewritten {
        bytes: emitted.bytes,
        places: if places {
            Some(emitted.locations)
        } else {
            None
        },
    })
}

/// Rewrites a module: keeps what its exports and its start function need, in the shortest spelling.
///
/// # Errors
///
/// `InputTooLong` past 2^30 bytes; else the first fault of the file, at its place; `OutputLimit` where the output would pass a limit; `Memory`
/// where a growth was refused, in place of what would come later, once the length and the header were found right.
pub fn rewrite(alloc: Global, bytes: &[u8], options: &Options) -> Result<Rewritten, Fault>
    ensures rewritten { IfOk result (λ out. IsRewritten options.now bytes.now out.bytes.items (option_map vec_items out.places)) }
    ensures refused { IfErr result (λ fault. IsRefused options.now bytes.now fault) }
    ensures too_long { IsErrOf result Fault.InputTooLong ↔ (2 ^ 30 < length bytes.now) }
    // what reads is refused for want of memory or for the output's limits alone
    ensures accepted { IfErr result (λ fault. IsAccepted options.now bytes.now → MayBeRefused fault) }
    // no promise of the product, but what `run` needs to write the lines
    ensures few { IfOk result (λ out. IfSome out.places (λ places. vec_len places ≤ 2 ^ 30)) }
{
    read_dont_stop();
    let mut input = read(alloc, bytes, options)?;
    let emitted = write_kept(alloc, &mut input)?;
    with_places(emitted, options.places)
}
