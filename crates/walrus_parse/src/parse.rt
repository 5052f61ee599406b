//! Reading a module by its flags, or by its type.

ghost use Rattle.std.specs.Prelude.{ℕ, ◌⊎◌, List, Err, IfErr, IfOk, Ok};
ghost use Rattle.walrus_config.specs.Config.{default_config};
ghost use Rattle.walrus_config.specs.declared.config.ModuleConfig.{ModuleConfig as Flags};
ghost use Rattle.walrus_named_bodies.specs.walrus_locations.Sent.{AnswersLocations};
ghost use Rattle.walrus_named_bodies.specs.walrus_item_names.walrus_module.declared.module.Module.{Module as Whole};
ghost use Rattle.walrus_named_bodies.specs.Parsed.{HandsOn, IsRead, read_features};
ghost use Rattle.walrus_parse.specs.Refusals.{IsRefusal};

use crate::whole::parse_into;
use std::alloc::Global;
use walrus_config::ModuleConfig;
use walrus_errors::Result;
use walrus_named_bodies::file_bodies::items_into::module_env::body_env::instr::InstrLocId;
use walrus_named_bodies::file_bodies::items_into::tables_into::sections_into::index_maps::IndicesToIds;
use walrus_named_bodies::item_names::module::Module;
use walrus_named_bodies::locations::send_locations;

/// Reading with flags.
pub trait Parse {
    // the flags
    ghost flags: { Self → Flags };

    /// The module that these bytes spell (Core Specification, binary format: modules), with the features that the flags ask for. All
    /// items of the file are in it, under ids that are their numbers, but for types, of which equal ones merge; each body is in normal
    /// form, with the types that handlers of a legacy `try` need; names and producers are those of the file, with the entry of this tool.
    ///
    /// # Errors
    ///
    /// `InputTooLong` past 2^30 bytes; else the first fault of the file, at its place; want of memory, in place of what would come behind the header.
    fn parse<B: Drop>(&self, alloc: Global, wasm: &[u8]) -> Result<Module<B>>
        ensures read { IfOk result (λ m. IsRead (flags self.now) wasm.now m) }
        ensures refused { IfErr result (λ error. IsRefusal (read_features (flags self.now)) wasm.now error) };

    /// The same module, once `on_instr_loc` has said what stands in the place of each location in it, and `on_parse` has then had it, with
    /// the ids that its indices have in the file. A location is that of an instruction, or of the end of a sequence; `on_instr_loc` is
    /// called with its number, for one function after another, in each for one sequence after another, in each for one instruction after
    /// another and then for the end. Where there is no location, it isn't called.
    ///
    /// Asks that `on_instr_loc` may be called, in whatever state it is, with each number of a location, and `on_parse` with anything.
    ///
    /// # Errors
    ///
    /// Those of [`Parse::parse`], or else what `on_parse` refuses.
    fn parse_with<
        B: Drop,
        G: FnMut(u32) -> InstrLocId + Drop,
        F: FnOnce(&mut Module<B>, &IndicesToIds) -> Result<()> + Drop,
    >(&self, alloc: Global, wasm: &[u8], on_instr_loc: G, on_parse: F) -> Result<Module<B>>
        requires sends { AnswersLocations G.pre }
        requires callable { F.IsAlwaysCallable on_parse }
        ensures read { IfOk result (λ m. HandsOn G.step on_instr_loc F.FnOnce on_parse (flags self.now) wasm.now (Ok tt) m) }
        ensures refused { IfErr result (λ error. IsRefusal (read_features (flags self.now)) wasm.now error ⊎ ((m : Whole B) × HandsOn G.step on_instr_loc F.FnOnce on_parse (flags self.now) wasm.now (Err error) m)) };
}

impl Parse for ModuleConfig {
    ghost flags = { λ config. config };

    fn parse<B: Drop>(&self, alloc: Global, wasm: &[u8]) -> Result<Module<B>> {
        let mut module = Module::with_config(alloc, *self);
        parse_into(alloc, wasm, &mut module)?;
        Ok(module)
    }

    fn parse_with<
        B: Drop,
        G: FnMut(u32) -> InstrLocId + Drop,
        F: FnOnce(&mut Module<B>, &IndicesToIds) -> Result<()> + Drop,
    >(&self, alloc: Global, wasm: &[u8], on_instr_loc: G, on_parse: F) -> Result<Module<B>> {
        let mut module = Module::with_config(alloc, *self);
        let found = parse_into(alloc, wasm, &mut module)?;
        let mut sends = on_instr_loc;
        send_locations(&mut sends, &mut module.funcs)?;
        match on_parse(&mut module, &found) {
            Ok(()) => Ok(module),
            Err(error) => Err(error),
        }
    }
}

/// Modules that are read from bytes.
pub trait FromBuffer: Sized {
    // the module has this of the file, read under these flags
    ghost is_read: { Flags → List ℕ → Self → Type 0 };

    /// The module that these bytes spell, read under the default flags, as [`Parse::parse`] reads it.
    ///
    /// # Errors
    ///
    /// Those of [`Parse::parse`].
    fn from_buffer(alloc: Global, wasm: &[u8]) -> Result<Self>
        ensures read { IfOk result (λ m. is_read default_config wasm.now m) }
        ensures refused { IfErr result (λ error. IsRefusal (read_features default_config) wasm.now error) };

    /// The same under these flags.
    ///
    /// # Errors
    ///
    /// Those of [`Parse::parse`].
    fn from_buffer_with_config(alloc: Global, wasm: &[u8], config: &ModuleConfig) -> Result<Self>
        ensures read { IfOk result (λ m. is_read config.now wasm.now m) }
        ensures refused { IfErr result (λ error. IsRefusal (read_features config.now) wasm.now error) };
}

impl<B: Drop> FromBuffer for Module<B> {
    ghost is_read = { IsRead };

    fn from_buffer(alloc: Global, wasm: &[u8]) -> Result<Self> {
        ModuleConfig::new().parse(alloc, wasm)
    }

    fn from_buffer_with_config(alloc: Global, wasm: &[u8], config: &ModuleConfig) -> Result<Self> {
        config.parse(alloc, wasm)
    }
}
