//! A file becomes a module, and its items are counted.

ghost use Rattle.std.specs.Prelude.{◌≡◌, IfErr, IfOk, false, true};
ghost use Rattle.walrus_counts.specs.Counts.{AreCounts};
ghost use Rattle.walrus_counts.specs.walrus_module.Parts.{parts};
ghost use Rattle.walrus_inspect_cli.specs.Inspected.{AreKeptCounts, Inspects, IsUncounted, IsUntold};

use crate::none::NoSection;
use inspect_program::Inspector;
use inspect_program::config::ModuleConfig;
use inspect_program::errors::Result;
use inspect_program::lines::Counts;
use std::alloc::Global;
use std::mem;
use walrus_counts::count;
use walrus_parse::module::Module;
use walrus_parse::parse_into;
use walrus_passes::gc;

/// Counts the items of modules.
#[derive(Clone, Copy)]
pub struct Modules;

impl Inspector for Modules {
    ghost answers = { λ _ bytes config kept result. Inspects bytes config kept result };

    fn inspect(
        &self,
        alloc: Global,
        bytes: &[u8],
        config: ModuleConfig,
        kept: bool,
    ) -> Result<Counts> {
        let mut module = Module::<NoSection>::with_config(alloc, config);
        parse_into(alloc, bytes, &mut module)?;
        count_in(alloc, module, kept)
    }
}

// Counts the items of what is kept of the module.
fn count_kept(alloc: Global, input: &mut Module<NoSection>) -> Result<Counts>
    ensures told { IfOk result (AreKeptCounts (parts input.old)) }
    ensures refused { IfErr result (IsUntold true (parts input.old)) }
{
    gc::run(alloc, input)?;
    count(alloc, input)
}

// Counts the items of the module, or just what is kept of it.
fn count_in(alloc: Global, mut input: Module<NoSection>, kept: bool) -> Result<Counts>
    ensures whole { kept ≡ false → IfOk result (AreCounts (parts input)) }
    ensures kept { kept ≡ true → IfOk result (AreKeptCounts (parts input)) }
    ensures uncounted { kept ≡ false → IfErr result (IsUncounted (parts input)) }
    ensures untold { kept ≡ true → IfErr result (IsUntold true (parts input)) }
{
    let counts = if kept {
        count_kept(alloc, &mut input)
    } else {
        count(alloc, &input)
    };
    // The program ends next, and giving back each list of a large module would take longer than counting what is in it.
    mem::forget(input);
    counts
}
