//! What the items of a module mean: items of the standard's grammar, whose numbers are ids.
#![tactic(auto)]

ghost use Rattle.std.specs.Prelude.{◌≡◌};
ghost use Rattle.std.specs.Option.{option_copied};
ghost use Rattle.walrus_item_meaning.specs.Meaning.{table_init};

use walrus_instr::ConstExpr;
use walrus_module_items::Table;

/// What the elements of a table are at first, where that isn't null. An imported table has no initialiser, whatever its field holds.
pub fn table_init(table: &Table) -> Option<&ConstExpr>
    ensures { option_copied result ≡ table_init table.now }
{
    match table.import {
        Some(_) => None,
        None => table.init.as_ref(),
    }
}
