//! Laws: functions with nothing to do but to call others, whose contracts hold of all modules.

ghost use Rattle.walrus_kept_types_laws.specs.Kept.{FileTypesHaveTheirIndices, ReadTypesAreWritten};
ghost use Rattle.walrus_kept_types_laws.specs.Read.{HandlersAreLacking, ReadTypesAreRead, ReadTypesAreSettled};
ghost use Rattle.walrus_kept_types_laws.specs.Written.{KeptTypesAreWritten, TypesHaveTheirIndices};

use walrus_parse_laws::filled_groups::read_types_are_declared;
use walrus_type_laws::parsed::edited_are_read_back;
use walrus_types::laws::parsing_carries_same;
use wasm_merged_modules::laws::types_are_merged;
use wasm_part::laws::handlers_are_missing;

/// What is written of a module's types once some are deleted: those of the module that are left, in its groups, each under its index.
pub fn kept_types_are_written()
    ensures { KeptTypesAreWritten }
{
    edited_are_read_back();
}

/// The number of a type is its place among those of the module; there it has the index that it has by its id, and types of the file have their ids as numbers.
pub fn types_have_their_indices()
    ensures { TypesHaveTheirIndices }
{}

/// The types of a module that was read are settled: no single type equals an earlier one, and groups without a mark have one member.
pub fn read_types_are_settled<B>()
    ensures { ReadTypesAreSettled B }
{
    read_types_are_declared();
}

/// The types that a module that was read has for handlers are those that its file lacks for them.
pub fn handlers_are_lacking()
    ensures { HandlersAreLacking }
{}

/// The types of a module that was read: those of its file under the ids 0, 1 and on, and behind them those of handlers, each of which names types of the file.
pub fn read_types_are_read<B>()
    ensures { ReadTypesAreRead B }
{
    parsing_carries_same();
    handlers_are_missing();
    types_are_merged();
    read_types_are_settled::<B>();
}

/// What is written of the types of a module that was read once what isn't kept is deleted: those of the file's module that are left, in its groups, and those of
/// handlers.
pub fn read_types_are_written<B>()
    ensures { ReadTypesAreWritten B }
{
    read_types_are_read::<B>();
    kept_types_are_written();
}

/// A type that an item of the file names is written at the number that it has by its id.
pub fn file_types_have_their_indices<B>()
    ensures { FileTypesHaveTheirIndices B }
{
    read_types_are_read::<B>();
}
