//! Laws: what is named in a module in memory is what is named in the module that it means; plain instructions have operators of their own.

ghost use Rattle.walrus_pass_laws.specs.Bodies.{BodiesNameWhatIsTold, WalksNameItems};
ghost use Rattle.walrus_pass_laws.specs.Instrs.{InstrsNameWhatIsTold};
ghost use Rattle.walrus_pass_laws.specs.Items.{ItemsNameWhatIsMeant};
ghost use Rattle.walrus_pass_laws.specs.Locals.{UsedLocalsAreDeclared, WalksNameUsedLocals};
ghost use Rattle.walrus_pass_laws.specs.Plain.{PlainHaveOperators, PlainNameWhatIsTold};

use walrus_meaning::names_are_told;
use walrus_tree::laws::{text_is_plain, trees_are_nested, trees_are_sound};
use walrus_walks::laws::{held_are_nested, walk_is_plain};
use walrus_walks::visit_laws::expressions_tell_their_operators;

/// A plain instruction has an operator of its own: that is what a body means by it.
pub fn plain_instructions_have_operators()
    ensures { PlainHaveOperators }
{}

/// What a visitor of a plain instruction is told that it names is what the operator names that a body means by it.
pub fn plain_instructions_name_what_is_told()
    ensures { PlainNameWhatIsTold }
{
    names_are_told();
}

/// The operator of an instruction, and those behind the sequences that it holds, name what a visitor of it is told that it names, and
/// what the block types of these sequences name, where the labels that are numbers are known.
pub fn instructions_name_what_is_told()
    ensures { InstrsNameWhatIsTold }
{
    plain_instructions_name_what_is_told();
}

/// What stands in an item names what it names in the item that it means, in the same order: types, constant expressions, tables,
/// globals, tags and segments.
pub fn items_name_what_is_meant()
    ensures { ItemsNameWhatIsMeant }
{
    expressions_tell_their_operators();
}

/// What the operators of a body name whose sequences form a tree, and the block types of its parts, is what the walk of it tells.
pub fn bodies_name_what_is_told()
    ensures { BodiesNameWhatIsTold }
{
    plain_instructions_name_what_is_told();
    walk_is_plain();
    held_are_nested();
    text_is_plain();
    trees_are_nested();
    trees_are_sound();
}

/// So the items that the walk names are those that the operators and these block types name.
pub fn walks_name_items()
    ensures { WalksNameItems }
{
    bodies_name_what_is_told();
}

/// The types of the locals that a body declares are those of the known locals that its operators name and that are no arguments.
pub fn used_locals_are_declared()
    ensures { UsedLocalsAreDeclared }
{}

/// The locals that the walk of a body names, whose sequences form a tree, are named by its operators.
pub fn walks_name_used_locals()
    ensures { WalksNameUsedLocals }
{
    walks_name_items();
}
