//! The numbers that locals of a module that was read are written by: those that they have in the file's bodies, in their normal forms.

ghost use Rattle.walrus_parse_gc_laws.specs.Numbers.{ReadBodiesHaveTheirNumbers, UsedLocalsAreMeant};
ghost use Rattle.walrus_parse_gc_laws.specs.Texts.{ReadBodiesWriteTheirs};

use walrus_body_laws::emission::{bodies_are_meant, locals_are_meant};
use walrus_local_numbers::laws::numbers_follow;
use walrus_parse_laws::bodies::{
    bodies_of_read_modules_mean_theirs, functions_of_read_modules_are_whole,
};
use walrus_parse_laws::locals::bodies_of_read_modules_have_their_locals;
use wasm_operators::laws::renamings_compose;

/// The locals that are declared for a body, of those that its text names, are those that it means, whether or not it can be written.
pub fn used_locals_are_meant()
    ensures { UsedLocalsAreMeant }
{
    locals_are_meant();
}

/// In a module that was read the locals that `LocalFunction::emit_locals` declares for the function of a body of the file, of those that
/// its text names, are those of that body's normal form; and in the index map that it leaves, whatever had numbers before, each parameter
/// and each local that the body uses has the number that it has there.
pub fn bodies_of_read_modules_have_their_numbers<B>()
    ensures { ReadBodiesHaveTheirNumbers B }
{
    bodies_of_read_modules_have_their_locals::<B>();
    functions_of_read_modules_are_whole::<B>();
    used_locals_are_meant();
    numbers_follow();
}

/// What is written then for the function of a body of the file are the operators of that body's normal form: locals by their numbers there,
/// each other index renamed to the number that is written for the id that it names.
pub fn bodies_of_read_modules_write_theirs<B>()
    ensures { ReadBodiesWriteTheirs B }
{
    bodies_of_read_modules_have_their_numbers::<B>();
    bodies_of_read_modules_mean_theirs::<B>();
    bodies_are_meant();
    renamings_compose();
}
