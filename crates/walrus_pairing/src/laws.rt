//! Laws: functions with nothing to do, whose contracts hold of all operators and instructions.
ghost use Rattle.walrus_pairing.specs.Lists.{ListsAreThree};
ghost use Rattle.walrus_pairing.specs.Laws.{OperatorComesBack, OperatorsAreTold, PlainIsAnswered, PlainIsRead};
ghost use Rattle.walrus_pairing.specs.Turns.{TurnsNumber};
ghost use Rattle.walrus_pairing.specs.InstrLaws.{InstrComesBack, FormsAreTold};
ghost use Rattle.walrus_pairing.specs.Sends.{OperatorsAreSent};

/// An operator that has a spelling, made an instruction through one map and an operator again through another, is the same operator,
/// renamed as the two maps together rename: under maps that undo each other it is that operator.
pub fn operators_come_back()
    ensures { OperatorComesBack }
{}

/// Operators that have spellings and differ have different instructions.
pub fn operators_are_told()
    ensures { OperatorsAreTold }
{}

/// Each operator of the table that has a spelling has an instruction of its own, unless it holds a label or a block's type, or is `nop`
/// or what parts or ends blocks: where its names are found, its alignment is at most 2^31, its heap type is no continuation's,
/// and a `select` has one type.
pub fn plain_operators_are_read()
    ensures { PlainIsRead }
{}

/// Each operator of the table with immediates of its kind has an instruction of its own or is refused, unless it holds a label or a block's
/// type, or is `nop` or what parts or ends blocks.
pub fn plain_operators_are_answered()
    ensures { PlainIsAnswered }
{}

/// Ids that are pushed one after another have the numbers 0, 1, .. in their order, and no other id has a number.
pub fn turns_number_without_gaps()
    ensures { TurnsNumber }
{}

/// An instruction that is paired with an operator, its names sent through one map, is the one that this operator is paired with
/// through a map that undoes it, on the same terms.
pub fn instructions_come_back()
    ensures { InstrComesBack }
{}

/// Instructions that differ have different operators, where their alignments are powers of two, a `ref.null` has a nullable type and a
/// vector constant is one of 128 bits: other instructions lose that as they are written.
pub fn forms_are_told()
    ensures { FormsAreTold }
{}

/// The operator of an instruction under a map is the one under no map, where each id is its own number, renamed as the map renames.
pub fn operators_are_sent()
    ensures { OperatorsAreSent }
{}

/// The operators whose immediates hold a list, which alone may be refused memory as they are read, are `br_table`, `try_table` and the
/// `select` with types.
pub fn only_three_operators_hold_lists()
    ensures { ListsAreThree }
{}
