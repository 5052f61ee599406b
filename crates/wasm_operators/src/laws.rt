//! Laws: functions with nothing to do, whose contracts hold of all operators, immediates and bytes.

ghost use Rattle.wasm_composite_types.specs.wasm_features.declared.WasmFeatures.{WasmFeatures};
ghost use Rattle.wasm_composite_types.specs.wasm_reader.Laws.{IsFinal, EndsEarly, TakesSpelled, IsPrefixFree};
ghost use Rattle.wasm_operators.specs.Operators.{code_at, operator_at, Seen};
ghost use Rattle.wasm_operators.specs.Spellings.{SpellsCode, SpellsEither, SpellsOperator};
ghost use Rattle.std.specs.Prelude.{List};
ghost use Rattle.wasm_operators.specs.Items.{Form};
ghost use Rattle.wasm_operators.specs.Readings.{items_at};
ghost use Rattle.wasm_operators.specs.ItemSpellings.{SpellsForms};
ghost use Rattle.wasm_operators.specs.Bytes.{operator_bytes};
ghost use Rattle.wasm_operators.specs.Laws.{ReadsBack, WritesShortest};
ghost use Rattle.wasm_operators.specs.NameLaws.{NamesAreRenamed, RenamesTwice, SameIsSame};
ghost use Rattle.wasm_operators.specs.Ranges.{OperatorFits};
ghost use Rattle.wasm_operators.specs.RangeLaws.{SpelledIfFits, WritesIt};

/// Bytes are read as an operator exactly if they spell it under the features, and as none exactly if they spell a code that is no
/// operator's under them.
pub fn spelled_operators_are_read()
    ensures code { TakesSpelled code_at SpellsCode }
    ensures operator { (features : WasmFeatures) → TakesSpelled (operator_at features) (SpellsEither features) }
{}

/// What is read for an operator, the end of the input aside, is final whatever bytes follow; the hint is exact.
pub fn operators_are_final()
    ensures code { IsFinal code_at }
    ensures operator { (features : WasmFeatures) → IsFinal (operator_at features) }
{}

/// A proper front of its bytes is answered with the end of the input.
pub fn fronts_of_operators_end_early()
    ensures code { EndsEarly code_at }
    ensures operator { (features : WasmFeatures) → EndsEarly (operator_at features) }
{}

/// No spelling of an operator, or of a code that is none's, is a proper front of another, and none has two values.
pub fn spellings_of_operators_are_prefix_free()
    ensures code { IsPrefixFree SpellsCode }
    ensures operator { (features : WasmFeatures) → IsPrefixFree (SpellsEither features) }
{}

/// Bytes are read as the immediates of these forms exactly if they spell them.
pub fn spelled_immediates_are_read()
    ensures { (features : WasmFeatures) (forms : List Form) → TakesSpelled (items_at features forms) (SpellsForms features forms) }
{}

/// What is read for immediates, the end of the input aside, is final whatever bytes follow; the hint is exact.
pub fn immediates_are_final()
    ensures { (features : WasmFeatures) (forms : List Form) → IsFinal (items_at features forms) }
{}

/// A proper front of their bytes is answered with the end of the input.
pub fn fronts_of_immediates_end_early()
    ensures { (features : WasmFeatures) (forms : List Form) → EndsEarly (items_at features forms) }
{}

/// No spelling of immediates is a proper front of another of the same forms, and none has two values.
pub fn spellings_of_immediates_are_prefix_free()
    ensures { (features : WasmFeatures) (forms : List Form) → IsPrefixFree (SpellsForms features forms) }
{}

/// What is written for an operator that has a spelling is one, and none is shorter.
pub fn written_operators_are_shortest()
    ensures { (features : WasmFeatures) → WritesShortest (SpellsOperator features) operator_bytes }
{}

/// What is written for an operator that has a spelling is read as that operator, whatever follows.
pub fn written_operators_are_read_back()
    ensures { (features : WasmFeatures) → ReadsBack features }
{}

/// What a renamed operator names is what it named, renamed: types also inside block types, heap types and value types, labels and
/// tags also inside lists and handlers, and memories inside accesses.
pub fn names_are_renamed()
    ensures { NamesAreRenamed }
{}

/// A renaming that keeps each number keeps each operator.
pub fn the_same_numbers_keep_an_operator()
    ensures { SameIsSame }
{}

/// To rename twice is to rename once, by one number after the other.
pub fn renamings_compose()
    ensures { RenamesTwice }
{}

/// An operator has a spelling exactly if the table has its code, the features let it pass, and its immediates are of its kind's forms
/// and in their ranges; then what is written is one.
pub fn operators_in_range_are_spelled()
    ensures { (features : WasmFeatures) → SpelledIfFits (SpellsOperator features) operator_bytes (OperatorFits features) }
{}

/// What is written for such an operator is read as that operator, whatever follows, and no spelling of it is shorter.
pub fn operators_in_range_are_written()
    ensures { (features : WasmFeatures) (op : Seen) → OperatorFits features op → WritesIt features op }
{}
