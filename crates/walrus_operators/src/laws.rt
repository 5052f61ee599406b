//! Laws: functions with nothing to do, whose contracts hold of all operators and bytes.

ghost use Rattle.wasm_operators.specs.wasm_reader.wasm_features.declared.WasmFeatures.{WasmFeatures};
ghost use Rattle.walrus_operators.specs.Laws.{OperatorsMove};
ghost use Rattle.walrus_operators.specs.WrittenLaws.{IsShortest, IsReadAgain, ReadIsWritable};

/// The same bytes at another offset give the same operator, or the same refusal, moved; want of memory aside.
pub fn offsets_of_operators_move()
    ensures { (features : WasmFeatures) → OperatorsMove features }
{}

/// What is written for an operator whose immediates are of its code's kind, in their ranges, spells it, and no spelling is shorter.
pub fn written_operators_are_shortest()
    ensures { (features : WasmFeatures) → IsShortest features }
{}

/// It is read as that operator, whatever follows; want of memory aside.
pub fn written_operators_are_read_again()
    ensures { (features : WasmFeatures) → IsReadAgain features }
{}

/// Immediates that were read are of their code's kind, in their ranges.
pub fn read_operators_can_be_written()
    ensures { (features : WasmFeatures) → ReadIsWritable features }
{}
