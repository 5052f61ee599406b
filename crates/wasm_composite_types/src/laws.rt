//! Laws: functions with nothing to do, whose contracts hold of all composite types and bytes.

ghost use Rattle.wasm_ref_types.specs.wasm_features.declared.WasmFeatures.{WasmFeatures};
ghost use Rattle.wasm_ref_types.specs.wasm_reader.Laws.{IsFinal, EndsEarly, TakesSpelled, IsPrefixFree};
ghost use Rattle.wasm_ref_types.specs.TypeSpellings.{ReadsWritten};
ghost use Rattle.wasm_composite_types.specs.Readings.{storage_at, field_at, func_at, array_at, struct_at, composite_at};
ghost use Rattle.wasm_composite_types.specs.Spellings.{SpellsStorage, SpellsField, SpellsFunc, SpellsArray, SpellsStruct, SpellsComposite, IsWrittenStorage, IsWrittenField, IsWrittenFunc, IsWrittenArray, IsWrittenStruct, IsWrittenComposite};

/// What is read for a type, the end of the input aside, is final whatever bytes follow; the hint is exact.
pub fn types_are_final()
    ensures storage { (features : WasmFeatures) → IsFinal (storage_at features) }
    ensures field { (features : WasmFeatures) → IsFinal (field_at features) }
    ensures function { (features : WasmFeatures) → IsFinal (func_at features) }
    ensures array { (features : WasmFeatures) → IsFinal (array_at features) }
    ensures structure { (features : WasmFeatures) → IsFinal (struct_at features) }
    ensures composite { (features : WasmFeatures) → IsFinal (composite_at features) }
{}

/// A proper front of a type's bytes is answered with the end of the input.
pub fn fronts_of_types_end_early()
    ensures storage { (features : WasmFeatures) → EndsEarly (storage_at features) }
    ensures field { (features : WasmFeatures) → EndsEarly (field_at features) }
    ensures function { (features : WasmFeatures) → EndsEarly (func_at features) }
    ensures array { (features : WasmFeatures) → EndsEarly (array_at features) }
    ensures structure { (features : WasmFeatures) → EndsEarly (struct_at features) }
    ensures composite { (features : WasmFeatures) → EndsEarly (composite_at features) }
{}

/// Bytes are read as a type exactly if they spell it.
pub fn spelled_types_are_read()
    ensures storage { (features : WasmFeatures) → TakesSpelled (storage_at features) (SpellsStorage features) }
    ensures field { (features : WasmFeatures) → TakesSpelled (field_at features) (SpellsField features) }
    ensures function { (features : WasmFeatures) → TakesSpelled (func_at features) (SpellsFunc features) }
    ensures array { (features : WasmFeatures) → TakesSpelled (array_at features) (SpellsArray features) }
    ensures structure { (features : WasmFeatures) → TakesSpelled (struct_at features) (SpellsStruct features) }
    ensures composite { (features : WasmFeatures) → TakesSpelled (composite_at features) (SpellsComposite features) }
{}

/// No spelling of a type is a proper front of another of its kind, and none has two values.
pub fn type_spellings_are_prefix_free()
    ensures storage { (features : WasmFeatures) → IsPrefixFree (SpellsStorage features) }
    ensures field { (features : WasmFeatures) → IsPrefixFree (SpellsField features) }
    ensures function { (features : WasmFeatures) → IsPrefixFree (SpellsFunc features) }
    ensures array { (features : WasmFeatures) → IsPrefixFree (SpellsArray features) }
    ensures structure { (features : WasmFeatures) → IsPrefixFree (SpellsStruct features) }
    ensures composite { (features : WasmFeatures) → IsPrefixFree (SpellsComposite features) }
{}

/// With garbage-collected types on, each type within the limits whose indices are those of a module below 2^20, continuations and
/// exact types aside, and shared ones where their feature is off, is read from some bytes.
pub fn written_types_are_read()
    ensures storage { ReadsWritten storage_at IsWrittenStorage }
    ensures field { ReadsWritten field_at IsWrittenField }
    ensures function { ReadsWritten func_at IsWrittenFunc }
    ensures array { ReadsWritten array_at IsWrittenArray }
    ensures structure { ReadsWritten struct_at IsWrittenStruct }
    ensures composite { ReadsWritten composite_at IsWrittenComposite }
{}
