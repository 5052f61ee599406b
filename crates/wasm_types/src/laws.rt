//! Laws: functions with nothing to do, whose contracts hold of all types and bytes.

ghost use Rattle.std.specs.Prelude.{◌≡◌, ◌↔◌, true};
ghost use Rattle.wasm_features.specs.declared.WasmFeatures.{WasmFeatures};
ghost use Rattle.wasm_reader.specs.Laws.{IsFinal, EndsEarly, TakesSpelled, IsPrefixFree};
ghost use Rattle.wasm_composite_types.specs.wasm_ref_types.TypeSpellings.{ReadsWritten};
ghost use Rattle.wasm_types.specs.Groups.{Group};
ghost use Rattle.wasm_types.specs.Moving.{OffsetsOfGroupsMove, OffsetsOfSectionsMove};
ghost use Rattle.wasm_types.specs.contracts.group.RecGroupPartialEq.TheImpl.{ghosts as group_eq};
ghost use Rattle.wasm_types.specs.Readings.{sub_at, group_at};
ghost use Rattle.wasm_types.specs.Parts.{PartsTakeBytes};
ghost use Rattle.wasm_types.specs.Spellings.{SpellsSub, SpellsGroup, IsWrittenSub, IsWrittenGroup};

/// What is read for a type, the end of the input aside, is final whatever bytes follow; the hint is exact.
pub fn types_are_final()
    ensures subtype { (features : WasmFeatures) → IsFinal (sub_at features) }
    ensures group { (features : WasmFeatures) → IsFinal (group_at features) }
{}

/// A proper front of a type's bytes is answered with the end of the input.
pub fn fronts_of_types_end_early()
    ensures subtype { (features : WasmFeatures) → EndsEarly (sub_at features) }
    ensures group { (features : WasmFeatures) → EndsEarly (group_at features) }
{}

/// Bytes are read as a type exactly if they spell it.
pub fn spelled_types_are_read()
    ensures subtype { (features : WasmFeatures) → TakesSpelled (sub_at features) (SpellsSub features) }
    ensures group { (features : WasmFeatures) → TakesSpelled (group_at features) (SpellsGroup features) }
{}

/// No spelling of a type is a proper front of another of its kind, and none has two values.
pub fn type_spellings_are_prefix_free()
    ensures subtype { (features : WasmFeatures) → IsPrefixFree (SpellsSub features) }
    ensures group { (features : WasmFeatures) → IsPrefixFree (SpellsGroup features) }
{}

/// With garbage-collected types on, each type within the limits whose indices are those of a module below 2^20, continuations and
/// exact types aside, and shared ones where their feature is off, is read from some bytes.
pub fn written_types_are_read()
    ensures subtype { ReadsWritten sub_at IsWrittenSub }
    ensures group { ReadsWritten group_at IsWrittenGroup }
{}

/// The subtypes, supertypes, fields, parameters and results of a group that is read are together at most its bytes.
pub fn parts_take_bytes()
    ensures { (features : WasmFeatures) → PartsTakeBytes features }
{}

/// Groups are equal exactly if their lists of types are one.
pub fn groups_are_equal_as_lists()
    ensures { (a b : Group) → (group_eq.eq a b ≡ true) ↔ (a.types ≡ b.types) }
{}

/// A group that is read at an offset greater by k is the same group, the places of its types greater by k, and so is
/// what a section gives next.
pub fn offsets_of_groups_move()
    ensures groups { OffsetsOfGroupsMove }
    ensures sections { OffsetsOfSectionsMove }
{}
