//! Modules whose locations were sent through a callback: laws as functions with nothing to do.

ghost use Rattle.walrus_parse_gc_laws.specs.SentRuled.{MovedModulesMeetRules};
ghost use Rattle.walrus_parse_gc_laws.specs.Sent.{SentModulesAreLinked, SentModulesMeanTheSame};

use walrus_walks::instr::InstrLocId;

/// A linked module stays linked when its locations are sent through a callback, whatever that answers.
pub fn sent_modules_are_linked<F: FnMut(u32) -> InstrLocId, B>()
    ensures { SentModulesAreLinked F.step B }
{}

/// A module means the same when its locations are sent through a callback, but that each operator of its bodies stands at the answer for
/// its place.
pub fn sent_modules_mean_the_same<F: FnMut(u32) -> InstrLocId, B>()
    ensures { SentModulesMeanTheSame F.step B }
{}

/// Rules don't look at places: what meets them meets them when its operators stand elsewhere, and each block type stays its own pick.
pub fn moved_modules_meet_rules()
    ensures { MovedModulesMeetRules }
{}
