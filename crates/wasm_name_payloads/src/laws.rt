//! Laws: functions with nothing to do, whose contracts hold of all modules and bytes.

ghost use Rattle.wasm_name_payloads.specs.Examples.{PayloadsHold};
ghost use Rattle.wasm_name_payloads.specs.Laws.{NamesAreRead, FrontNamesStay, FaultsEndNames, NamesAreReadBack, LastNamesWin, ProducersAreRead, EntriesStay};

/// Of a payload without a fault all names are kept; what is read to the end is one.
pub fn names_are_read()
    ensures { NamesAreRead }
{}

/// What stands before a fault, or in a front of a payload, is kept whatever follows.
pub fn front_names_stay()
    ensures { FrontNamesStay }
{}

/// Bytes behind a fault give nothing.
pub fn faults_end_names()
    ensures { FaultsEndNames }
{}

/// Names that were written are read back, those of what isn't there aside.
pub fn names_are_read_back()
    ensures { NamesAreReadBack }
{}

/// The last name that something was given wins.
pub fn last_names_win()
    ensures { LastNamesWin }
{}

/// Of the payload of `producers` whole fields before a fault are kept, whatever follows; those that were written are read back.
pub fn producers_are_read()
    ensures { ProducersAreRead }
{}

/// An entry of `producers` that was added once stays as it is.
pub fn entries_stay()
    ensures { EntriesStay }
{}

/// Payloads, computed: what is kept of each, and what is written.
pub fn payloads_hold()
    ensures { PayloadsHold }
{}
