//! Formats of files: headers, bytes that bar a form, lists whose count is tested, and entries that there may be no room for.
#![tactic(auto)]
