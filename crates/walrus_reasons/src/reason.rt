//! Reasons for which items are kept for themselves.

use walrus_arena::ExportId;

/// Why an item is kept for itself.
#[derive(Clone, Copy, Debug, PartialEq, Eq)]
pub enum Reason {
    /// An export gives it out.
    Exported(ExportId),
    /// It is called at instantiation.
    Starts,
    /// It is a data segment that is copied at instantiation.
    IsCopied,
    /// It is an element segment that fills an imported table at instantiation.
    FillsImport,
    /// It is an element segment that fills a table at instantiation, and all such segments are kept.
    IsFilling,
    /// It is a declared element segment.
    IsDeclared,
    /// A custom section pushes it.
    IsPushed,
}
