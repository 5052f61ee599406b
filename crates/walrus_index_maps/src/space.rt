//! What indices number.

ghost use Rattle.std.specs.Prelude.{Some};
ghost use Rattle.walrus_index_maps.specs.Texts.{space_text};

use std::fmt;

/// What an index numbers (Core Specification, modules: indices).
#[derive(Clone, Copy, Debug, PartialEq, Eq)]
pub enum Space {
    /// Types.
    Type,
    /// Functions.
    Function,
    /// Tables.
    Table,
    /// Memories.
    Memory,
    /// Tags.
    Tag,
    /// Globals.
    Global,
    /// Element segments.
    Element,
    /// Data segments.
    Data,
    /// The locals of a function.
    Local,
    /// The open blocks of a body, from the innermost on.
    Label,
}

impl fmt::Display for Space {
    ghost output = { λ space. Some (space_text space) };

    fn fmt<W: fmt::Write>(&self, f: &mut fmt::Formatter<W>) -> fmt::Result {
        f.write_str(match self {
            Space::Type => "type",
            Space::Function => "function",
            Space::Table => "table",
            Space::Memory => "memory",
            Space::Tag => "tag",
            Space::Global => "global",
            Space::Element => "element",
            Space::Data => "data",
            Space::Local => "local",
            Space::Label => "label",
        })
    }
}
