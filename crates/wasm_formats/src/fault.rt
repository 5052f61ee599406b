//! Words of the faults of a module.

ghost use Rattle.std.specs.Prelude.{Some};
ghost use Rattle.wasm_formats.specs.Texts.{form_text, limited_text, space_text};

use std::fmt;

/// A kind of item that an index names.
#[derive(Clone, Copy, Debug, PartialEq, Eq)]
pub enum Space {
    Type,
    Function,
    Table,
    Memory,
    Tag,
    Global,
    Element,
    Data,
    Local,
    Label,
}

/// A form of the standard that isn't supported.
#[derive(Clone, Copy, Debug, PartialEq, Eq)]
pub enum Form {
    SharedTable,
    SharedGlobal,
    SharedType,
    ExactType,
    ContinuationType,
    Select,
}

/// What there is a limit on.
#[derive(Clone, Copy, Debug, PartialEq, Eq)]
pub enum Limited {
    Types,
    Imports,
    Functions,
    Globals,
    Tags,
    Exports,
    Tables,
    Memories,
    Elements,
    Data,
    Locals,
    Body,
    /// Of the output alone: the whole file.
    File,
    /// Of the output alone: a list past a limit of the reader.
    List,
    /// Of the output alone: a name past the limit of the reader.
    String,
}

impl fmt::Display for Space {
    ghost output = { λ word. Some (space_text word) };

    fn fmt<W: fmt::Write>(&self, f: &mut fmt::Formatter<W>) -> fmt::Result {
        match self {
            Space::Type => write!(f, "type"),
            Space::Function => write!(f, "function"),
            Space::Table => write!(f, "table"),
            Space::Memory => write!(f, "memory"),
            Space::Tag => write!(f, "tag"),
            Space::Global => write!(f, "global"),
            Space::Element => write!(f, "element"),
            Space::Data => write!(f, "data"),
            Space::Local => write!(f, "local"),
            Space::Label => write!(f, "label"),
        }
    }
}

impl fmt::Display for Form {
    ghost output = { λ word. Some (form_text word) };

    fn fmt<W: fmt::Write>(&self, f: &mut fmt::Formatter<W>) -> fmt::Result {
        match self {
            Form::SharedTable => write!(f, "shared table"),
            Form::SharedGlobal => write!(f, "shared global"),
            Form::SharedType => write!(f, "shared type"),
            Form::ExactType => write!(f, "exact type"),
            Form::ContinuationType => write!(f, "continuation type"),
            Form::Select => write!(f, "select"),
        }
    }
}

impl fmt::Display for Limited {
    ghost output = { λ word. Some (limited_text word) };

    fn fmt<W: fmt::Write>(&self, f: &mut fmt::Formatter<W>) -> fmt::Result {
        match self {
            Limited::Types => write!(f, "types"),
            Limited::Imports => write!(f, "imports"),
            Limited::Functions => write!(f, "functions"),
            Limited::Globals => write!(f, "globals"),
            Limited::Tags => write!(f, "tags"),
            Limited::Exports => write!(f, "exports"),
            Limited::Tables => write!(f, "tables"),
            Limited::Memories => write!(f, "memories"),
            Limited::Elements => write!(f, "elements"),
            Limited::Data => write!(f, "data"),
            Limited::Locals => write!(f, "locals"),
            Limited::Body => write!(f, "body"),
            Limited::File => write!(f, "file"),
            Limited::List => write!(f, "list"),
            Limited::String => write!(f, "string"),
        }
    }
}
