//! What a caller of the rewriter may choose.

ghost use Rattle.std.specs.Prelude.{◌≡◌};
ghost use Rattle.wasm_rewriter.specs.Rewrites.{default_options};

/// What a caller of the rewriter may choose.
#[derive(Clone, Copy, Debug, PartialEq, Eq)]
pub struct Options {
    /// Accept stable features alone: no wide arithmetic.
    pub only_stable_features: bool,
    /// Accept the legacy exception operators.
    pub legacy_exceptions: bool,
    /// Write the `name` section.
    pub names: bool,
    /// Write the `producers` section.
    pub producers: bool,
    /// Give the list that pairs written operators with those that they stand for.
    pub places: bool,
    /// Accept shared abstract heap types.
    pub shared_types: bool,
    /// Keep all active element segments, each with its table.
    pub keep_segments: bool,
}

impl Options {
    /// The options of a call that asks for nothing: wide arithmetic and the legacy exceptions are accepted, shared types aren't, names
    /// and producers are written, no list of places is given, and of active element segments those alone are kept that fill an imported
    /// or kept table.
    pub fn new() -> Options
        ensures { result ≡ default_options }
    {
        Options {
            only_stable_features: false,
            legacy_exceptions: true,
            names: true,
            producers: true,
            places: false,
            shared_types: false,
            keep_segments: false,
        }
    }
}
