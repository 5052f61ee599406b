//! The flags of a module.
ghost use Rattle.std.specs.Prelude.{◌≡◌, ◌||◌, true, false};
ghost use Rattle.wasm_features.specs.Features.{features_of};
ghost use Rattle.walrus_config.specs.Config.{default_config, feature_names};

use wasm_features::WasmFeatures;

/// How a module is parsed and written: flags alone, each with a call that sets it.
#[derive(Clone, Copy, Debug, PartialEq, Eq)]
pub struct ModuleConfig {
    /// Whether DWARF is asked for. It is never written; the flag is kept.
    pub generate_dwarf: bool,
    /// Whether the `name` section is written.
    pub generate_name_section: bool,
    /// Whether items without a name get one as they are parsed.
    pub generate_synthetic_names_for_anonymous_items: bool,
    /// Whether strict validation is asked for. The flag is kept.
    pub strict_validate: bool,
    /// Whether the `producers` section is written.
    pub generate_producers_section: bool,
    /// Whether stable features alone are read: no wide arithmetic.
    pub only_stable_features: bool,
    /// Whether the legacy exception operators are read.
    pub legacy_exceptions: bool,
    /// Whether it is kept where instructions stood and where they are written.
    pub preserve_code_transform: bool,
    /// Whether shared abstract heap types are read.
    pub shared_types: bool,
    /// Whether all active element segments are kept.
    pub keep_segments: bool,
}

impl Default for ModuleConfig {
    ghost is_default = { λ config. config ≡ default_config };

    fn default() -> Self {
        ModuleConfig::new()
    }
}

impl ModuleConfig {
    /// The name section, strict validation, the producers section and the legacy exceptions, and no other flag.
    pub fn new() -> Self
        ensures { result ≡ default_config }
    {
        ModuleConfig {
            generate_dwarf: false,
            generate_name_section: true,
            generate_synthetic_names_for_anonymous_items: false,
            strict_validate: true,
            generate_producers_section: true,
            only_stable_features: false,
            legacy_exceptions: true,
            preserve_code_transform: false,
            shared_types: false,
            keep_segments: false,
        }
    }

    /// Whether DWARF is asked for, which implies the code transform: asking for it sets that flag too, and
    /// not asking leaves that flag alone.
    pub fn generate_dwarf(&mut self, generate: bool) -> &mut ModuleConfig
        ensures same { result.ghost_name ≡ self.entry.ghost_name }
        ensures set { result.now ≡ record self.old { generate_dwarf = generate; preserve_code_transform = generate || self.old.preserve_code_transform } }
    {
        self.generate_dwarf = generate;
        self.preserve_code_transform = generate || self.preserve_code_transform;
        self
    }

    /// Whether the `name` section is written.
    pub fn generate_name_section(&mut self, generate: bool) -> &mut ModuleConfig
        ensures same { result.ghost_name ≡ self.entry.ghost_name }
        ensures set { result.now ≡ record self.old { generate_name_section = generate } }
    {
        self.generate_name_section = generate;
        self
    }

    /// Whether items without a name get one as they are parsed: local functions `f`, arguments `arg`, other
    /// locals `l`, each with its index. Empty names of locals are then skipped.
    pub fn generate_synthetic_names_for_anonymous_items(
        &mut self,
        generate: bool,
    ) -> &mut ModuleConfig
        ensures same { result.ghost_name ≡ self.entry.ghost_name }
        ensures set { result.now ≡ record self.old { generate_synthetic_names_for_anonymous_items = generate } }
    {
        self.generate_synthetic_names_for_anonymous_items = generate;
        self
    }

    /// Whether strict validation is asked for, which changes nothing.
    pub fn strict_validate(&mut self, strict: bool) -> &mut ModuleConfig
        ensures same { result.ghost_name ≡ self.entry.ghost_name }
        ensures set { result.now ≡ record self.old { strict_validate = strict } }
    {
        self.strict_validate = strict;
        self
    }

    /// Whether the `producers` section is written.
    pub fn generate_producers_section(&mut self, generate: bool) -> &mut ModuleConfig
        ensures same { result.ghost_name ≡ self.entry.ghost_name }
        ensures set { result.now ≡ record self.old { generate_producers_section = generate } }
    {
        self.generate_producers_section = generate;
        self
    }

    /// Whether stable features alone are read.
    pub fn only_stable_features(&mut self, only: bool) -> &mut ModuleConfig
        ensures same { result.ghost_name ≡ self.entry.ghost_name }
        ensures set { result.now ≡ record self.old { only_stable_features = only } }
    {
        self.only_stable_features = only;
        self
    }

    /// Whether the legacy exception operators are read.
    pub fn legacy_exceptions(&mut self, enable: bool) -> &mut ModuleConfig
        ensures same { result.ghost_name ≡ self.entry.ghost_name }
        ensures set { result.now ≡ record self.old { legacy_exceptions = enable } }
    {
        self.legacy_exceptions = enable;
        self
    }

    /// Whether it is kept where instructions stood and where they are written.
    pub fn preserve_code_transform(&mut self, preserve: bool) -> &mut ModuleConfig
        ensures same { result.ghost_name ≡ self.entry.ghost_name }
        ensures set { result.now ≡ record self.old { preserve_code_transform = preserve } }
    {
        self.preserve_code_transform = preserve;
        self
    }

    /// Whether shared abstract heap types are read: the byte 65 before an abstract heap type.
    pub fn shared_types(&mut self, enable: bool) -> &mut ModuleConfig
        ensures same { result.ghost_name ≡ self.entry.ghost_name }
        ensures set { result.now ≡ record self.old { shared_types = enable } }
    {
        self.shared_types = enable;
        self
    }

    /// Whether all active element segments are kept, each with its table: without it those alone whose table is imported or kept.
    pub fn keep_segments(&mut self, keep: bool) -> &mut ModuleConfig
        ensures same { result.ghost_name ≡ self.entry.ghost_name }
        ensures set { result.now ≡ record self.old { keep_segments = keep } }
    {
        self.keep_segments = keep;
        self
    }

    /// The features of what is read: the default ones, with the legacy exceptions unless they are switched off,
    /// with shared types where they are asked for, and with wide arithmetic unless stable features alone are wanted.
    pub fn features(&self) -> WasmFeatures
        ensures { result ≡ features_of (feature_names self.now) }
    {
        let mut features = WasmFeatures::default();
        if self.legacy_exceptions {
            features.insert(WasmFeatures::LEGACY_EXCEPTIONS);
        }
        if self.shared_types {
            features.insert(WasmFeatures::SHARED_EVERYTHING_THREADS);
        }
        if !self.only_stable_features {
            features.insert(WasmFeatures::WIDE_ARITHMETIC);
        }
        features
    }
}
