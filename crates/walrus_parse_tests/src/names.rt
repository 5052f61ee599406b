//! Names of a file, given to its items, and synthetic ones.

use crate::files::{LOCALS, NAMED, TEN};
use crate::helpers::{Ask, Call, Called, has, read_by};
use std::alloc::Global;
use walrus_config::ModuleConfig;
use walrus_module::Module;

// A name, empty where there is none.
fn text(name: &Option<String>) -> &str {
    match name {
        Some(name) => name.as_str(),
        None => "",
    }
}

// The name of the local of this number among all of a module.
fn local_name(module: &Module<()>, number: usize) -> &str {
    match module.locals.iter().as_slice().get(number) {
        Some(local) => text(&local.name),
        None => "",
    }
}

/// Whether the first function, and the first two locals, are called so.
pub(crate) fn are_called(module: &Module<()>, names: Called<'_>) -> bool {
    match module.funcs.iter().next() {
        Some(own) => {
            text(&own.name) == names.function
                && local_name(module, 0) == names.first
                && local_name(module, 1) == names.second
        }
        None => false,
    }
}

// Whether they are, once the file is read by this call, with synthetic names or without.
fn gives(alloc: Global, call: Call, bytes: &[u8], synthetic: bool, names: Called<'_>) -> bool {
    let mut config = ModuleConfig::new();
    config.generate_synthetic_names_for_anonymous_items(synthetic);
    has(
        alloc,
        read_by(alloc, call, &config, bytes),
        Ask::Names(names),
    )
}

#[test]
fn items_have_names(rt: HostRuntime) {
    let rows = [
        (Call::FromBuffer, NAMED, false, ["", "x", ""]),
        (Call::FromBufferWithConfig, LOCALS, false, ["", "", ""]),
        (Call::FromBufferWithConfig, LOCALS, true, ["f0", "l0", "l1"]),
        (Call::Parse, NAMED, true, ["f0", "x", ""]),
    ];
    for (call, bytes, synthetic, [function, first, second]) in rows {
        let names = Called {
            function,
            first,
            second,
        };
        assert!(rt; gives(rt.alloc(), call, bytes, synthetic, names));
    }
}

// Whether a module holds so many locals, once the file is read, with synthetic names or without.
fn holds(alloc: Global, bytes: &[u8], synthetic: bool, count: usize) -> bool {
    let mut config = ModuleConfig::new();
    config.generate_synthetic_names_for_anonymous_items(synthetic);
    has(
        alloc,
        read_by(alloc, Call::Parse, &config, bytes),
        Ask::Locals(count),
    )
}

#[test]
fn locals_that_nothing_names_take_nothing(rt: HostRuntime) {
    let rows = [(LOCALS, false, 1), (LOCALS, true, 2), (TEN, false, 10)];
    for (bytes, synthetic, count) in rows {
        assert!(rt; holds(rt.alloc(), bytes, synthetic, count));
    }
}
