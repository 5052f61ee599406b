//! The tests: one function has the maps, as that is dear to prove.
ghost use Rattle.std.specs.Prelude.{◌≡◌};
ghost use Rattle.walrus_index_maps.specs.Views.{indices};
ghost use Rattle.walrus_body_tests.specs.Given.{given};

use crate::operators::maps::{Maps, fill_ids, fill_numbers};
use crate::operators::table::all_stand;
use std::alloc::Global;
use walrus_index_maps::{IdsToIndices, IndicesToIds};

fn stand(alloc: Global, maps: &mut Maps) -> bool
    requires { given (indices maps.old.numbers) ≡ 0 }
{
    fill_ids(&mut maps.ids) && fill_numbers(&mut maps.numbers) && all_stand(alloc, maps)
}

fn holds(alloc: Global) -> bool {
    let mut maps = Maps {
        ids: IndicesToIds::new(alloc),
        numbers: IdsToIndices::new(alloc),
    };
    stand(alloc, &mut maps)
}

#[test]
fn maps_and_all_rows(rt: HostRuntime) {
    assert!(rt; holds(rt.alloc()));
}
