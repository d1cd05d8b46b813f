ghost use Rattle.std.specs.Prelude.{◌≡◌, IsSome, Some};
ghost use Rattle.name_thunks.specs.Links.{outwards};

use cell_store::Store;

/// The text so many links out from the one that runs, by its frame; the program has none.
#[inline(always)]
pub fn text_out(store: &Store, links: u32) -> Option<u32>
    requires { IsSome (outwards store.now.frames store.now.current links) }
    ensures { outwards store.now.frames store.now.current links ≡ Some result }
{
    store.text_out(links)
}
