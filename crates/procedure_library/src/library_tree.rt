ghost use Rattle.std.specs.Prelude.{◌≡◌, true};
ghost use Rattle.algolw_tree.specs.Libraries.{is_library};
ghost use Rattle.procedure_library.specs.Trees.{block_at};

use algolw_tree::Block;
use value_ops::Place;

/// The tree of a library: a block that declares procedures and record classes alone, and does nothing.
#[derive(Drop)]
pub struct LibraryTree {
    /// The place of its word `BEGIN`.
    pub(crate) place: Place,
    /// That of its first token, which is the same.
    pub(crate) first: Place,
    pub(crate) block: Box<Block>,
    ghost library: { is_library (block_at place first block) ≡ true },
}
