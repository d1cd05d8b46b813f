use crate::phrases::{Block, Decl, Item, Kind, Phrase};
use value_ops::Place;

/// How many cards a job may have, its job card among them. Those of a library are numbered on behind them.
pub const MOST_DECK_CARDS: u16 = 2_000;

/// Where the block of a library begins: before its cards, where no block of a deck can.
pub const LIBRARY_PLACE: Place = Place {
    card: MOST_DECK_CARDS,
    column: 1,
};

/// A program as it is gone through: its block, of which the declarations and the items may lie apart.
#[derive(Clone, Copy)]
pub struct Whole<'t> {
    /// The place of its word `BEGIN`.
    pub place: Place,
    /// That of its first token, which is the same.
    pub first: Place,
    /// What it declares.
    pub decls: &'t [Decl],
    /// Its items.
    pub items: &'t [Item],
}

impl<'t> Whole<'t> {
    ghost use Rattle.std.specs.Prelude.{◌≡◌, IfSome};
    ghost use Rattle.algolw_tree.specs.View.{block_tree, tree};
    ghost use Rattle.algolw_tree.specs.Tree as Tree;
    ghost use Rattle.algolw_tree.specs.Wholes.{whole_tree};

    /// The program that a phrase is, where it is a block.
    pub fn of(phrase: &'t Phrase) -> Option<Whole<'t>>
        ensures { IfSome result (λ whole. whole_tree whole ≡ tree phrase.now) }
    {
        match &phrase.kind {
            Kind::Block(block) => Some(Whole::of_block(phrase.place, phrase.first, block)),
            _ => None,
        }
    }

    /// The program that a block at a place is, with this first token.
    pub fn of_block(place: Place, first: Place, block: &'t Block) -> Whole<'t>
        ensures { whole_tree result ≡ Tree.At place first (block_tree block.now) }
    {
        Whole {
            place,
            first,
            decls: block.decls.as_slice(),
            items: block.items.as_slice(),
        }
    }
}
