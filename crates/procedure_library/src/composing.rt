ghost use Rattle.std.specs.Prelude.{◌≡◌, map};
ghost use Rattle.std.specs.List.{list_all};
ghost use Rattle.std.specs.Option.{option_map};
ghost use Rattle.algolw_tree.specs.Grammar.{decls_of, items_of};
ghost use Rattle.algolw_tree.specs.View.{tree, block_tree, decl_tree, item_tree, kind_tree};
ghost use Rattle.algolw_tree.specs.Libraries.{is_kept, are_kept, is_void, is_void_item, is_nothing, is_library_kind, with_item};
ghost use Rattle.algolw_tree.specs.Wholes.{whole_tree};
ghost use Rattle.procedure_library.specs.Trees.{block_at, if_library};
ghost use Rattle.procedure_library.specs.Views.{library_tree};

use crate::library_tree::LibraryTree;
use algolw_tree::{Block, Decl, Item, Kind, Phrase, Whole};
use std::slice;
use value_ops::Place;

/// The library that a program is; none where it is no library. It takes no memory.
pub fn as_library(program: Phrase) -> Option<LibraryTree>
    ensures { option_map library_tree result ≡ if_library (tree program) }
{
    let Phrase { place, first, kind } = program;
    match kind {
        Kind::Block(block) => library_at(place, first, block),
        _ => None,
    }
}

/// The library that a block is.
fn library_at(place: Place, first: Place, block: Box<Block>) -> Option<LibraryTree>
    ensures { option_map library_tree result ≡ if_library (block_at place first block) }
{
    if is_library(&block) {
        Some(LibraryTree {
            place,
            first,
            block,
        })
    } else {
        None
    }
}

/// The program that a library makes with a deck: the library's block, with the deck as its one item. The library is lent to it,
/// and not copied.
pub fn compose<'t>(library: &'t LibraryTree, deck: &'t Item) -> Whole<'t>
    ensures { whole_tree result ≡ with_item (library_tree library.now) (item_tree deck.now) }
{
    Whole {
        place: library.place,
        first: library.first,
        decls: library.block.decls.as_slice(),
        items: slice::from_ref(deck),
    }
}

/// Whether the block is a library's.
fn is_library(block: &Block) -> bool
    ensures { result ≡ is_library_kind (block_tree block.now) }
{
    are_kept(&block.decls) && is_void(&block.items)
}

/// Whether all declarations are procedures and record classes.
fn are_kept(decls: &[Decl]) -> bool
    ensures { result ≡ are_kept (decls_of (map decl_tree decls.now)) }
{
    each_is_kept(decls)
}

fn each_is_kept(decls: &[Decl]) -> bool
    ensures { result ≡ list_all (λ d. is_kept (decl_tree d)) decls.now }
{
    decls.iter().all(|decl| is_kept(decl))
}

fn is_kept(decl: &Decl) -> bool
    ensures { result ≡ is_kept (decl_tree decl.now) }
{
    match decl {
        Decl::Proc(_) | Decl::Class(_) => true,
        Decl::Simple(_, _) | Decl::Array(_, _, _) => false,
    }
}

/// Whether there is one item, which is empty and has no label.
fn is_void(items: &[Item]) -> bool
    ensures { result ≡ is_void (items_of (map item_tree items.now)) }
{
    match items {
        [item] => is_void_item(item),
        _ => false,
    }
}

fn is_void_item(item: &Item) -> bool
    ensures { result ≡ is_void_item (item_tree item.now) }
{
    match item {
        Item::Empty(_) => true,
        Item::Plain(phrase) => is_nothing(&phrase.kind),
        Item::Labelled(labelled) => {
            labelled.labels.is_empty() && is_nothing(&labelled.phrase.kind)
        }
    }
}

fn is_nothing(kind: &Kind) -> bool
    ensures { result ≡ is_nothing (kind_tree kind.now) }
{
    matches!(kind, Kind::Empty)
}
