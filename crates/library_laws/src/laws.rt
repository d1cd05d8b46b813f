ghost use Rattle.library_laws.specs.LibraryLaws.{FaultsAreParted, LibraryKeepsItsTrees};
ghost use Rattle.library_laws.specs.Stands.{FaultsStandInTrees, LibraryIsTheSame, TreesOfDecksStand};

/// Whatever the deck is, the library's declarations have the same typed trees, which tell what they mean.
pub fn library_keeps_its_trees()
    ensures { LibraryKeepsItsTrees }
{}

/// The faults of a composed program are those of the library, in which there is nothing of the deck, and those of the deck.
pub fn faults_are_parted()
    ensures { FaultsAreParted }
{}

/// A fault of a phrase stands at a place of its tree.
pub fn faults_stand_in_trees()
    ensures { FaultsStandInTrees }
{}

/// The tree of a deck holds places of its cards alone.
pub fn trees_of_decks_stand()
    ensures { TreesOfDecksStand }
{}

/// The faults at places of the library are the same for every deck.
pub fn library_is_the_same()
    ensures { LibraryIsTheSame }
{}
