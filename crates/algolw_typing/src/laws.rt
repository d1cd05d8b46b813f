ghost use Rattle.algolw_typing.specs.Laws.{OneDeclaration, FaultsInOrder, NoValues};
ghost use Rattle.algolw_typing.specs.Whole.{TypesEverywhere};
ghost use Rattle.algolw_typing.specs.Kept.{NothingForgotten};
ghost use Rattle.algolw_typing.specs.Known.{NothingUnknown};

/// A name has at most one declaration along a path: the first in the innermost scope that declares it.
pub fn one_declaration()
    ensures { OneDeclaration }
{}

/// The faults of a program are those that its phrases, declarations and names give, in order of place and, at one place,
/// of number.
pub fn faults_in_order()
    ensures { FaultsInOrder }
{}

/// A label has no type; an array has none but with its subscripts; a class has that of a reference to it.
pub fn no_values()
    ensures { NoValues }
{}

/// A program without faults has a type at every node that wants one.
pub fn types_everywhere()
    ensures { TypesEverywhere }
{}

/// The typed tree of a phrase keeps all of it: its places, first tokens, statements, literals, operators and parts.
pub fn nothing_forgotten()
    ensures { NothingForgotten }
{}

/// In a program without faults each name of the typed tree is one that the program declares, and each class of a type,
/// there and in a record class, is one of its record classes, each of which is one of its names.
pub fn nothing_unknown()
    ensures { NothingUnknown }
{}
