ghost use Rattle.std.specs.Prelude.{◌≡◌, ◌∷◌, [], map, IfOk};
ghost use Rattle.algolw_tree.specs.Tree.{At, ForList as ListedLoop, ForStep as SteppedLoop, IfThen, Array as ArrayDecl, Linked, OfActuals};
ghost use Rattle.algolw_tree.specs.Grammar.{at, phrases_of, bounds_of, actuals_of, assign_of, block_of, goto_of, named_of, chain_of, case_of, case_value, case_do, relation_of, while_of};
ghost use Rattle.token_reader.specs.Gives.{boxed_tree};
ghost use Rattle.algolw_tree.specs.View.{tree, kind_tree, spec_tree, decl_tree, item_tree, part_tree, bound_tree, list_tree, link_tree, actual_tree, optional_tree};

use algolw_tree::{
    Actual, Applied, Assignment, Block, Bound, CaseDo, CaseValue, Chain, Conditional, Decl,
    ForList, ForStep, Item, Kind, Link, List, ListKind, Listed, Names, Op, Part, Phrase, RelOp,
    Relation, Repetition, ShortName, Spelling, TypeSpec,
};
use std::alloc::{AllocError, Global};
use value_ops::Place;

/// A phrase whose place is that of its first token.
pub fn at(place: Place, kind: Kind) -> Phrase
    ensures { tree result ≡ at place (kind_tree kind) }
{
    Phrase {
        place,
        first: place,
        kind,
    }
}

/// The same in a box.
fn boxed(alloc: Global, place: Place, kind: Kind) -> Result<Box<Phrase>, AllocError>
    ensures { IfOk result (λ phrase. boxed_tree phrase ≡ at place (kind_tree kind)) }
{
    let phrase = Box::new(alloc, at(place, kind))?;
    Ok(phrase)
}

/// A phrase with its place and that of its first token, in a box.
fn boxed_from(
    alloc: Global,
    place: Place,
    first: Place,
    kind: Kind,
) -> Result<Box<Phrase>, AllocError>
    ensures { IfOk result (λ phrase. boxed_tree phrase ≡ At place first (kind_tree kind)) }
{
    let phrase = Box::new(alloc, Phrase { place, first, kind })?;
    Ok(phrase)
}

/// A jump to a label, which begins at a place.
pub fn jump(
    alloc: Global,
    first: Place,
    label: (Spelling, Place),
) -> Result<Box<Phrase>, AllocError>
    ensures { IfOk result (λ phrase. boxed_tree phrase ≡ goto_of (first, label)) }
{
    let (name, place) = label;
    let name = Box::new(alloc, name)?;
    boxed_from(alloc, place, first, Kind::Goto(name))
}

/// A name with its lists.
pub fn named(
    alloc: Global,
    name: (Spelling, Place),
    mut lists: Vec<List>,
) -> Result<Box<Phrase>, AllocError>
    ensures { IfOk result (λ named. boxed_tree named ≡ named_of (name, map list_tree lists.items)) }
{
    let (name, place) = name;
    let Some(short) = ShortName::new(&name) else {
        return listed(alloc, place, name, lists);
    };
    let Some(last) = lists.pop() else {
        return boxed(alloc, place, Kind::Named(short));
    };
    let opening = last.place;
    match last.kind {
        ListKind::Actuals(actuals) => {
            if lists.is_empty() {
                applied(alloc, place, short, opening, actuals)
            } else {
                lists.push(List {
                    place: opening,
                    kind: ListKind::Actuals(actuals),
                })?;
                listed(alloc, place, name, lists)
            }
        }
        kind => {
            lists.push(List {
                place: opening,
                kind,
            })?;
            listed(alloc, place, name, lists)
        }
    }
}

/// A short name with one list of actuals behind it, which opens at a place.
fn applied(
    alloc: Global,
    place: Place,
    name: ShortName,
    opening: Place,
    actuals: Vec<Actual>,
) -> Result<Box<Phrase>, AllocError>
    ensures { IfOk result (λ named. boxed_tree named
        ≡ named_of ((name, place), OfActuals opening (actuals_of (map actual_tree actuals.items)) ∷ [])) }
{
    let applied = Applied {
        name,
        place: opening,
        actuals,
    };
    let applied = Box::new(alloc, applied)?;
    boxed(alloc, place, Kind::Applied(applied))
}

/// A name with lists behind it, of which there may be none.
fn listed(
    alloc: Global,
    place: Place,
    name: Spelling,
    lists: Vec<List>,
) -> Result<Box<Phrase>, AllocError>
    ensures { IfOk result (λ named. boxed_tree named ≡ named_of ((name, place), map list_tree lists.items)) }
{
    let listed = Box::new(alloc, Listed { name, lists })?;
    boxed(alloc, place, Kind::Listed(listed))
}

/// A comparison, with its operator at a place.
pub fn relation(
    alloc: Global,
    op: RelOp,
    place: Place,
    left: Box<Phrase>,
    right: Box<Phrase>,
) -> Result<Box<Phrase>, AllocError>
    ensures { IfOk result (λ phrase. boxed_tree phrase ≡ relation_of ((op, place), boxed_tree right) (boxed_tree left)) }
{
    let left = Box::into_inner(left);
    let right = Box::into_inner(right);
    let first = left.first;
    let relation = Box::new(alloc, Relation { op, left, right })?;
    boxed_from(alloc, place, first, Kind::Relation(relation))
}

/// An assignment, with `:=` at a place.
pub fn assignment(
    alloc: Global,
    place: Place,
    target: Box<Phrase>,
    value: Box<Phrase>,
) -> Result<Box<Phrase>, AllocError>
    ensures { IfOk result (λ phrase. boxed_tree phrase ≡ assign_of (place, boxed_tree value) (boxed_tree target)) }
{
    let target = Box::into_inner(target);
    let value = Box::into_inner(value);
    let first = target.first;
    let assignment = Box::new(alloc, Assignment { target, value })?;
    boxed_from(alloc, place, first, Kind::Assign(assignment))
}

/// A WHILE.
pub fn repetition(
    alloc: Global,
    place: Place,
    condition: Box<Phrase>,
    body: Box<Phrase>,
) -> Result<Box<Phrase>, AllocError>
    ensures { IfOk result (λ phrase. boxed_tree phrase ≡ while_of (place, (boxed_tree condition, boxed_tree body))) }
{
    let repetition = Repetition {
        condition: Box::into_inner(condition),
        body: Box::into_inner(body),
    };
    let repetition = Box::new(alloc, repetition)?;
    boxed(alloc, place, Kind::WhileDo(repetition))
}

/// A block.
pub fn block(
    alloc: Global,
    place: Place,
    decls: Vec<Decl>,
    items: Vec<Item>,
) -> Result<Box<Phrase>, AllocError>
    ensures { IfOk result (λ block. boxed_tree block ≡ block_of (place, (map decl_tree decls.items, map item_tree items.items))) }
{
    let block = Box::new(alloc, Block { decls, items })?;
    boxed(alloc, place, Kind::Block(block))
}

/// An operator and the operand behind it.
pub fn link(op: Op, place: Place, right: Box<Phrase>) -> Link
    ensures { link_tree result ≡ Linked op place (boxed_tree right) }
{
    Link {
        op,
        place,
        right: Box::into_inner(right),
    }
}

/// A chain, where there are links.
pub fn chained(
    alloc: Global,
    first: Box<Phrase>,
    links: Vec<Link>,
) -> Result<Box<Phrase>, AllocError>
    ensures { IfOk result (λ phrase. boxed_tree phrase ≡ chain_of (boxed_tree first, map link_tree links.items)) }
{
    if links.is_empty() {
        return Ok(first);
    }
    let place = first.first;
    let first = Box::into_inner(first);
    let chain = Box::new(alloc, Chain { first, links })?;
    boxed(alloc, place, Kind::Chain(chain))
}

/// An IF, with what is done otherwise, where that is said.
pub fn conditional(
    alloc: Global,
    place: Place,
    condition: Box<Phrase>,
    then: Box<Phrase>,
    otherwise: Option<Box<Phrase>>,
) -> Result<Box<Phrase>, AllocError>
    ensures { IfOk result (λ phrase. boxed_tree phrase ≡ at place (IfThen (boxed_tree condition) (boxed_tree then) (optional_tree otherwise))) }
{
    let conditional = Conditional {
        condition: Box::into_inner(condition),
        then: Box::into_inner(then),
        otherwise,
    };
    let conditional = Box::new(alloc, conditional)?;
    boxed(alloc, place, Kind::IfThen(conditional))
}

/// A CASE with values.
pub fn case_value(
    alloc: Global,
    place: Place,
    selector: Box<Phrase>,
    values: Vec<Phrase>,
) -> Result<Box<Phrase>, AllocError>
    ensures { IfOk result (λ phrase. boxed_tree phrase ≡ case_of (place, case_value (map tree values.items) (boxed_tree selector))) }
{
    let selector = Box::into_inner(selector);
    let choice = Box::new(alloc, CaseValue { selector, values })?;
    boxed(alloc, place, Kind::CaseValue(choice))
}

/// A CASE with statements.
pub fn case_do(
    alloc: Global,
    place: Place,
    selector: Box<Phrase>,
    parts: Vec<Part>,
) -> Result<Box<Phrase>, AllocError>
    ensures { IfOk result (λ phrase. boxed_tree phrase ≡ case_of (place, case_do (map part_tree parts.items) (boxed_tree selector))) }
{
    let selector = Box::into_inner(selector);
    let choice = Box::new(alloc, CaseDo { selector, parts })?;
    boxed(alloc, place, Kind::CaseDo(choice))
}

/// A FOR with a list of values.
pub fn for_list(
    alloc: Global,
    place: Place,
    control: (Spelling, Place),
    values: Vec<Phrase>,
    body: Box<Phrase>,
) -> Result<Box<Phrase>, AllocError>
    ensures { IfOk result (λ phrase. boxed_tree phrase ≡ at place (ListedLoop control.0 (phrases_of (map tree values.items)) (boxed_tree body))) }
{
    let (name, _) = control;
    let body = Box::into_inner(body);
    let list = Box::new(alloc, ForList { name, values, body })?;
    boxed(alloc, place, Kind::ForList(list))
}

/// A FOR with a limit, and with a step where one is written.
pub fn for_step(
    alloc: Global,
    place: Place,
    control: (Spelling, Place),
    start: Phrase,
    step: Option<Box<Phrase>>,
    limit: Box<Phrase>,
    body: Box<Phrase>,
) -> Result<Box<Phrase>, AllocError>
    ensures { IfOk result (λ phrase. boxed_tree phrase ≡ at place (SteppedLoop control.0 (tree start) (optional_tree step) (boxed_tree limit) (boxed_tree body))) }
{
    let (name, _) = control;
    let steps = ForStep {
        name,
        start,
        step,
        limit: Box::into_inner(limit),
        body: Box::into_inner(body),
    };
    let steps = Box::new(alloc, steps)?;
    boxed(alloc, place, Kind::ForStep(steps))
}

/// A list of actuals.
pub fn actuals(place: Place, actuals: Vec<Actual>) -> List
    ensures { list_tree result ≡ OfActuals place (actuals_of (map actual_tree actuals.items)) }
{
    List {
        place,
        kind: ListKind::Actuals(actuals),
    }
}

/// Arrays.
pub fn arrays(spec: TypeSpec, names: Names, bounds: Vec<Bound>) -> Decl
    ensures { decl_tree result ≡ ArrayDecl (spec_tree spec) names.items (bounds_of (map bound_tree bounds.items)) }
{
    Decl::Array(spec, names, bounds)
}
