ghost use Rattle.std.specs.Prelude.{◌≡◌, map, []};
ghost use Rattle.std.specs.Option.{option_map};
ghost use Rattle.algolw_tree.specs.declared.tokens.Symbol.TheVariants.{Comma, Semicolon};
ghost use Rattle.algolw_tree.specs.View.{tree, spec_tree, link_tree, list_tree, actual_tree, bound_tree, part_tree, item_tree, decl_tree};
ghost use Rattle.algolw_tree.specs.Tree as T;
ghost use Rattle.algolw_grammar.specs.Readers.{read_made};
ghost use Rattle.algolw_grammar.specs.Reading.{readers, read_perhaps, read_if, read_case, read_for, read_while, read_goto, read_assert, read_assignment, read_rel, read_neg, read_prim, read_block, read_decls, read_decl, read_procedure, read_bound, read_item, read_lists, read_listing, read_actual};
ghost use Rattle.token_reader.specs.Gives.{Gives, boxed_tree, read_behind, read_given};
ghost use Rattle.token_reader.specs.Levels.{read_first, read_operand, read_links_at, read_chain_at};

use algolw_tree::{
    Actual, Bound, ClassTest, Decl, Item, Kind, Labelled, Link, List, ListKind, Part, Phrase,
    ProcDecl, Symbol, TypeSpec, Word,
};
use token_reader::{Level, Parser, Stop, inside, make};

/// `[ phrase ]`
#[cycle(phrases)]
#[tactic(auto, unfolding(algolw_grammar::specs::Reading::read_perhaps))]
pub fn perhaps(parser: &mut Parser<'_>, room: u32) -> Result<Box<Phrase>, Stop>
    ensures { Gives boxed_tree result parser.new.rest.now (read_perhaps (readers room) parser.old.rest.now) }
{
    if parser.at_phrase() {
        phrase(parser, room)
    } else {
        let place = parser.empty()?;
        Ok(Box::new(parser.alloc, make::at(place, Kind::Empty))?)
    }
}

/// `[ phrase ]`, as it stands in a row.
#[cycle(phrases)]
#[tactic(auto, unfolding(algolw_grammar::specs::Reading::read_perhaps))]
fn part(parser: &mut Parser<'_>, room: u32) -> Result<Part, Stop>
    ensures { Gives part_tree result parser.new.rest.now (read_perhaps (readers room) parser.old.rest.now) }
{
    if parser.at_phrase() {
        Ok(Part::Phrase(phrase(parser, room)?))
    } else {
        Ok(Part::Empty(parser.empty()?))
    }
}

/// `phrase`, as it stands in a row.
#[cycle(phrases)]
fn unboxed(parser: &mut Parser<'_>, room: u32) -> Result<Phrase, Stop>
    ensures { Gives tree result parser.new.rest.now ((readers room).phrase parser.old.rest.now) }
{
    Ok(Box::into_inner(phrase(parser, room)?))
}

/// `phrase`, where so many levels of nesting are left.
#[cycle(phrases)]
#[tactic(auto, unfolding(algolw_grammar::specs::Reading::readers, algolw_grammar::specs::Reading::read_phrase))]
pub fn phrase(parser: &mut Parser<'_>, room: u32) -> Result<Box<Phrase>, Stop>
    ensures { Gives boxed_tree result parser.new.rest.now ((readers room).phrase parser.old.rest.now) }
{
    let Some(room) = inside(room) else {
        return Err(parser.beyond());
    };
    if parser.at_word(Word::If) {
        conditional(parser, room)
    } else if parser.at_word(Word::Case) {
        selection(parser, room)
    } else if parser.at_word(Word::For) {
        iteration(parser, room)
    } else if parser.at_word(Word::While) {
        repetition(parser, room)
    } else if parser.at_goto() {
        parser.jump()
    } else if parser.at_word(Word::Assert) {
        assertion(parser, room)
    } else {
        assignment(parser, room)
    }
}

/// `IF phrase THEN [ phrase ] [ ELSE [ phrase ] ]`
#[cycle(phrases)]
#[tactic(auto, unfolding(algolw_grammar::specs::Reading::read_if))]
fn conditional(parser: &mut Parser<'_>, room: u32) -> Result<Box<Phrase>, Stop>
    ensures { Gives boxed_tree result parser.new.rest.now (read_if (readers room) parser.old.rest.now) }
{
    let place = parser.expect_word(Word::If)?;
    let condition = phrase(parser, room)?;
    parser.expect_word(Word::Then)?;
    let then = perhaps(parser, room)?;
    if !parser.at_else() {
        return Ok(make::conditional(parser.alloc, place, condition, then, None)?);
    }
    parser.expect_word(Word::Else)?;
    let otherwise = perhaps(parser, room)?;
    Ok(make::conditional(parser.alloc, place, condition, then, Some(otherwise))?)
}

/// `CASE phrase OF ( "(" phrase { "," phrase } ")" | BEGIN [ phrase ] { ";" [ phrase ] } END )`
#[cycle(phrases)]
#[tactic(auto, unfolding(algolw_grammar::specs::Reading::read_case, algolw_grammar::specs::Reading::read_case_end))]
fn selection(parser: &mut Parser<'_>, room: u32) -> Result<Box<Phrase>, Stop>
    ensures { Gives boxed_tree result parser.new.rest.now (read_case (readers room) parser.old.rest.now) }
{
    let place = parser.expect_word(Word::Case)?;
    let selector = phrase(parser, room)?;
    parser.expect_word(Word::Of)?;
    if parser.at_symbol(Symbol::Open) {
        parser.expect_symbol(Symbol::Open)?;
        let first = unboxed(parser, room)?;
        let values = later_phrases(parser, first, room)?;
        parser.expect_symbol(Symbol::Close)?;
        Ok(make::case_value(parser.alloc, place, selector, values)?)
    } else {
        parser.expect_word(Word::Begin)?;
        let first = part(parser, room)?;
        let parts = later_parts(parser, first, room)?;
        parser.expect_word(Word::End)?;
        Ok(make::case_do(parser.alloc, place, selector, parts)?)
    }
}

/// `{ "," phrase }`, behind the first phrase.
#[cycle(phrases)]
fn later_phrases(parser: &mut Parser<'_>, first: Phrase, room: u32) -> Result<Vec<Phrase>, Stop>
    ensures { Gives (λ x. map tree x.items) result parser.new.rest.now
        (read_behind (tree first) Comma (readers room).phrase parser.old.rest.now) }
{
    let mut phrases = Vec::new(parser.alloc);
    phrases.push(first)?;
    'turns: while parser.at_symbol(Symbol::Comma) {
        parser.expect_symbol(Symbol::Comma)?;
        let one = unboxed(parser, room)?;
        phrases.push(one)?;
    }
    Ok(phrases)
}

/// `{ ";" [ phrase ] }`, behind the first phrase.
#[cycle(phrases)]
fn later_parts(parser: &mut Parser<'_>, first: Part, room: u32) -> Result<Vec<Part>, Stop>
    ensures { Gives (λ x. map part_tree x.items) result parser.new.rest.now
        (read_behind (part_tree first) Semicolon (read_perhaps (readers room)) parser.old.rest.now) }
{
    let mut parts = Vec::new(parser.alloc);
    parts.push(first)?;
    'turns: while parser.at_symbol(Symbol::Semicolon) {
        parser.expect_symbol(Symbol::Semicolon)?;
        let one = part(parser, room)?;
        parts.push(one)?;
    }
    Ok(parts)
}

/// `FOR name ":=" phrase ( [ STEP phrase ] UNTIL phrase | { "," phrase } ) DO [ phrase ]`
#[cycle(phrases)]
#[tactic(auto, unfolding(algolw_grammar::specs::Reading::read_for, algolw_grammar::specs::Reading::read_for_end))]
fn iteration(parser: &mut Parser<'_>, room: u32) -> Result<Box<Phrase>, Stop>
    ensures { Gives boxed_tree result parser.new.rest.now (read_for (readers room) parser.old.rest.now) }
{
    let place = parser.expect_word(Word::For)?;
    let name = parser.expect_name()?;
    parser.expect_symbol(Symbol::Becomes)?;
    let start = phrase(parser, room)?;
    if parser.at_values() {
        let values = later_phrases(parser, Box::into_inner(start), room)?;
        parser.expect_word(Word::Do)?;
        let body = perhaps(parser, room)?;
        return Ok(make::for_list(parser.alloc, place, name, values, body)?);
    }
    if parser.at_word(Word::Step) {
        parser.expect_word(Word::Step)?;
        let step = phrase(parser, room)?;
        parser.expect_word(Word::Until)?;
        let limit = phrase(parser, room)?;
        parser.expect_word(Word::Do)?;
        let body = perhaps(parser, room)?;
        let start = Box::into_inner(start);
        Ok(make::for_step(parser.alloc, place, name, start, Some(step), limit, body)?)
    } else {
        parser.expect_word(Word::Until)?;
        let limit = phrase(parser, room)?;
        parser.expect_word(Word::Do)?;
        let body = perhaps(parser, room)?;
        let start = Box::into_inner(start);
        Ok(make::for_step(parser.alloc, place, name, start, None, limit, body)?)
    }
}

/// `WHILE phrase DO [ phrase ]`
#[cycle(phrases)]
#[tactic(auto, unfolding(algolw_grammar::specs::Reading::read_while))]
fn repetition(parser: &mut Parser<'_>, room: u32) -> Result<Box<Phrase>, Stop>
    ensures { Gives boxed_tree result parser.new.rest.now (read_while (readers room) parser.old.rest.now) }
{
    let place = parser.expect_word(Word::While)?;
    let condition = phrase(parser, room)?;
    parser.expect_word(Word::Do)?;
    let body = perhaps(parser, room)?;
    Ok(make::repetition(parser.alloc, place, condition, body)?)
}

/// `ASSERT phrase`
#[cycle(phrases)]
#[tactic(auto, unfolding(algolw_grammar::specs::Reading::read_assert))]
fn assertion(parser: &mut Parser<'_>, room: u32) -> Result<Box<Phrase>, Stop>
    ensures { Gives boxed_tree result parser.new.rest.now (read_assert (readers room) parser.old.rest.now) }
{
    let place = parser.expect_word(Word::Assert)?;
    let condition = phrase(parser, room)?;
    Ok(Box::new(parser.alloc, make::at(place, Kind::Assert(condition)))?)
}

/// `disj [ ":=" phrase ]`
#[cycle(phrases)]
#[tactic(auto, unfolding(algolw_grammar::specs::Reading::read_assignment, algolw_grammar::specs::Reading::read_assign_end, algolw_grammar::specs::Reading::read_disj))]
fn assignment(parser: &mut Parser<'_>, room: u32) -> Result<Box<Phrase>, Stop>
    ensures { Gives boxed_tree result parser.new.rest.now (read_assignment (readers room) parser.old.rest.now) }
{
    let left = chain(parser, Level::Or, room)?;
    if !parser.at_symbol(Symbol::Becomes) {
        return Ok(left);
    }
    let place = parser.expect_symbol(Symbol::Becomes)?;
    let right = phrase(parser, room)?;
    Ok(make::assignment(parser.alloc, place, left, right)?)
}

/// Operands of a level with operators between them, of which the first of a sum may have a sign.
#[cycle(phrases)]
fn chain(parser: &mut Parser<'_>, level: Level, room: u32) -> Result<Box<Phrase>, Stop>
    ensures { Gives boxed_tree result parser.new.rest.now (read_chain_at level (readers room) parser.old.rest.now) }
{
    let first = first_operand(parser, level, room)?;
    if !parser.at_operator(level) {
        return Ok(first);
    }
    let links = links(parser, level, room)?;
    Ok(make::chained(parser.alloc, first, links)?)
}

/// The first operand of a level.
#[cycle(phrases)]
#[tactic(auto, unfolding(algolw_grammar::specs::Reading::read_signed))]
fn first_operand(parser: &mut Parser<'_>, level: Level, room: u32) -> Result<Box<Phrase>, Stop>
    ensures { Gives boxed_tree result parser.new.rest.now (read_first level (readers room) parser.old.rest.now) }
{
    if level == Level::Sum && parser.at_symbol(Symbol::Plus) {
        let place = parser.expect_symbol(Symbol::Plus)?;
        let term = operand(parser, level, room)?;
        Ok(Box::new(parser.alloc, make::at(place, Kind::Signed(false, term)))?)
    } else if level == Level::Sum && parser.at_symbol(Symbol::Minus) {
        let place = parser.expect_symbol(Symbol::Minus)?;
        let term = operand(parser, level, room)?;
        Ok(Box::new(parser.alloc, make::at(place, Kind::Signed(true, term)))?)
    } else {
        operand(parser, level, room)
    }
}

/// An operand of a level, which is what binds more.
#[cycle(phrases)]
#[tactic(auto, unfolding(algolw_grammar::specs::Reading::read_conj, algolw_grammar::specs::Reading::read_term, algolw_grammar::specs::Reading::read_shift))]
fn operand(parser: &mut Parser<'_>, level: Level, room: u32) -> Result<Box<Phrase>, Stop>
    ensures { Gives boxed_tree result parser.new.rest.now (read_operand level (readers room) parser.old.rest.now) }
{
    match level {
        Level::Or => chain(parser, Level::And, room),
        Level::And => negated(parser, room),
        Level::Sum => chain(parser, Level::Term, room),
        Level::Term => chain(parser, Level::Shift, room),
        Level::Shift => primary(parser, room),
    }
}

/// Operators of a level, each with the operand behind it.
#[cycle(phrases)]
fn links(parser: &mut Parser<'_>, level: Level, room: u32) -> Result<Vec<Link>, Stop>
    ensures { Gives (λ x. map link_tree x.items) result parser.new.rest.now
        (read_links_at level (readers room) parser.old.rest.now) }
{
    let mut links = Vec::with_capacity(parser.alloc, 1)?;
    'turns: while parser.at_operator(level) {
        let (op, place) = parser.operator(level)?;
        let right = operand(parser, level, room)?;
        links.push(make::link(op, place, right))?;
    }
    Ok(links)
}

/// `{ "~" } rel`
#[cycle(phrases)]
#[tactic(auto, unfolding(algolw_grammar::specs::Reading::readers, algolw_grammar::specs::Reading::read_neg, algolw_grammar::specs::Reading::read_negation))]
fn negated(parser: &mut Parser<'_>, room: u32) -> Result<Box<Phrase>, Stop>
    ensures { Gives boxed_tree result parser.new.rest.now (read_neg (readers room) parser.old.rest.now) }
{
    if !parser.at_symbol(Symbol::Not) {
        return relation(parser, room);
    }
    let Some(room) = inside(room) else {
        return Err(parser.too_deep());
    };
    let place = parser.expect_symbol(Symbol::Not)?;
    let part = negated(parser, room)?;
    Ok(Box::new(parser.alloc, make::at(place, Kind::Negated(part)))?)
}

/// `sum [ ( "=" | "~=" | "<" | "<=" | ">" | ">=" ) sum | IS name ]`
#[cycle(phrases)]
#[tactic(auto, unfolding(algolw_grammar::specs::Reading::read_rel, algolw_grammar::specs::Reading::read_relation_end, algolw_grammar::specs::Reading::read_sum))]
fn relation(parser: &mut Parser<'_>, room: u32) -> Result<Box<Phrase>, Stop>
    ensures { Gives boxed_tree result parser.new.rest.now (read_rel (readers room) parser.old.rest.now) }
{
    let left = chain(parser, Level::Sum, room)?;
    if parser.at_word(Word::Is) {
        let first = left.first;
        let place = parser.expect_word(Word::Is)?;
        let class = parser.expect_name()?;
        let reference = Box::into_inner(left);
        let test = Box::new(parser.alloc, ClassTest { reference, class })?;
        let kind = Kind::IsClass(test);
        Ok(Box::new(parser.alloc, Phrase { place, first, kind })?)
    } else if parser.at_comparison() {
        let (op, place) = parser.comparison()?;
        let right = chain(parser, Level::Sum, room)?;
        Ok(make::relation(parser.alloc, op, place, left, right)?)
    } else {
        Ok(left)
    }
}

/// `ABS prim | "(" phrase ")" | block | name { "(" list ")" } | number | bits | string | TRUE | FALSE | NULL`
#[cycle(phrases)]
#[tactic(auto, unfolding(algolw_grammar::specs::Reading::readers, algolw_grammar::specs::Reading::read_prim, algolw_grammar::specs::Reading::read_absolute))]
fn primary(parser: &mut Parser<'_>, room: u32) -> Result<Box<Phrase>, Stop>
    ensures { Gives boxed_tree result parser.new.rest.now (read_prim (readers room) parser.old.rest.now) }
{
    if parser.at_word(Word::Abs) {
        let Some(room) = inside(room) else {
            return Err(parser.too_deep());
        };
        let place = parser.expect_word(Word::Abs)?;
        let part = primary(parser, room)?;
        Ok(Box::new(parser.alloc, make::at(place, Kind::Abs(part)))?)
    } else if parser.at_symbol(Symbol::Open) {
        parser.expect_symbol(Symbol::Open)?;
        let inner = phrase(parser, room)?;
        parser.expect_symbol(Symbol::Close)?;
        Ok(inner)
    } else if parser.at_word(Word::Begin) {
        block(parser, room)
    } else if parser.at_name() {
        let name = parser.expect_name()?;
        let lists = lists(parser, room)?;
        Ok(make::named(parser.alloc, name, lists)?)
    } else {
        Ok(Box::new(parser.alloc, parser.literal()?)?)
    }
}

/// `{ "(" list ")" }`
#[cycle(phrases)]
fn lists(parser: &mut Parser<'_>, room: u32) -> Result<Vec<List>, Stop>
    ensures { Gives (λ x. map list_tree x.items) result parser.new.rest.now
        (read_lists (readers room) parser.old.rest.now) }
{
    // Where there is one, there are mostly no more.
    let some = parser.at_symbol(Symbol::Open);
    let mut lists = Vec::with_capacity(parser.alloc, usize::from(some))?;
    'turns: while parser.at_symbol(Symbol::Open) {
        let one = listing(parser, room)?;
        lists.push(one)?;
    }
    Ok(lists)
}

/// `"(" ( phrase ( "|" number | { "," actual } ) | "*" { "," actual } ) ")"`
#[cycle(phrases)]
#[tactic(auto, unfolding(algolw_grammar::specs::Reading::read_listing, algolw_grammar::specs::Reading::read_list))]
fn listing(parser: &mut Parser<'_>, room: u32) -> Result<List, Stop>
    ensures { Gives list_tree result parser.new.rest.now (read_listing (readers room) parser.old.rest.now) }
{
    let place = parser.expect_symbol(Symbol::Open)?;
    if parser.at_symbol(Symbol::Star) {
        let star = parser.expect_symbol(Symbol::Star)?;
        let actuals = later_actuals(parser, Actual::Star(star), room)?;
        parser.expect_symbol(Symbol::Close)?;
        return Ok(make::actuals(place, actuals));
    }
    let first = phrase(parser, room)?;
    if parser.at_symbol(Symbol::Bar) {
        parser.expect_symbol(Symbol::Bar)?;
        let length = parser.expect_number()?;
        parser.expect_symbol(Symbol::Close)?;
        Ok(List {
            place,
            kind: ListKind::Part(first, length.0),
        })
    } else {
        let actuals = later_actuals(parser, Actual::Phrase(Box::into_inner(first)), room)?;
        parser.expect_symbol(Symbol::Close)?;
        Ok(make::actuals(place, actuals))
    }
}

/// `{ "," actual }`, behind the first actual.
#[cycle(phrases)]
fn later_actuals(parser: &mut Parser<'_>, first: Actual, room: u32) -> Result<Vec<Actual>, Stop>
    ensures { Gives (λ x. map actual_tree x.items) result parser.new.rest.now
        (read_behind (actual_tree first) Comma (read_actual (readers room)) parser.old.rest.now) }
{
    let mut actuals = Vec::with_capacity(parser.alloc, 1)?;
    actuals.push(first)?;
    'turns: while parser.at_symbol(Symbol::Comma) {
        parser.expect_symbol(Symbol::Comma)?;
        let one = actual(parser, room)?;
        actuals.push(one)?;
    }
    Ok(actuals)
}

/// `phrase | "*"`
#[cycle(phrases)]
#[tactic(auto, unfolding(algolw_grammar::specs::Reading::read_actual))]
fn actual(parser: &mut Parser<'_>, room: u32) -> Result<Actual, Stop>
    ensures { Gives actual_tree result parser.new.rest.now (read_actual (readers room) parser.old.rest.now) }
{
    if parser.at_symbol(Symbol::Star) {
        Ok(Actual::Star(parser.expect_symbol(Symbol::Star)?))
    } else {
        Ok(Actual::Phrase(unboxed(parser, room)?))
    }
}

/// `BEGIN { decl ";" } item { ";" item } END`
#[cycle(phrases)]
#[tactic(auto, unfolding(algolw_grammar::specs::Reading::read_block))]
pub fn block(parser: &mut Parser<'_>, room: u32) -> Result<Box<Phrase>, Stop>
    ensures { Gives boxed_tree result parser.new.rest.now (read_block (readers room) parser.old.rest.now) }
{
    let place = parser.expect_word(Word::Begin)?;
    let decls = decls(parser, room)?;
    let first = item(parser, room)?;
    let items = later_items(parser, first, room)?;
    parser.expect_word(Word::End)?;
    Ok(make::block(parser.alloc, place, decls, items)?)
}

/// `{ ";" item }`, behind the first item.
#[cycle(phrases)]
fn later_items(parser: &mut Parser<'_>, first: Item, room: u32) -> Result<Vec<Item>, Stop>
    ensures { Gives (λ x. map item_tree x.items) result parser.new.rest.now
        (read_behind (item_tree first) Semicolon (read_item (readers room)) parser.old.rest.now) }
{
    let mut items = Vec::new(parser.alloc);
    items.push(first)?;
    'turns: while parser.at_symbol(Symbol::Semicolon) {
        parser.expect_symbol(Symbol::Semicolon)?;
        let one = item(parser, room)?;
        items.push(one)?;
    }
    Ok(items)
}

/// `{ name ":" } [ phrase ]`
#[cycle(phrases)]
#[tactic(auto, unfolding(algolw_grammar::specs::Reading::read_item))]
fn item(parser: &mut Parser<'_>, room: u32) -> Result<Item, Stop>
    ensures { Gives item_tree result parser.new.rest.now (read_item (readers room) parser.old.rest.now) }
{
    let labels = parser.labels()?;
    if labels.is_empty() {
        return unlabelled(parser, room);
    }
    let phrase = perhaps(parser, room)?;
    Ok(Item::Labelled(Box::new(parser.alloc, Labelled { labels, phrase })?))
}

/// `[ phrase ]`, as an item without labels.
#[cycle(phrases)]
#[tactic(auto, unfolding(algolw_grammar::specs::Reading::read_perhaps))]
fn unlabelled(parser: &mut Parser<'_>, room: u32) -> Result<Item, Stop>
    ensures { Gives item_tree result parser.new.rest.now
        (read_made (T.Labelled []) (read_perhaps (readers room)) parser.old.rest.now) }
{
    if parser.at_phrase() {
        Ok(Item::Plain(phrase(parser, room)?))
    } else {
        Ok(Item::Empty(parser.empty()?))
    }
}

/// `{ decl ";" }`
#[cycle(phrases)]
fn decls(parser: &mut Parser<'_>, room: u32) -> Result<Vec<Decl>, Stop>
    ensures { Gives (λ x. map decl_tree x.items) result parser.new.rest.now
        (read_decls (readers room) parser.old.rest.now) }
{
    let mut decls = Vec::new(parser.alloc);
    'turns: while parser.at_decl() {
        let one = decl(parser, room)?;
        parser.expect_symbol(Symbol::Semicolon)?;
        decls.push(one)?;
    }
    Ok(decls)
}

/// `type ( ARRAY names "(" bounds ")" | procedure | names ) | procedure | RECORD ..`
#[cycle(phrases)]
#[tactic(auto, unfolding(algolw_grammar::specs::Reading::read_decl, algolw_grammar::specs::Reading::read_decl_end))]
fn decl(parser: &mut Parser<'_>, room: u32) -> Result<Decl, Stop>
    ensures { Gives decl_tree result parser.new.rest.now (read_decl (readers room) parser.old.rest.now) }
{
    if parser.at_word(Word::Procedure) {
        return procedure(parser, None, room);
    }
    if parser.at_word(Word::Record) {
        return parser.record_class();
    }
    let spec = parser.type_spec()?;
    if parser.at_word(Word::Array) {
        parser.expect_word(Word::Array)?;
        let names = parser.names()?;
        parser.expect_symbol(Symbol::Open)?;
        let first = bound(parser, room)?;
        let bounds = later_bounds(parser, first, room)?;
        parser.expect_symbol(Symbol::Close)?;
        Ok(make::arrays(spec, names, bounds))
    } else if parser.at_word(Word::Procedure) {
        procedure(parser, Some(spec), room)
    } else {
        let names = parser.names()?;
        Ok(Decl::Simple(spec, names))
    }
}

/// `PROCEDURE name [ "(" formals ")" ] ";" [ phrase ]`, behind its type, where it has one.
#[cycle(phrases)]
#[tactic(auto, unfolding(algolw_grammar::specs::Reading::read_procedure))]
fn procedure(parser: &mut Parser<'_>, spec: Option<TypeSpec>, room: u32) -> Result<Decl, Stop>
    ensures { Gives decl_tree result parser.new.rest.now
        (read_given (option_map spec_tree spec) (read_procedure (readers room)) parser.old.rest.now) }
{
    let place = parser.expect_word(Word::Procedure)?;
    let name = parser.expect_name()?;
    let formals = parser.formals()?;
    parser.expect_symbol(Symbol::Semicolon)?;
    let body = perhaps(parser, room)?;
    Ok(Decl::Proc(ProcDecl {
        place,
        result: spec,
        name,
        formals,
        body,
    }))
}

/// `{ "," bound }`, behind the first bound.
#[cycle(phrases)]
fn later_bounds(parser: &mut Parser<'_>, first: Bound, room: u32) -> Result<Vec<Bound>, Stop>
    ensures { Gives (λ x. map bound_tree x.items) result parser.new.rest.now
        (read_behind (bound_tree first) Comma (read_bound (readers room)) parser.old.rest.now) }
{
    let mut bounds = Vec::with_capacity(parser.alloc, 1)?;
    bounds.push(first)?;
    'turns: while parser.at_symbol(Symbol::Comma) {
        parser.expect_symbol(Symbol::Comma)?;
        let one = bound(parser, room)?;
        bounds.push(one)?;
    }
    Ok(bounds)
}

/// `phrase "::" phrase`
#[cycle(phrases)]
#[tactic(auto, unfolding(algolw_grammar::specs::Reading::read_bound))]
fn bound(parser: &mut Parser<'_>, room: u32) -> Result<Bound, Stop>
    ensures { Gives bound_tree result parser.new.rest.now (read_bound (readers room) parser.old.rest.now) }
{
    let lower = unboxed(parser, room)?;
    let place = parser.expect_symbol(Symbol::Bounds)?;
    let upper = unboxed(parser, room)?;
    Ok(Bound {
        place,
        lower,
        upper,
    })
}
