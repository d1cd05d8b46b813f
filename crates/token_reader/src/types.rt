ghost use Rattle.std.specs.Prelude.{map};
ghost use Rattle.algolw_tree.specs.declared.tokens.Symbol.TheVariants.{Comma, Semicolon, Star};
ghost use Rattle.algolw_tree.specs.View.{spec_tree, formal_tree, decl_tree};
ghost use Rattle.algolw_grammar.specs.Readers.{read_right};
ghost use Rattle.algolw_grammar.specs.Reading.{read_name, read_names, read_separated, read_length, read_type, read_group, read_class, read_passing, read_stars, read_formal_end, read_formal, read_formals, read_symbol};
ghost use Rattle.token_reader.specs.Gives.{Gives, read_behind, read_given, group_tree};

use crate::parser::Parser;
use crate::stop::Stop;
use algolw_tree::{ClassDecl, Decl, Formal, Mode, Names, Spelling, Symbol, TypeSpec, Word};
use value_ops::Place;

impl Parser<'_> {
    /// `name { "," name }`
    #[tactic(auto, using(crate::proofs::Turns::onto_gathered), unfolding(algolw_grammar::specs::Reading::read_names))]
    pub fn names(&mut self) -> Result<Names, Stop>
        ensures { Gives (λ x. x.items) result self.new.rest.now (read_names self.old.rest.now) }
    {
        let first = self.expect_name()?;
        self.later_names(first)
    }

    /// `{ "," name }`, behind the first name.
    fn later_names(&mut self, first: (Spelling, Place)) -> Result<Names, Stop>
        ensures { Gives (λ x. x.items) result self.new.rest.now
            (read_behind first Comma read_name self.old.rest.now) }
    {
        let mut names = Vec::with_capacity(self.alloc, 1)?;
        names.push(first)?;
        'turns: while self.at_symbol(Symbol::Comma) {
            let one = self.later_name()?;
            names.push(one)?;
        }
        Ok(names)
    }

    /// `"," name`
    fn later_name(&mut self) -> Result<(Spelling, Place), Stop>
        ensures { Gives (λ x. x) result self.new.rest.now
            (read_right (read_symbol Comma) read_name self.old.rest.now) }
    {
        self.expect_symbol(Symbol::Comma)?;
        self.expect_name()
    }

    /// `[ "(" number ")" ]`
    fn length(&mut self) -> Result<Option<(i32, Place)>, Stop>
        ensures { Gives (λ x. x) result self.new.rest.now (read_length self.old.rest.now) }
    {
        if !self.at_symbol(Symbol::Open) {
            return Ok(None);
        }
        self.expect_symbol(Symbol::Open)?;
        let number = self.expect_number()?;
        self.expect_symbol(Symbol::Close)?;
        Ok(Some(number))
    }

    /// `type`
    #[tactic(auto, unfolding(algolw_grammar::specs::Reading::read_type))]
    pub fn type_spec(&mut self) -> Result<TypeSpec, Stop>
        ensures { Gives spec_tree result self.new.rest.now (read_type self.old.rest.now) }
    {
        if self.at_word(Word::Integer) {
            self.expect_word(Word::Integer)?;
            Ok(TypeSpec::Integer)
        } else if self.at_word(Word::Logical) {
            self.expect_word(Word::Logical)?;
            Ok(TypeSpec::Logical)
        } else if self.at_word(Word::Bits) {
            self.expect_word(Word::Bits)?;
            Ok(TypeSpec::Bits(self.length()?))
        } else if self.at_word(Word::String) {
            self.expect_word(Word::String)?;
            Ok(TypeSpec::Str(self.length()?))
        } else {
            self.expect_word(Word::Reference)?;
            self.expect_symbol(Symbol::Open)?;
            let classes = self.names()?;
            self.expect_symbol(Symbol::Close)?;
            Ok(TypeSpec::Reference(classes))
        }
    }

    /// `type name { "," name }`
    #[tactic(auto, unfolding(algolw_grammar::specs::Reading::read_group))]
    fn group(&mut self) -> Result<(TypeSpec, Names), Stop>
        ensures { Gives group_tree result self.new.rest.now (read_group self.old.rest.now) }
    {
        let spec = self.type_spec()?;
        let names = self.names()?;
        Ok((spec, names))
    }

    /// `";" group`
    fn later_group(&mut self) -> Result<(TypeSpec, Names), Stop>
        ensures { Gives group_tree result self.new.rest.now
            (read_right (read_symbol Semicolon) read_group self.old.rest.now) }
    {
        self.expect_symbol(Symbol::Semicolon)?;
        self.group()
    }

    /// `{ ";" group }`, behind the first group.
    fn later_groups(&mut self, first: (TypeSpec, Names)) -> Result<Vec<(TypeSpec, Names)>, Stop>
        ensures { Gives (λ x. map group_tree x.items) result self.new.rest.now
            (read_behind (group_tree first) Semicolon read_group self.old.rest.now) }
    {
        let mut groups = Vec::new(self.alloc);
        groups.push(first)?;
        'turns: while self.at_symbol(Symbol::Semicolon) {
            let one = self.later_group()?;
            groups.push(one)?;
        }
        Ok(groups)
    }

    /// `group { ";" group }`
    #[tactic(auto, using(crate::proofs::Turns::onto_gathered))]
    fn groups(&mut self) -> Result<Vec<(TypeSpec, Names)>, Stop>
        ensures { Gives (λ x. map group_tree x.items) result self.new.rest.now
            (read_separated Semicolon read_group self.old.rest.now) }
    {
        let first = self.group()?;
        self.later_groups(first)
    }

    /// `RECORD name "(" group { ";" group } ")"`
    #[tactic(auto, unfolding(algolw_grammar::specs::Reading::read_class))]
    pub fn record_class(&mut self) -> Result<Decl, Stop>
        ensures { Gives decl_tree result self.new.rest.now (read_class self.old.rest.now) }
    {
        self.expect_word(Word::Record)?;
        let name = self.expect_name()?;
        self.expect_symbol(Symbol::Open)?;
        let groups = self.groups()?;
        self.expect_symbol(Symbol::Close)?;
        Ok(Decl::Class(ClassDecl { name, groups }))
    }

    /// `[ VALUE [ RESULT ] | RESULT | PROCEDURE ]`
    #[tactic(auto, unfolding(algolw_grammar::specs::Reading::read_passing))]
    fn passing(&mut self) -> Result<Mode, Stop>
        ensures { Gives (λ x. x) result self.new.rest.now (read_passing self.old.rest.now) }
    {
        if self.at_word(Word::Value) {
            self.expect_word(Word::Value)?;
            if !self.at_word(Word::Result) {
                return Ok(Mode::Value);
            }
            self.expect_word(Word::Result)?;
            Ok(Mode::ValueResult)
        } else if self.at_word(Word::Result) {
            self.expect_word(Word::Result)?;
            Ok(Mode::Result)
        } else if self.at_word(Word::Procedure) {
            self.expect_word(Word::Procedure)?;
            Ok(Mode::Procedure)
        } else {
            Ok(Mode::ByName)
        }
    }

    /// `"*" { "," "*" }`
    #[tactic(auto, using(crate::proofs::Turns::onto_gathered))]
    fn stars(&mut self) -> Result<Vec<Place>, Stop>
        ensures { Gives (λ x. x.items) result self.new.rest.now (read_stars self.old.rest.now) }
    {
        let first = self.expect_symbol(Symbol::Star)?;
        self.later_stars(first)
    }

    /// `{ "," "*" }`, behind the first star.
    fn later_stars(&mut self, first: Place) -> Result<Vec<Place>, Stop>
        ensures { Gives (λ x. x.items) result self.new.rest.now
            (read_behind first Comma (read_symbol Star) self.old.rest.now) }
    {
        let mut stars = Vec::new(self.alloc);
        stars.push(first)?;
        'turns: while self.at_symbol(Symbol::Comma) {
            let one = self.later_star()?;
            stars.push(one)?;
        }
        Ok(stars)
    }

    /// `"," "*"`
    fn later_star(&mut self) -> Result<Place, Stop>
        ensures { Gives (λ x. x) result self.new.rest.now
            (read_right (read_symbol Comma) (read_symbol Star) self.old.rest.now) }
    {
        self.expect_symbol(Symbol::Comma)?;
        self.expect_symbol(Symbol::Star)
    }

    /// What stands behind the type of a formal. More stars than a `u32` counts are more than memory holds.
    #[tactic(auto, unfolding(algolw_grammar::specs::Reading::read_formal_end))]
    fn formal_end(&mut self, spec: TypeSpec) -> Result<Formal, Stop>
        ensures { Gives formal_tree result self.new.rest.now
            (read_given (spec_tree spec) read_formal_end self.old.rest.now) }
    {
        if self.at_word(Word::Array) {
            self.expect_word(Word::Array)?;
            let names = self.names()?;
            self.expect_symbol(Symbol::Open)?;
            let stars = self.stars()?;
            self.expect_symbol(Symbol::Close)?;
            let Ok(dimensions) = u32::try_from(stars.len()) else {
                return Err(Stop::Memory);
            };
            Ok(Formal {
                spec: Some(spec),
                mode: Mode::Array,
                names,
                dimensions,
            })
        } else {
            let mode = self.passing()?;
            let names = self.names()?;
            Ok(Formal {
                spec: Some(spec),
                mode,
                names,
                dimensions: 0,
            })
        }
    }

    /// `formal`
    #[tactic(auto, using(crate::proofs::Turns::applied_behind), unfolding(algolw_grammar::specs::Reading::read_formal))]
    fn formal(&mut self) -> Result<Formal, Stop>
        ensures { Gives formal_tree result self.new.rest.now (read_formal self.old.rest.now) }
    {
        if self.at_word(Word::Procedure) {
            self.expect_word(Word::Procedure)?;
            let names = self.names()?;
            Ok(Formal {
                spec: None,
                mode: Mode::Procedure,
                names,
                dimensions: 0,
            })
        } else {
            let spec = self.type_spec()?;
            self.formal_end(spec)
        }
    }

    /// `";" formal`
    fn later_formal(&mut self) -> Result<Formal, Stop>
        ensures { Gives formal_tree result self.new.rest.now
            (read_right (read_symbol Semicolon) read_formal self.old.rest.now) }
    {
        self.expect_symbol(Symbol::Semicolon)?;
        self.formal()
    }

    /// `{ ";" formal }`, behind the first formal.
    fn later_formals(&mut self, first: Formal) -> Result<Vec<Formal>, Stop>
        ensures { Gives (λ x. map formal_tree x.items) result self.new.rest.now
            (read_behind (formal_tree first) Semicolon read_formal self.old.rest.now) }
    {
        let mut formals = Vec::new(self.alloc);
        formals.push(first)?;
        'turns: while self.at_symbol(Symbol::Semicolon) {
            let one = self.later_formal()?;
            formals.push(one)?;
        }
        Ok(formals)
    }

    /// `formal { ";" formal }`
    #[tactic(auto, using(crate::proofs::Turns::onto_gathered))]
    fn some_formals(&mut self) -> Result<Vec<Formal>, Stop>
        ensures { Gives (λ x. map formal_tree x.items) result self.new.rest.now
            (read_separated Semicolon read_formal self.old.rest.now) }
    {
        let first = self.formal()?;
        self.later_formals(first)
    }

    /// `[ "(" formal { ";" formal } ")" ]`
    #[tactic(auto, unfolding(algolw_grammar::specs::Reading::read_formals))]
    pub fn formals(&mut self) -> Result<Vec<Formal>, Stop>
        ensures { Gives (λ x. map formal_tree x.items) result self.new.rest.now (read_formals self.old.rest.now) }
    {
        if !self.at_symbol(Symbol::Open) {
            return Ok(Vec::new(self.alloc));
        }
        self.expect_symbol(Symbol::Open)?;
        let formals = self.some_formals()?;
        self.expect_symbol(Symbol::Close)?;
        Ok(formals)
    }
}
