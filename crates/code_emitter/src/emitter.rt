ghost use Rattle.std.specs.Prelude.{◌≡◌, [], ◌++◌, ◌<◌, IfOk, OnOk, None, Some, length, replicate, slice_set};
ghost use Rattle.stack_code.specs.CodeView.{InstrFits, KindsFit, statement_view};
ghost use Rattle.stack_code.specs.Linking.{linked};
ghost use Rattle.symbol_table.specs.Heres as heres;
ghost use Rattle.symbol_table.specs.Standings.{source_from};
ghost use Rattle.code_emitter.specs.Appending.{appended, begun, final_targets, made_into, with_goto, with_name, with_quoted, with_source, with_targets};

use algolw_tree::{Gives, Literal};
use stack_code::{Code, Constant, Instr, Mode};
use std::alloc::{AllocError, Global};
use symbol_table::{Here, Standing, Symbols, number};
use value_ops::{Place, SimpleType, Text};

/// Makes the code of a program.
#[derive(Drop)]
pub struct Emitter {
    /// Where what is made is held.
    pub alloc: Global,
    /// What is made by now.
    pub code: Code,
    /// What names stand for.
    pub symbols: Symbols,
    /// The instruction at each target, where it is known by now.
    pub targets: Vec<Option<u32>>,
    /// The instructions that a call or a CASE under way comes back to.
    pub pending: Vec<u32>,
}

/// The type of a value.
pub fn type_given(gives: Option<Gives>) -> Option<SimpleType>
    ensures { result ≡ heres.type_given gives }
{
    match gives {
        Some(Gives::Simple(kind)) => Some(kind),
        _ => None,
    }
}

/// The type of a variable.
pub fn variable_type(gives: Option<Gives>) -> SimpleType
    ensures { result ≡ heres.variable_type gives }
{
    match gives {
        Some(Gives::Simple(kind)) => kind,
        _ => SimpleType::Integer,
    }
}

impl Emitter {
    /// No instructions, with these tables.
    pub fn new(alloc: Global, code: Code, symbols: Symbols) -> Emitter
        ensures code { result.code ≡ code }
        ensures symbols { result.symbols ≡ symbols }
        ensures targets { result.targets.items ≡ [] }
        ensures pending { result.pending.items ≡ [] }
    {
        Emitter {
            alloc,
            code,
            symbols,
            targets: Vec::new(alloc),
            pending: Vec::new(alloc),
        }
    }

    /// The code, in which each target is an instruction.
    pub fn into_code(self) -> Result<Code, AllocError>
        ensures { IfOk result (λ code. code ≡ linked (final_targets self.targets.items) self.code) }
    {
        let Emitter {
            alloc,
            code,
            symbols: _,
            targets,
            pending: _,
        } = self;
        let mut found = Vec::new(alloc);
        for target in &targets {
            found.push(target.unwrap_or(0))?;
        }
        let mut code = code;
        code.link(&found);
        Ok(code)
    }

    /// Targets more, of which nothing is known; the number of the first.
    pub fn add_targets(&mut self, count: u32) -> Result<u32, AllocError>
        ensures first { IfOk result (λ n. n ≡ length self.old.targets.items) }
        ensures added { OnOk result (self.new.targets.items ≡ self.old.targets.items ++ replicate count None) }
        ensures rest { OnOk result (self.new ≡ with_targets self.old self.new.targets) }
    {
        let first = number(self.targets.len())?;
        for _ in 0..count {
            self.targets.push(None)?;
        }
        Ok(first)
    }

    /// The next instruction is at a target.
    pub fn place(&mut self, target: u32) -> Result<u32, AllocError>
        requires { target < length self.old.targets.items }
        ensures number { IfOk result (λ n. n ≡ length self.old.code.instructions) }
        ensures placed { OnOk result (self.new.targets.items ≡ slice_set self.old.targets.items target (Some (length self.old.code.instructions))) }
        ensures rest { OnOk result (self.new ≡ with_targets self.old self.new.targets) }
    {
        let next = self.next()?;
        self.targets[target as usize] = Some(next);
        Ok(next)
    }

    /// An instruction more; its number.
    pub fn append(&mut self, here: Here, does: Instr) -> Result<u32, AllocError>
        requires { InstrFits self.old.code.given self.old.code.added does }
        ensures number { IfOk result (λ n. n ≡ length self.old.code.instructions) }
        ensures appended { OnOk result (self.new ≡ appended self.old here does) }
    {
        self.code.append(here.statement, does)
    }

    /// One that is the code of a phrase without marks.
    pub fn alone(&mut self, here: Here, does: Instr) -> Result<u32, AllocError>
        requires { InstrFits self.old.code.given self.old.code.added does }
        ensures none { IfOk result (λ m. m ≡ 0) }
        ensures appended { OnOk result (self.new ≡ appended self.old here does) }
    {
        self.append(here, does)?;
        Ok(0)
    }

    /// The number of the next instruction.
    pub fn next(&self) -> Result<u32, AllocError>
        ensures { IfOk result (λ n. n ≡ length self.now.code.instructions) }
    {
        number(self.code.instruction_count())
    }

    /// The begin of a statement, where there is one.
    pub fn begin(&mut self, here: Here, statement: Option<u32>) -> Result<(), AllocError>
        ensures { OnOk result (self.new ≡ begun self.old here statement) }
    {
        if statement.is_some() {
            self.append(here.in_statement(statement), Instr::Begin)?;
        }
        Ok(())
    }

    /// The making of what is held into a type, where there is one.
    pub fn make(&mut self, here: Here, kind: Option<SimpleType>) -> Result<(), AllocError>
        requires { KindsFit self.old.code.given kind }
        ensures { OnOk result (self.new ≡ made_into self.old here kind) }
    {
        if let Some(kind) = kind {
            self.append(here, Instr::Make(kind))?;
        }
        Ok(())
    }

    /// A string that is written out.
    pub fn quoted(&mut self, here: Here, text: Literal) -> Result<u32, AllocError>
        ensures none { IfOk result (λ m. m ≡ 0) }
        ensures made { OnOk result (self.new ≡ with_quoted self.old here text) }
    {
        let string = self.code.add_string(Text::from_slice(text.as_slice()))?;
        self.alone(here, Instr::Constant(Constant::Str(string)))
    }

    /// A name alone.
    pub fn name(&mut self, here: Here, mode: Mode, standing: Standing) -> Result<u32, AllocError>
        ensures none { IfOk result (λ m. m ≡ 0) }
        ensures made { OnOk result (self.new ≡ with_name self.old here mode standing) }
    {
        match standing {
            Standing::Variable(_, entry) | Standing::Control(entry) => {
                let links = here.links(entry.level);
                let position = entry.position;
                self.alone(
                    here,
                    Instr::Variable {
                        mode,
                        links,
                        position,
                    },
                )
            }
            Standing::NameFormal(_, entry) | Standing::ProcedureFormal(_, entry) => {
                let links = here.links(entry.level);
                let position = entry.position;
                self.append(
                    here,
                    Instr::UseFormal {
                        mode,
                        links,
                        position,
                    },
                )?;
                self.alone(here, Instr::End)
            }
            _ => self.alone(here, Instr::Stuck),
        }
    }

    /// A jump.
    pub fn goto(&mut self, here: Here, standing: Standing) -> Result<u32, AllocError>
        ensures none { IfOk result (λ m. m ≡ 0) }
        ensures made { OnOk result (self.new ≡ with_goto self.old here standing) }
    {
        if let Standing::Label(mark, target) = standing {
            let links = here.links(mark.level);
            let position = mark.position;
            return self.alone(
                here,
                Instr::Goto {
                    links,
                    position,
                    target,
                },
            );
        }
        self.append(here, Instr::Begin)?;
        self.alone(here, Instr::Stuck)
    }

    /// What stands for a name that stands alone.
    pub fn hand_on(&mut self, here: Here, standing: Standing) -> Result<u32, AllocError>
        ensures { OnOk result (self.new ≡ with_source self.old here (source_from here standing)) }
    {
        match standing.source(here) {
            Some(source) => self.append(here, Instr::HandOn(source)),
            None => self.append(here, Instr::Stuck),
        }
    }

    /// The first token of a statement.
    pub fn statement_place(&self, statement: u32) -> Place
        ensures { result ≡ statement_view self.now.code.given statement }
    {
        if (statement as usize) < self.code.statement_count() {
            return self.code.statement_place(statement);
        }
        Place { card: 0, column: 0 }
    }
}
