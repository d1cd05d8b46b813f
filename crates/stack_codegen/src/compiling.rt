ghost use Rattle.std.specs.Prelude.{◌≡◌, ◌<◌, ℕ, List, [], IfOk, length, map};
ghost use Rattle.std.specs.List.{All};
ghost use Rattle.algolw_tree.specs.Tree.{Phrase};
ghost use Rattle.algolw_typing.specs.Faults.{program_faults};
ghost use Rattle.algolw_typing.specs.ProgramView.{HoldsProgram, numbered};
ghost use Rattle.algolw_typing.specs.Programs.{program_of};
ghost use Rattle.program_meaning.specs.Translating.{program_phrase};
ghost use Rattle.phrase_code.specs.Coding.{outermost, program_code};
ghost use Rattle.stack_code.specs.CodeView.{code_view};
ghost use Rattle.stack_code.specs.Making.{given_by};
ghost use Rattle.faultless_programs.specs.Laws.{IsDeckTree, IsPlaced};
ghost use Rattle.symbol_table.specs.Contexts.{coding_context};
ghost use Rattle.code_emitter.specs.Parts.{phrase_in, scene};
ghost use Rattle.stack_codegen.specs.Codable.{IsCodable, node_in};
ghost use Rattle.stack_codegen.specs.Programs.{coded_name, given_of, outermost_here};

use crate::phrases::emit_phrase;
use algolw_tree::{NameInfo, Node, Program};
use code_emitter::Emitter;
use stack_code::{Code, CodedName, Instr, Mode, ProgramTables};
use std::alloc::{AllocError, Global};
use symbol_table::{Here, Symbols, number};
use value_ops::Place;

/// The names, as code has them.
fn coded_names(alloc: Global, names: &[NameInfo]) -> Result<Vec<CodedName>, AllocError>
    ensures { IfOk result (λ coded. coded.items ≡ map coded_name names.now) }
{
    let mut coded = Vec::with_capacity(alloc, names.len())?;
    for name in names {
        coded.push(CodedName {
            place: name.place,
            text: name.name,
        })?;
    }
    Ok(coded)
}

/// Where classes are declared whose names have these numbers.
fn class_places(
    alloc: Global,
    names: &[NameInfo],
    class_names: &[u32],
) -> Result<Vec<Place>, AllocError>
    requires { All (λ n. n < length names.now) class_names.now }
    ensures { IfOk result (λ places. places.items ≡ map (numbered (map (λ i. i.place) names.now)) class_names.now) }
{
    let mut places = Vec::with_capacity(alloc, class_names.len())?;
    for name in class_names {
        places.push(names[*name as usize].place)?;
    }
    Ok(places)
}

/// What numbers stand for in the code of a program.
fn program_tables(alloc: Global, program: &Program) -> Result<ProgramTables, AllocError>
    requires { All (λ n. n < length program.now.names.items) program.now.class_names.items }
    ensures { IfOk result (λ tables. given_by tables ≡ given_of program.now) }
{
    let mut statements = Vec::with_capacity(alloc, program.statements.len())?;
    for place in &program.statements {
        statements.push(*place)?;
    }
    Ok(ProgramTables {
        statements,
        names: coded_names(alloc, &program.names)?,
        classes: program.classes.copied(alloc)?,
        class_places: class_places(alloc, &program.names, &program.class_names)?,
    })
}

/// The code of a program without faults, with the places of its statements.
pub fn compile(alloc: Global, program: &Program) -> Result<Code, AllocError>
    ghost x: { Phrase }
    requires deck { IsDeckTree x }
    requires placed { IsPlaced x }
    requires faultless { program_faults x ≡ [] }
    requires program { HoldsProgram program.now (program_of x) }
    ensures code { IfOk result (λ code. code_view code ≡ program_code (program_phrase (program_of x))) }
    ensures statements { IfOk result (λ code. code.given.statements ≡ (program_of x).statements) }
{
    let symbols = Symbols::new(alloc, program.names.len(), &program.class_names)?;
    let tables = program_tables(alloc, program)?;
    let emitter = Emitter::new(alloc, Code::new(tables, alloc), symbols);
    code_of(emitter, &program.root)
}

/// The code of a program's block.
fn code_of(emitter: Emitter, root: &Node) -> Result<Code, AllocError>
    requires empty { emitter.code.instructions ≡ [] }
    requires outermost { (ts : List ℕ) → coding_context (scene emitter) ts (outermost_here emitter.code.given) ≡ outermost }
    requires codable { IsCodable emitter (node_in root.now) }
    ensures code { IfOk result (λ code. code_view code ≡ program_code (phrase_in (scene emitter) (node_in root.now (scene emitter)))) }
    ensures given { IfOk result (λ code. code.given ≡ emitter.code.given) }
{
    let mut emitter = emitter;
    let nowhere = Here {
        statement: number(emitter.code.statement_count())?,
        level: 0,
        entries: 0,
    };
    let marks = emit_phrase(&mut emitter, nowhere, Mode::Value, root)?;
    emitter.append(nowhere, Instr::Stop)?;
    emitter.code.set_marks(marks);
    emitter.into_code()
}
