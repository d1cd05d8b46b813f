ghost use Rattle.compilable_programs.specs.Laws.{ProgramsWithoutFaultsAreCompilable};

/// A program without faults may be compiled.
pub fn programs_without_faults_are_compilable()
    ensures { ProgramsWithoutFaultsAreCompilable }
{}
