ghost use Rattle.procedure_library.specs.Laws.{WrappedAreEnded};

/// Where the last of a library's tokens is the end, so is that of the program's.
pub fn wrapped_are_ended()
    ensures { WrappedAreEnded }
{}
