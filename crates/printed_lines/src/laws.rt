// What a run prints.
ghost use Rattle.printed_lines.specs.Laws.{RunsPrintTexts};

/// Where each constant and each data card of a program has no other characters than those from 32 to 126, and each name none but those from 33 on,
/// the strings in memory, the pieces and lines that are printed and the lines of the dump have no others either, whatever the limits. Each line of
/// the dump begins with a blank.
pub fn runs_print_texts()
    ensures { RunsPrintTexts }
{}
