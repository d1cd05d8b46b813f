ghost use Rattle.std.specs.Prelude.{◌≡◌};
ghost use Rattle.short_text.specs.Blanks.{trimmed};

use line_text::Line;
use short_text::without_blanks;

/// A line without the blanks at its end.
pub fn without_end_blanks(line: &Line) -> Line
    ensures { result ≡ trimmed line.now }
{
    let mut shorter = Line::new();
    shorter.append(without_blanks(line.as_slice()));
    shorter
}
