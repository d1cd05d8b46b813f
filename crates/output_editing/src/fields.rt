ghost use Rattle.std.specs.Prelude.{◌≡◌, ◌≤◌, length};
ghost use Rattle.std.specs.Fmt.{signed_decimal};
ghost use Rattle.short_text.specs.Blanks.{right};

use line_text::Line;

/// A text, right-justified in this many columns.
pub fn text_field(width: usize, text: &[u8]) -> Line
    requires fits { length text.now ≤ width }
    requires most { width ≤ 132 }
    ensures { result ≡ right width text.now }
{
    let mut field = Line::new();
    field.place(width, text);
    field
}

/// The most columns that an INTEGER needs: a sign and ten digits.
const MOST_DIGITS: usize = 11;

/// An INTEGER, right-justified in this many columns, or in as many as it needs, where these are more.
#[tactic(auto, using(crate::proofs::Digits::right_least))]
pub fn integer_field(width: usize, number: i32) -> Line
    requires { width ≤ 132 }
    ensures { result ≡ right width (signed_decimal number) }
{
    if width >= MOST_DIGITS {
        wide_field(width, number)
    } else {
        let digits = digits(number);
        text_field(width.max(digits.as_slice().len()), digits.as_slice())
    }
}

/// An INTEGER, right-justified in columns that are enough for each.
fn wide_field(width: usize, number: i32) -> Line
    requires enough { 11 ≤ width }
    requires most { width ≤ 132 }
    ensures { result ≡ right width (signed_decimal number) }
{
    let mut field = Line::new();
    field.number(width, i64::from(number));
    field
}

/// An INTEGER in as many columns as it needs.
fn digits(number: i32) -> Line
    ensures { result ≡ signed_decimal number }
{
    let mut line = Line::new();
    line.append_number(i64::from(number));
    line
}
