ghost use Rattle.std.specs.Prelude.{◌≡◌};
ghost use Rattle.made_batches.specs.Decks.{cards_of, deck_by, in_lines};

/// The decks of made jobs. Each has a number in it.
#[derive(Clone, Copy, Debug, PartialEq, Eq)]
pub enum Deck {
    /// It adds the numbers up in a loop.
    Loop,
    /// It adds their squares up, by a name that is evaluated anew each time.
    ByName,
    /// It adds them up in an array.
    Array,
    /// It divides by zero.
    ZeroDivisor,
    /// It uses a name that isn't declared.
    Undeclared,
    /// It adds them up by recursion.
    Recursion,
}

impl Deck {
    /// The deck that is drawn.
    pub fn by(draw: u32) -> Deck
        ensures { result ≡ deck_by draw }
    {
        match draw % 6 {
            0 => Deck::Loop,
            1 => Deck::ByName,
            2 => Deck::Array,
            3 => Deck::ZeroDivisor,
            4 => Deck::Undeclared,
            _ => Deck::Recursion,
        }
    }

    /// Its cards, with `#` where the number is to stand.
    pub fn text(self) -> &'static [u8]
        ensures { result.now ≡ in_lines (cards_of self) }
    {
        match self {
            Deck::Loop => {
                b"BEGIN INTEGER I, S; I := S := 0;
WHILE I < # DO BEGIN I := I + 1; S := S + I END;
WRITE(S) END.
"
            }
            Deck::ByName => {
                b"BEGIN INTEGER K;
INTEGER PROCEDURE SUM (INTEGER I, X);
BEGIN INTEGER S; S := 0; I := 1;
WHILE I <= # DO BEGIN S := S + X; I := I + 1 END; S END;
WRITE(SUM(K, K * K)) END.
"
            }
            Deck::Array => {
                b"BEGIN INTEGER ARRAY A (0::#); A(0) := 1;
FOR I := 1 UNTIL # DO A(I) := A(I - 1) + I;
WRITE(A(#)) END.
"
            }
            Deck::ZeroDivisor => {
                b"BEGIN INTEGER Z; Z := # - #; WRITE(# DIV Z) END.
"
            }
            Deck::Undeclared => {
                b"BEGIN WRITE(UNKNOWN + #) END.
"
            }
            Deck::Recursion => {
                b"BEGIN INTEGER PROCEDURE F (INTEGER VALUE K);
IF K = 0 THEN 0 ELSE K + F(K - 1);
WRITE(F(#)) END.
"
            }
        }
    }
}
