ghost use Rattle.std.specs.Prelude.{◌≡◌, ℕ, List};
ghost use Rattle.value_ops.specs.declared.places.Diagnostic.{Diagnostic};
ghost use Rattle.algolw_tree.specs.declared.tokens.Token.{Token};
ghost use Rattle.algolw_tree.specs.Tokens.{AreTokens, IsFault};
ghost use Rattle.algolw_scanner.specs.Laws.{TokensOfDecks, FaultsOfDecks, FaultsMeanIt, ScannedIsReading};

/// A deck has at most one list of tokens, and none where its chain stops.
pub fn one_reading()
    ensures one { (cards : List (List ℕ)) (a b : List Token) → AreTokens cards a → AreTokens cards b → a ≡ b }
    ensures none { (cards : List (List ℕ)) (a : List Token) (d : Diagnostic) →
        AreTokens cards a → IsFault cards d → ⊥ }
{}

/// The last token of a deck is its end, and no other is; the others are on its cards; places rise; and there are at
/// most 160,001 tokens.
pub fn tokens_of_decks()
    ensures { TokensOfDecks }
{}

/// A place that begins no token is on the deck's cards.
pub fn faults_of_decks()
    ensures { FaultsOfDecks }
{}

/// The number that is given where nothing is read says what is wrong there.
pub fn faults_mean_it()
    ensures { FaultsMeanIt }
{}

/// What the cards of a deck scan to, as a function of them, is the deck's tokens, or the place where they stop.
pub fn decks_are_scanned()
    ensures { ScannedIsReading }
{}
