use crate::rows::see;
use algolw_scanner::{Scanned, scan};
use algolw_tree::{Symbol, TokenKind, WORDS, Word};
use deck_reader::{Job, Reader};
use kept_tokens::KeptToken;
use std::alloc::{AllocError, Global};
use std::process::Abort;
use std::test::Fail;

/// The job of a deck with these cards.
fn job_of(alloc: Global, cards: &[&str]) -> Result<Option<Job>, Fail> {
    let mut reader = Reader::new(alloc)?;
    reader.feed(b"%ACCOUNT ADA 1\n%JOB X,ADA\n")?;
    for card in cards {
        reader.feed(card.as_bytes())?;
        reader.feed(b"\n")?;
    }
    Ok(reader.finish()?.jobs.into_vec().pop())
}

/// What a deck with these cards gives. The deck of a job without a flaw is one that may be scanned.
fn scanned(alloc: Global, cards: &[&str]) -> Result<Option<Scanned>, Fail> {
    match job_of(alloc, cards)? {
        Some(job) if job.flaw.is_none() => Ok(Some(scan(alloc, job.deck.as_slice())?)),
        _ => Ok(None),
    }
}

fn spelled(symbol: Symbol) -> &'static str {
    match symbol {
        Symbol::Open => "(",
        Symbol::Close => ")",
        Symbol::Comma => ",",
        Symbol::Semicolon => ";",
        Symbol::Colon => ":",
        Symbol::Equal => "=",
        Symbol::Less => "<",
        Symbol::Greater => ">",
        Symbol::Plus => "+",
        Symbol::Minus => "-",
        Symbol::Star => "*",
        Symbol::Slash => "/",
        Symbol::Bar => "|",
        Symbol::Stop => ".",
        Symbol::Not => "~",
        Symbol::Becomes => ":=",
        Symbol::Bounds => "::",
        Symbol::NotEqual => "~=",
        Symbol::LessEqual => "<=",
        Symbol::GreaterEqual => ">=",
        Symbol::Power => "**",
    }
}

/// The word's text.
fn text_of(word: Word) -> &'static str {
    match WORDS.iter().find(|entry| entry.1 == word) {
        Some(entry) => entry.0,
        None => "?",
    }
}

/// Puts bytes between two marks behind what is listed.
fn put_between(all: &mut Vec<u8>, mark: &[u8], bytes: &[u8], end: &[u8]) -> Result<(), AllocError> {
    all.extend_from_slice(mark)?;
    all.extend_from_slice(bytes)?;
    all.extend_from_slice(end)
}

/// Puts a text behind what is listed.
fn put_text(all: &mut Vec<u8>, text: &str) -> Result<(), AllocError> {
    all.extend_from_slice(text.as_bytes())
}

fn put_number(alloc: Global, all: &mut Vec<u8>, number: i32) -> Result<(), AllocError> {
    let text = format!(in alloc; "{number}")?;
    put_text(all, text.as_str())
}

fn put_bits(alloc: Global, all: &mut Vec<u8>, bits: u32) -> Result<(), AllocError> {
    let text = format!(in alloc; "#{bits:X}")?;
    put_text(all, text.as_str())
}

/// Puts a token's kind behind what is listed: a name behind a prime, a string in quotes, and the end as a dollar sign.
fn put_kind(alloc: Global, all: &mut Vec<u8>, kind: &TokenKind) -> Result<(), AllocError> {
    match kind {
        TokenKind::Word(word) => put_text(all, text_of(*word)),
        TokenKind::Named(name) => put_between(all, b"'", name.as_slice(), b""),
        TokenKind::Number(number) => put_number(alloc, all, *number),
        TokenKind::BitsLit(bits) => put_bits(alloc, all, *bits),
        TokenKind::Quoted(text) => put_between(all, b"\"", text.as_slice(), b"\""),
        TokenKind::Symbol(symbol) => put_text(all, spelled(*symbol)),
        TokenKind::Finish => put_text(all, "$"),
    }
}

/// Puts a token with its place behind what is listed.
fn put_token(alloc: Global, all: &mut Vec<u8>, token: &KeptToken) -> Result<(), AllocError> {
    if !all.is_empty() {
        all.push(b' ')?;
    }
    let kind = token.kind(alloc)?;
    put_kind(alloc, all, &kind)?;
    let place = token.place();
    let place = format!(in alloc; "@{},{}", place.card, place.column)?;
    put_text(all, place.as_str())
}

/// All tokens of a deck, each with its place, or its diagnostic.
fn listed(alloc: Global, scanned: &Scanned) -> Result<Vec<u8>, AllocError> {
    let mut all = Vec::new(alloc);
    match scanned {
        Scanned::Bad(diagnostic) => {
            let (number, place) = (diagnostic.number, diagnostic.place);
            let text = format!(in alloc; "{number} AT {},{}", place.card, place.column)?;
            put_text(&mut all, text.as_str())?;
        }
        Scanned::Tokens(tokens) => {
            for token in tokens {
                put_token(alloc, &mut all, token)?;
            }
        }
    }
    Ok(all)
}

/// Decks, and behind the arrow what is listed of each. Between a deck's cards stands a mark, `^`.
const DECKS: &str = "\
BEGIN WRITE(2 + 2) END. => BEGIN@1,1 'WRITE@1,7 (@1,12 2@1,13 +@1,15 2@1,17 )@1,18 END@1,20 .@1,23 $@2,1
 => $@2,1
begin write(a1_b) end. => BEGIN@1,1 'WRITE@1,7 (@1,12 'A1_B@1,13 )@1,17 END@1,19 .@1,22 $@2,1
:=::=:=: => :=@1,1 ::@1,3 =@1,5 :=@1,6 :@1,8 $@2,1
*** => **@1,1 *@1,3 $@2,1
~=~~== => ~=@1,1 ~@1,3 ~=@1,4 =@1,6 $@2,1
<=<>=><= => <=@1,1 <@1,3 >=@1,4 >@1,6 <=@1,7 $@2,1
a|b.c,d;e => 'A@1,1 |@1,2 'B@1,3 .@1,4 'C@1,5 ,@1,6 'D@1,7 ;@1,8 'E@1,9 $@2,1
+-/() => +@1,1 -@1,2 /@1,3 (@1,4 )@1,5 $@2,1
1.5 => 13 AT 1,1
1. => 1@1,1 .@1,2 $@2,1
1..5 => 1@1,1 .@1,2 .@1,3 5@1,4 $@2,1
1' => 13 AT 1,1
1_ => 13 AT 1,1
1A => 13 AT 1,1
1 A => 1@1,1 'A@1,3 $@2,1
007 => 7@1,1 $@2,1
2147483647 => 2147483647@1,1 $@2,1
2147483648 => 12 AT 1,1
99999999999A => 13 AT 1,1
00000000002147483647 => 2147483647@1,1 $@2,1
#F => #F@1,1 $@2,1
#f0 #0 => #F0@1,1 #0@1,5 $@2,1
#12345678 => #12345678@1,1 $@2,1
#123456789 => 14 AT 1,1
# => 14 AT 1,1
#G => 14 AT 1,1
#F_ => 10 AT 1,3
# F => 14 AT 1,1
\"\" => 15 AT 1,1
\"\"\" => 11 AT 1,1
\"\"\"\" => \"\"\"@1,1 $@2,1
\"A\"\"B => 11 AT 1,4
\"A\"\"B\" => \"A\"B\"@1,1 $@2,1
\"A\"B\" => 11 AT 1,5
BEGIN WRITE(\"A\"\"B) END. => 11 AT 1,16
                                                                               \" => 11 AT 1,80
                                                                             \"Z\" => \"Z\"@1,78 $@2,1
\"a b;\" => \"a b;\"@1,1 $@2,1
COMMENT A^B^C; X => 'X@3,4 $@4,1
X COMMENT A;; => 'X@1,1 ;@1,13 $@2,1
BEGIN COMMENT NO END => 16 AT 1,7
comments; => 'COMMENTS@1,1 ;@1,9 $@2,1
END X Y => END@1,1 'Y@1,7 $@2,1
END COMMENT; X => END@1,1 $@2,1
END^X^Y => END@1,1 'Y@3,1 $@4,1
END END X => END@1,1 END@1,5 $@2,1
END . X => END@1,1 .@1,5 'X@1,7 $@2,1
AAAAAAAAAAAAAAAAAAAAAAAAAAAAAAAAAAAAAAAAAAAAAAAAAAAAAAAAAAAAAAAAAAAAAAAAAAAAAAAA => 'AAAAAAAAAAAAAAAAAAAAAAAAAAAAAAAAAAAAAAAAAAAAAAAAAAAAAAAAAAAAAAAAAAAAAAAAAAAAAAAA@1,1 $@2,1
$ => 10 AT 1,1
X @ => 10 AT 1,3
X := \\ => 10 AT 1,6
BEGIN WRITE(2147483648) END. => 12 AT 1,13
SHLX SHL X_SHL => 'SHLX@1,1 SHL@1,6 'X_SHL@1,10 $@2,1
goto go to => GOTO@1,1 GO@1,6 TO@1,9 $@2,1
ABS ALGOL AND ARRAY ASSERT BEGIN BITS CASE COMPLEX DIV DO ELSE END FALSE FOR^FORTRAN GO GOTO IF INTEGER IS LOGICAL LONG NULL OF OR PROCEDURE REAL RECORD^REFERENCE REM RESULT SHL SHR SHORT STEP STRING THEN TO TRUE UNTIL VALUE WHILE => ABS@1,1 ALGOL@1,5 AND@1,11 ARRAY@1,15 ASSERT@1,21 BEGIN@1,28 BITS@1,34 CASE@1,39 COMPLEX@1,44 DIV@1,52 DO@1,56 ELSE@1,59 END@1,64 FALSE@1,68 FOR@1,74 FORTRAN@2,1 GO@2,9 GOTO@2,12 IF@2,17 INTEGER@2,20 IS@2,28 LOGICAL@2,31 LONG@2,39 NULL@2,44 OF@2,49 OR@2,52 PROCEDURE@2,55 REAL@2,65 RECORD@2,70 REFERENCE@3,1 REM@3,11 RESULT@3,15 SHL@3,22 SHR@3,26 SHORT@3,30 STEP@3,36 STRING@3,41 THEN@3,48 TO@3,53 TRUE@3,56 UNTIL@3,61 VALUE@3,67 WHILE@3,73 $@4,1
BEGIN WRITE(\"A) END. => 11 AT 1,13
";

/// Sees that this is listed of a deck with these cards.
fn check_deck(rt: &impl Abort, alloc: Global, cards: &[&str], wanted: &str) -> Result<(), Fail> {
    let Some(scanned) = scanned(alloc, cards)? else {
        return Err(Fail::from("a flaw"));
    };
    let all = listed(alloc, &scanned)?;
    see(rt, wanted, all.as_slice() == wanted.as_bytes());
    Ok(())
}

#[test]
fn decks(rt: HostRuntime) -> Result<(), Fail> {
    let alloc = rt.alloc();
    check_deck(&rt, alloc, &[], "$@1,1")?;
    for row in DECKS.lines() {
        let Some((deck, wanted)) = row.split_once(" => ") else {
            return Err(Fail::from("a row has an arrow"));
        };
        let cards: Vec<&str> = deck.split('^').collect(alloc)?;
        check_deck(&rt, alloc, cards.as_slice(), wanted)?;
    }
    Ok(())
}
