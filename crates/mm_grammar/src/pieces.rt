ghost use Rattle.std.specs.Prelude.{◌≡◌, ℕ, List, [], ◌∷◌, length, IfOk, eqb, ◌&&◌};
ghost use Rattle.mm_forms.specs.declared.fault.Fault.TheVariants as faults;
ghost use Rattle.mm_forms.specs.declared.fault.Stop.TheVariants as stops;
ghost use Rattle.mm_lex.specs.Lexemes as kinds;
ghost use Rattle.mm_names.specs.Runs.{word_in};
ghost use Rattle.mm_lex.specs.Lexemes.{kind_by, span};
ghost use Rattle.mm_forms.specs.Forms.{begins, has, past, past_counted, token_in, place_in};
ghost use Rattle.mm_forms.specs.Given.{Gives, Stops};
ghost use Rattle.mm_grammar.specs.Codes.{kind_code, code, word_code, punct_code};
ghost use Rattle.mm_grammar.specs.Rules.{line_of, text_of, number_of, number_of_kind};
ghost use Rattle.mm_grammar.specs.Seen.{seen};

use crate::cursor::Tokens;
use mm_forms::{Fault, Stop};
use mm_lex::{Punct, Token, TokenKind};
use mm_names::Word;
use mm_terms::Text;
use sqlite_items::Items;
use std::alloc::{AllocError, Global};

/// The fault of a token that no rule allows.
fn unfit(tokens: Tokens<'_>) -> Stop
    ensures { result ≡ stops.At faults.Unfit (length (seen tokens.entry)) }
{
    Stop::At(Fault::Unfit, tokens.len())
}

fn same_word(found: Word, word: Word) -> bool
    ensures { result ≡ eqb (word_code found) (word_code word) }
{
    found == word
}

/// The word that the bytes spell.
pub fn word_of(bytes: &[u8]) -> Option<Word>
    ensures { result ≡ word_in bytes.now }
{
    Word::from_bytes(bytes)
}

/// Whether the token is this word.
fn is_word(tokens: Tokens<'_>, token: Token, word: Word) -> bool
    ensures { result ≡ eqb (kind_code (kind_by token.kind (span tokens.entry.text.now token.start token.stop))) (kind_code (kinds.Word word)) }
{
    match token.kind {
        TokenKind::Word => match word_of(tokens.bytes(token)) {
            Some(found) => same_word(found, word),
            None => false,
        },
        _ => false,
    }
}

fn same_punct(found: Punct, punct: Punct) -> bool
    ensures { result ≡ eqb (punct_code found) (punct_code punct) }
{
    found == punct
}

/// Whether the token is this punctuation.
pub fn is_punct(tokens: Tokens<'_>, token: Token, punct: Punct) -> bool
    ensures { result ≡ eqb (kind_code (kind_by token.kind (span tokens.entry.text.now token.start token.stop))) (kind_code (kinds.Punct punct)) }
{
    match token.kind {
        TokenKind::Punct => match Punct::from_bytes(tokens.bytes(token)) {
            Some(found) => same_punct(found, punct),
            None => false,
        },
        _ => false,
    }
}

/// Whether the next token is this word.
pub fn starts_word(word: Word, tokens: Tokens<'_>) -> bool
    ensures { result ≡ begins code (kind_code (kinds.Word word) ∷ []) (seen tokens.entry) }
{
    match tokens.split_first() {
        Some((token, _)) => is_word(tokens, token, word),
        None => false,
    }
}

/// Whether the next token is this punctuation.
pub fn starts_punct(punct: Punct, tokens: Tokens<'_>) -> bool
    ensures { result ≡ begins code (kind_code (kinds.Punct punct) ∷ []) (seen tokens.entry) }
{
    match tokens.split_first() {
        Some((token, _)) => is_punct(tokens, token, punct),
        None => false,
    }
}

/// The tokens behind this word.
pub fn past_word<'a>(word: Word, tokens: Tokens<'a>) -> Result<Tokens<'a>, Stop>
    ensures { Gives seen result (past code (kind_code (kinds.Word word)) (seen tokens.entry)) }
{
    match tokens.split_first() {
        Some((token, rest)) if is_word(tokens, token, word) => Ok(rest),
        _ => Err(unfit(tokens)),
    }
}

/// The tokens behind this punctuation.
pub fn past_punct<'a>(punct: Punct, tokens: Tokens<'a>) -> Result<Tokens<'a>, Stop>
    ensures { Gives seen result (past code (kind_code (kinds.Punct punct)) (seen tokens.entry)) }
{
    match tokens.split_first() {
        Some((token, rest)) if is_punct(tokens, token, punct) => Ok(rest),
        _ => Err(unfit(tokens)),
    }
}

/// The line of the next token.
pub fn line(tokens: Tokens<'_>) -> Result<u32, Stop>
    ensures { Gives (λ line. line) result (place_in code line_of (seen tokens.entry)) }
{
    match tokens.split_first() {
        Some((token, _)) => Ok(token.line),
        None => Err(unfit(tokens)),
    }
}

/// The bytes of a name.
pub fn text<'a>(alloc: Global, tokens: Tokens<'a>) -> Result<(Text, Tokens<'a>), Stop>
    ensures { Gives (λ x. (x.0, seen x.1)) result (token_in code 2 text_of (seen tokens.entry)) }
{
    match tokens.split_first() {
        Some((token, rest)) if matches!(token.kind, TokenKind::Name) => {
            Ok((Text::from_slice(alloc, tokens.bytes(token))?, rest))
        }
        _ => Err(unfit(tokens)),
    }
}

/// The number of a local.
pub fn local<'a>(tokens: Tokens<'a>) -> Result<(u32, Tokens<'a>), Stop>
    ensures { Gives (λ x. (x.0, seen x.1)) result (token_in code 3 number_of (seen tokens.entry)) }
{
    let Some((token, rest)) = tokens.split_first() else {
        return Err(unfit(tokens));
    };
    match token.kind {
        TokenKind::Local(number) => Ok((number, rest)),
        _ => Err(unfit(tokens)),
    }
}

/// The number of a label.
pub fn label_number<'a>(tokens: Tokens<'a>) -> Result<(u32, Tokens<'a>), Stop>
    ensures { Gives (λ x. (x.0, seen x.1)) result (token_in code 4 number_of (seen tokens.entry)) }
{
    let Some((token, rest)) = tokens.split_first() else {
        return Err(unfit(tokens));
    };
    match token.kind {
        TokenKind::Label(number) => Ok((number, rest)),
        _ => Err(unfit(tokens)),
    }
}

/// A number.
pub fn number<'a>(tokens: Tokens<'a>) -> Result<(u64, Tokens<'a>), Stop>
    ensures { Gives (λ x. (x.0, seen x.1)) result (token_in code 5 number_of (seen tokens.entry)) }
{
    let Some((token, rest)) = tokens.split_first() else {
        return Err(unfit(tokens));
    };
    match token.kind {
        TokenKind::Number(number) => Ok((number, rest)),
        _ => Err(unfit(tokens)),
    }
}

/// Whether the next token is a local.
pub fn starts_local(tokens: Tokens<'_>) -> bool
    ensures { result ≡ begins code (3 ∷ []) (seen tokens.entry) }
{
    match tokens.split_first() {
        Some((token, _)) => matches!(token.kind, TokenKind::Local(_)),
        None => false,
    }
}

/// Whether the next token is a number.
pub fn starts_number(tokens: Tokens<'_>) -> bool
    ensures { result ≡ begins code (5 ∷ []) (seen tokens.entry) }
{
    match tokens.split_first() {
        Some((token, _)) => matches!(token.kind, TokenKind::Number(_)),
        None => false,
    }
}

/// Whether the next token is a label.
pub fn starts_label(tokens: Tokens<'_>) -> bool
    ensures { result ≡ begins code (4 ∷ []) (seen tokens.entry) }
{
    match tokens.split_first() {
        Some((token, _)) => matches!(token.kind, TokenKind::Label(_)),
        None => false,
    }
}

/// The tokens behind the local of this number.
pub fn past_local<'a>(number: usize, tokens: Tokens<'a>) -> Result<Tokens<'a>, Stop>
    ensures { Gives seen result (past_counted code 3 number_of number (seen tokens.entry)) }
{
    match tokens.split_first() {
        Some((token, rest)) if is_local(token.kind, number) => Ok(rest),
        _ => Err(unfit(tokens)),
    }
}

/// The tokens behind the label of this number.
pub fn past_label<'a>(number: usize, tokens: Tokens<'a>) -> Result<Tokens<'a>, Stop>
    ensures { Gives seen result (past_counted code 4 number_of number (seen tokens.entry)) }
{
    match tokens.split_first() {
        Some((token, rest)) if is_label(token.kind, number) => Ok(rest),
        _ => Err(unfit(tokens)),
    }
}

/// Whether it is the local of this number.
fn is_local(kind: TokenKind, number: usize) -> bool
    ensures { (bytes : List ℕ) → result ≡ (eqb (kind_code (kind_by kind bytes)) 3 && eqb (number_of_kind (kind_by kind bytes)) number) }
{
    match kind {
        TokenKind::Local(found) => found as usize == number,
        _ => false,
    }
}

/// Whether it is the label of this number.
fn is_label(kind: TokenKind, number: usize) -> bool
    ensures { (bytes : List ℕ) → result ≡ (eqb (kind_code (kind_by kind bytes)) 4 && eqb (number_of_kind (kind_by kind bytes)) number) }
{
    match kind {
        TokenKind::Label(found) => found as usize == number,
        _ => false,
    }
}

/// A list of one thing.
pub fn single<T: Drop>(alloc: Global, item: T) -> Result<Items<T>, AllocError>
    ensures { IfOk result (λ items. items ≡ item ∷ []) }
{
    let mut items = Items::new(alloc);
    items.push(item)?;
    Ok(items)
}
