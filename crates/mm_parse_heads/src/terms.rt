ghost use Rattle.std.specs.Prelude.{◌≡◌};
ghost use Rattle.mm_forms.specs.Forms.{begins, has};
ghost use Rattle.mm_forms.specs.Given.{Gives, Stops};
ghost use Rattle.mm_lex.specs.Lexemes as kinds;
ghost use Rattle.mm_lex.specs.Lexemes.{kind_by, span};
ghost use Rattle.mm_grammar.specs.Codes.{code, kind_code};
ghost use Rattle.mm_grammar.specs.Grammar.{callee, new_head, path};
ghost use Rattle.mm_grammar.specs.TermGrammar.{more_terms, new_term, next_term, parts, term_node, term_shape};
ghost use Rattle.mm_grammar.specs.Reading.{begun, no_term, read_in_term, start, term_in};
ghost use Rattle.mm_grammar.specs.Rules.{Terms};
ghost use Rattle.mm_grammar.specs.Seen.{seen};

use mm_ast::{Callee, Name, Path, PathWithArgs, Term, TermHead};
use mm_forms::{Fault, Stop};
use mm_grammar::callees::callee;
use mm_grammar::constructed::new_head;
use mm_grammar::cursor::Tokens;
use mm_grammar::names::path;
use mm_grammar::pieces::{
    line, number, past_punct, past_word, single, starts_number, starts_punct, starts_word, word_of,
};
use mm_grammar::sequences::{ended, listed};
use mm_lex::{Punct, Token, TokenKind};
use mm_names::Word;
use sqlite_items::{Boxed, Items};
use std::alloc::Global;

/// How deep constant terms nest at most.
const NESTED_MOST: u32 = 256;

/// A constant term.
pub fn term<'a>(alloc: Global, tokens: Tokens<'a>) -> Result<(Term, Tokens<'a>), Stop>
    ensures { Gives (λ x. (x.0, seen x.1)) result (term_in 256 (seen tokens.entry)) }
{
    within(alloc, NESTED_MOST, tokens)
}

/// A constant term that nests no deeper than so many levels.
#[cycle(terms)]
fn within<'a>(alloc: Global, levels: u32, tokens: Tokens<'a>) -> Result<(Term, Tokens<'a>), Stop>
    ensures { Gives (λ x. (x.0, seen x.1)) result (term_in levels (seen tokens.entry)) }
{
    if levels == 0 {
        return Err(no_level(tokens));
    }
    node(alloc, levels - 1, tokens)
}

/// What is wrong with a constant term where no level is left.
#[tactic(auto, unfolding(mm_forms::specs::Nesting::none_in))]
fn no_level(tokens: Tokens<'_>) -> Stop
    ensures { Stops result (no_term (seen tokens.entry)) }
{
    if starts_term(tokens) {
        return Stop::At(Fault::TooDeep, tokens.len());
    }
    Stop::At(Fault::Unfit, tokens.len())
}

/// A constant term whose parts nest no deeper than so many levels.
#[cycle(terms)]
#[tactic(auto, unfolding(mm_grammar::specs::TermGrammar::term_node))]
fn node<'a>(alloc: Global, levels: u32, tokens: Tokens<'a>) -> Result<(Term, Tokens<'a>), Stop>
    ensures { Gives (λ x. (x.0, seen x.1)) result (read_in_term levels term_node (seen tokens.entry)) }
{
    let line = line(tokens)?;
    let ((head, parts), rest) = shape(alloc, levels, tokens)?;
    Ok((Term { line, head, parts }, rest))
}

/// The head of a constant term and its parts, which nest no deeper than so many levels.
#[cycle(terms)]
#[tactic(auto, unfolding(mm_grammar::specs::TermGrammar::term_shape))]
fn shape<'a>(
    alloc: Global,
    levels: u32,
    tokens: Tokens<'a>,
) -> Result<((TermHead, Items<Term>), Tokens<'a>), Stop>
    ensures { Gives (λ x. (x.0, seen x.1)) result (read_in_term levels term_shape (seen tokens.entry)) }
{
    if starts_number(tokens) {
        let (number, rest) = number(tokens)?;
        return Ok(((TermHead::Number(number), Items::new(alloc)), rest));
    }
    if starts_word(Word::True, tokens) {
        let rest = past_word(Word::True, tokens)?;
        return Ok(((TermHead::Bool(true), Items::new(alloc)), rest));
    }
    if starts_word(Word::False, tokens) {
        let rest = past_word(Word::False, tokens)?;
        return Ok(((TermHead::Bool(false), Items::new(alloc)), rest));
    }
    if starts_word(Word::Tuple, tokens) {
        let rest = past_word(Word::Tuple, tokens)?;
        let (parts, rest) = parts(alloc, levels, rest)?;
        return Ok(((TermHead::Tuple, parts), rest));
    }
    if starts_word(Word::Fn, tokens) {
        let rest = past_word(Word::Fn, tokens)?;
        let (callee, rest) = callee_in_term(alloc, levels, rest)?;
        return Ok((
            (TermHead::Fn(Boxed::new(alloc, callee)?), Items::new(alloc)),
            rest,
        ));
    }
    if begins_new_term(tokens) {
        return new_term(alloc, levels, tokens);
    }
    let rest = past_punct(Punct::Ampersand, tokens)?;
    let (path, rest) = path_in_term(alloc, levels, rest)?;
    Ok((
        (TermHead::At(Boxed::new(alloc, path)?), Items::new(alloc)),
        rest,
    ))
}

/// Whether the next token begins a struct or a variant.
#[tactic(auto, unfolding(mm_grammar::specs::TermGrammar::new_term, mm_grammar::specs::Grammar::new_head))]
fn begins_new_term(tokens: Tokens<'_>) -> bool
    ensures { result ≡ begun new_term (seen tokens.entry) }
{
    starts_word(Word::New, tokens)
}

/// A struct or a variant with its parts.
#[cycle(terms)]
#[tactic(auto, unfolding(mm_grammar::specs::TermGrammar::new_term))]
fn new_term<'a>(
    alloc: Global,
    levels: u32,
    tokens: Tokens<'a>,
) -> Result<((TermHead, Items<Term>), Tokens<'a>), Stop>
    ensures { Gives (λ x. (x.0, seen x.1)) result (read_in_term levels new_term (seen tokens.entry)) }
{
    let ((of, variant), rest) = new_head_in_term(alloc, levels, tokens)?;
    let (parts, rest) = parts(alloc, levels, rest)?;
    Ok((
        (TermHead::New(Boxed::new(alloc, of)?, variant), parts),
        rest,
    ))
}

/// Constant terms in parentheses.
#[cycle(terms)]
#[tactic(auto, unfolding(mm_grammar::specs::TermGrammar::parts))]
fn parts<'a>(
    alloc: Global,
    levels: u32,
    tokens: Tokens<'a>,
) -> Result<(Items<Term>, Tokens<'a>), Stop>
    ensures { Gives (λ x. (x.0, seen x.1)) result (read_in_term levels parts (seen tokens.entry)) }
{
    let rest = past_punct(Punct::Open, tokens)?;
    if starts_punct(Punct::Close, rest) {
        let rest = past_punct(Punct::Close, rest)?;
        return Ok((Items::new(alloc), rest));
    }
    let (first, rest) = within(alloc, levels, rest)?;
    let parts = listed(alloc, first, more_terms(alloc, levels, rest));
    ended(parts, Punct::Close)
}

/// The constant terms behind the first one.
#[cycle(terms)]
#[tactic(auto, unfolding(mm_grammar::specs::TermGrammar::more_terms))]
fn more_terms<'a>(
    alloc: Global,
    levels: u32,
    tokens: Tokens<'a>,
) -> Result<(Items<Term>, Tokens<'a>), Stop>
    ensures { Gives (λ x. (x.0, seen x.1)) result (read_in_term levels more_terms (seen tokens.entry)) }
{
    let mut terms = Items::new(alloc);
    let mut rest = tokens;
    'each: for place in 0..tokens.len() {
        if !begins_next_term(rest) {
            break;
        }
        let (term, after) = next_term(alloc, levels, rest)?;
        terms.push(term)?;
        rest = after;
    }
    Ok((terms, rest))
}

/// Whether the next token begins a comma and a constant term.
#[tactic(auto, unfolding(mm_grammar::specs::TermGrammar::next_term))]
fn begins_next_term(tokens: Tokens<'_>) -> bool
    ensures { result ≡ begun next_term (seen tokens.entry) }
{
    starts_punct(Punct::Comma, tokens)
}

/// A comma and a constant term.
#[cycle(terms)]
#[tactic(auto, unfolding(mm_grammar::specs::TermGrammar::next_term))]
fn next_term<'a>(alloc: Global, levels: u32, tokens: Tokens<'a>) -> Result<(Term, Tokens<'a>), Stop>
    ensures { Gives (λ x. (x.0, seen x.1)) result (read_in_term levels next_term (seen tokens.entry)) }
{
    let rest = past_punct(Punct::Comma, tokens)?;
    within(alloc, levels, rest)
}

/// A path. Nothing in it is a constant term, so that any levels serve.
#[tactic(auto, unfolding(mm_grammar::specs::Grammar::path, mm_grammar::specs::Grammar::segments, mm_grammar::specs::Grammar::more_segments, mm_grammar::specs::Grammar::segment))]
fn path_in_term<'a>(
    alloc: Global,
    levels: u32,
    tokens: Tokens<'a>,
) -> Result<(Path, Tokens<'a>), Stop>
    ensures { Gives (λ x. (x.0, seen x.1)) result (read_in_term levels path (seen tokens.entry)) }
{
    path(alloc, tokens)
}

/// A callee. Nothing in it is a constant term, so that any levels serve.
#[tactic(auto, unfolding(mm_grammar::specs::Grammar::callee, mm_grammar::specs::Grammar::method_callee, mm_grammar::specs::Grammar::called_method, mm_grammar::specs::Grammar::call_method, mm_grammar::specs::Grammar::trait_method, mm_grammar::specs::Grammar::path_args, mm_grammar::specs::Grammar::path, mm_grammar::specs::Grammar::segments, mm_grammar::specs::Grammar::more_segments, mm_grammar::specs::Grammar::segment, mm_grammar::specs::Grammar::args, mm_grammar::specs::Grammar::some_types, mm_grammar::specs::Grammar::more_types, mm_grammar::specs::Grammar::next_type, mm_grammar::specs::Grammar::name))]
fn callee_in_term<'a>(
    alloc: Global,
    levels: u32,
    tokens: Tokens<'a>,
) -> Result<(Callee, Tokens<'a>), Stop>
    ensures { Gives (λ x. (x.0, seen x.1)) result (read_in_term levels callee (seen tokens.entry)) }
{
    callee(alloc, tokens)
}

/// What stands before the parts of a struct or a variant. Nothing in it is a constant term, so that any levels serve.
#[tactic(auto, unfolding(mm_grammar::specs::Grammar::new_head, mm_grammar::specs::Grammar::variant_name, mm_grammar::specs::Grammar::path_args, mm_grammar::specs::Grammar::path, mm_grammar::specs::Grammar::segments, mm_grammar::specs::Grammar::more_segments, mm_grammar::specs::Grammar::segment, mm_grammar::specs::Grammar::args, mm_grammar::specs::Grammar::some_types, mm_grammar::specs::Grammar::more_types, mm_grammar::specs::Grammar::next_type, mm_grammar::specs::Grammar::name))]
fn new_head_in_term<'a>(
    alloc: Global,
    levels: u32,
    tokens: Tokens<'a>,
) -> Result<((PathWithArgs, Option<Name>), Tokens<'a>), Stop>
    ensures { Gives (λ x. (x.0, seen x.1)) result (read_in_term levels new_head (seen tokens.entry)) }
{
    new_head(alloc, tokens)
}

/// Whether a constant term begins with this word.
fn is_term_word(word: Word) -> bool
    ensures { result ≡ has (kind_code (kinds.Word word)) (start Terms) }
{
    matches!(
        word,
        Word::True | Word::False | Word::Tuple | Word::Fn | Word::New
    )
}

/// Whether a constant term begins with this punctuation.
fn is_term_punct(punct: Punct) -> bool
    ensures { result ≡ has (kind_code (kinds.Punct punct)) (start Terms) }
{
    matches!(punct, Punct::Ampersand)
}

/// Whether a constant term begins with this token.
fn is_term_start(tokens: Tokens<'_>, token: Token) -> bool
    ensures { result ≡ has (kind_code (kind_by token.kind (span tokens.entry.text.now token.start token.stop))) (start Terms) }
{
    match token.kind {
        TokenKind::Number(_) => true,
        TokenKind::Word => match word_of(tokens.bytes(token)) {
            Some(word) => is_term_word(word),
            None => false,
        },
        TokenKind::Punct => match Punct::from_bytes(tokens.bytes(token)) {
            Some(punct) => is_term_punct(punct),
            None => false,
        },
        _ => false,
    }
}

/// Whether the next token begins a constant term.
fn starts_term(tokens: Tokens<'_>) -> bool
    ensures { result ≡ begins code (start Terms) (seen tokens.entry) }
{
    match tokens.split_first() {
        Some((token, _)) => is_term_start(tokens, token),
        None => false,
    }
}
