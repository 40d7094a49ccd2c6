ghost use Rattle.std.specs.Prelude.{◌≡◌};
ghost use Rattle.mm_forms.specs.Forms.{begins, has};
ghost use Rattle.mm_forms.specs.Given.{Gives};
ghost use Rattle.mm_lex.specs.Lexemes as kinds;
ghost use Rattle.mm_lex.specs.Lexemes.{kind_by, span};
ghost use Rattle.mm_grammar.specs.Codes.{kind_code, code};
ghost use Rattle.mm_grammar.specs.Grammar.{args, path_args, some_types, tys};
ghost use Rattle.mm_grammar.specs.Reading.{read, start, type_in};
ghost use Rattle.mm_grammar.specs.Rules.{Types};
ghost use Rattle.mm_grammar.specs.Seen.{seen};

use crate::cursor::Tokens;
use crate::nested_types::{args_within, path_args_within, some_types_within, tys_within, within};
use crate::pieces::word_of;
use mm_ast::{PathWithArgs, Type};
use mm_forms::Stop;
use mm_lex::{Punct, Token, TokenKind};
use mm_names::Word;
use sqlite_items::Items;
use std::alloc::Global;

/// How deep types nest at most.
const NESTED_MOST: u32 = 2_048;

/// A type.
pub fn ty<'a>(alloc: Global, tokens: Tokens<'a>) -> Result<(Type, Tokens<'a>), Stop>
    ensures { Gives (λ x. (x.0, seen x.1)) result (type_in 2048 (seen tokens.entry)) }
{
    within(alloc, NESTED_MOST, tokens)
}

/// Type arguments in angles, none where there are no angles.
#[tactic(auto, unfolding(crate::specs::Grammar::args, crate::specs::Grammar::some_types, crate::specs::Grammar::more_types, crate::specs::Grammar::next_type))]
pub fn args<'a>(alloc: Global, tokens: Tokens<'a>) -> Result<(Items<Type>, Tokens<'a>), Stop>
    ensures { Gives (λ x. (x.0, seen x.1)) result (read args (seen tokens.entry)) }
{
    args_within(alloc, NESTED_MOST, tokens)
}

/// A path and its arguments.
#[tactic(auto, unfolding(crate::specs::Grammar::path_args, crate::specs::Grammar::path, crate::specs::Grammar::segments, crate::specs::Grammar::more_segments, crate::specs::Grammar::segment, crate::specs::Grammar::args, crate::specs::Grammar::some_types, crate::specs::Grammar::more_types, crate::specs::Grammar::next_type))]
pub fn path_args<'a>(alloc: Global, tokens: Tokens<'a>) -> Result<(PathWithArgs, Tokens<'a>), Stop>
    ensures { Gives (λ x. (x.0, seen x.1)) result (read path_args (seen tokens.entry)) }
{
    path_args_within(alloc, NESTED_MOST, tokens)
}

/// At least one type.
#[tactic(auto, unfolding(crate::specs::Grammar::some_types, crate::specs::Grammar::more_types, crate::specs::Grammar::next_type))]
pub fn some_types<'a>(alloc: Global, tokens: Tokens<'a>) -> Result<(Items<Type>, Tokens<'a>), Stop>
    ensures { Gives (λ x. (x.0, seen x.1)) result (read some_types (seen tokens.entry)) }
{
    some_types_within(alloc, NESTED_MOST, tokens)
}

/// Types with the closing parenthesis behind them.
#[tactic(auto, unfolding(crate::specs::Grammar::tys, crate::specs::Grammar::some_types, crate::specs::Grammar::more_types, crate::specs::Grammar::next_type))]
pub fn tys<'a>(alloc: Global, tokens: Tokens<'a>) -> Result<(Items<Type>, Tokens<'a>), Stop>
    ensures { Gives (λ x. (x.0, seen x.1)) result (read tys (seen tokens.entry)) }
{
    tys_within(alloc, NESTED_MOST, tokens)
}

/// Whether a type begins with this word.
fn is_type_word(word: Word) -> bool
    ensures { result ≡ has (kind_code (kinds.Word word)) (start Types) }
{
    matches!(
        word,
        Word::SelfType
            | Word::U64
            | Word::Bool
            | Word::BoxType
            | Word::FnPtr
            | Word::FnItem
            | Word::Closure
            | Word::Dyn
    )
}

/// Whether a type begins with this punctuation.
fn is_type_punct(punct: Punct) -> bool
    ensures { result ≡ has (kind_code (kinds.Punct punct)) (start Types) }
{
    matches!(punct, Punct::Open | Punct::Ampersand)
}

/// Whether a type begins with this token.
fn is_type_start(tokens: Tokens<'_>, token: Token) -> bool
    ensures { result ≡ has (kind_code (kind_by token.kind (span tokens.entry.text.now token.start token.stop))) (start Types) }
{
    match token.kind {
        TokenKind::Name => true,
        TokenKind::Word => match word_of(tokens.bytes(token)) {
            Some(word) => is_type_word(word),
            None => false,
        },
        TokenKind::Punct => match Punct::from_bytes(tokens.bytes(token)) {
            Some(punct) => is_type_punct(punct),
            None => false,
        },
        _ => false,
    }
}

/// Whether the next token begins a type.
pub fn starts_type(tokens: Tokens<'_>) -> bool
    ensures { result ≡ begins code (start Types) (seen tokens.entry) }
{
    match tokens.split_first() {
        Some((token, _)) => is_type_start(tokens, token),
        None => false,
    }
}
