ghost use Rattle.std.specs.Prelude.{◌≡◌, ◌≤◌, ◌++◌, ℕ, List, length, IfOk, IfErr};
ghost use Rattle.std.specs.Str.{IsUtf8};
ghost use Rattle.mm_lex.specs.declared.token.Token.{Token};
ghost use Rattle.mm_lex.specs.declared.text_fault.TextRule.{TextRule};
ghost use Rattle.mm_lex.specs.Lexemes.{Lexeme, lexemes};
ghost use Rattle.mm_lex.specs.Tokens.{AreTokensOf};
ghost use Rattle.mm_ast.specs.declared.items.Ast.{Ast};
ghost use Rattle.mm_ast.specs.Written.{IsWritten};
ghost use Rattle.mm_forms.specs.declared.fault.Fault.{Fault};
ghost use Rattle.mm_forms.specs.Given.{Gives};
ghost use Rattle.mm_forms.specs.Verdict.{whole_in};
ghost use Rattle.mm_grammar.specs.Faults.{IsTreeFault, Refuses, StandsAt, rule_of};
ghost use Rattle.mm_grammar.specs.ItemGrammar.{crates};
ghost use Rattle.mm_grammar.specs.Reading.{IsText, read};
ghost use Rattle.mm_grammar.specs.Seen.{seen};

use crate::krates::crates;
use mm_ast::Ast;
use mm_forms::{Fault, Stop};
use mm_grammar::cursor::Tokens;
use mm_lex::{Position, TextFault, TextRule, Token, end_position};
use std::alloc::Global;

/// The tree of all of the tokens.
fn whole(alloc: Global, tokens: Tokens<'_>) -> Result<Ast, Stop>
    ensures { Gives (λ tree. tree) result (whole_in (read crates (seen tokens.entry))) }
{
    let (tree, rest) = crates(alloc, tokens)?;
    if rest.len() > 0 {
        return Err(Stop::At(Fault::Unfit, rest.len()));
    }
    Ok(tree)
}

/// The rule that a fault breaks.
fn broken(fault: Fault) -> TextRule
    ensures { result ≡ rule_of fault }
{
    match fault {
        Fault::Unfit | Fault::TooMany => TextRule::Token,
        Fault::TooDeep => TextRule::Depth,
    }
}

/// The line and the column where so many of the tokens are left.
fn position(text: &[u8], tokens: &[Token], left: usize) -> (u32, u32)
    requires utf8 { IsUtf8 text.now }
    requires few { length text.now ≤ 4194304 }
    ensures { (front rest : List Lexeme) → lexemes text.now tokens.now ≡ front ++ rest → length rest ≡ left → StandsAt text.now rest result.0 result.1 }
{
    match tokens.get(tokens.len().saturating_sub(left)) {
        Some(token) => (token.line, token.column),
        None => {
            let end = end_position(text);
            (end.line, end.column)
        }
    }
}

/// The tree of a text, from its tokens: those that [`lex`](mm_lex::lex) gives.
///
/// # Errors
///
/// The first fault, exactly where the tokens spell no tree: `Token` at the first token, or the end of the text, that no
/// continuation allows; `Depth` at the token that opens a level past its limit.
pub fn parse(alloc: Global, text: &[u8], tokens: &[Token]) -> Result<Ast, TextFault>
    requires few { length text.now ≤ 4194304 }
    requires lexed { AreTokensOf text.now tokens.now }
    ensures read { IfOk result (λ tree. IsText tree (lexemes text.now tokens.now)) }
    ensures fault { IfErr result (Refuses text.now tokens.now) }
{
    match whole(alloc, Tokens { text, tokens }) {
        Ok(tree) => Ok(tree),
        Err(Stop::NoMemory) => Err(TextFault::NoMemory),
        Err(Stop::At(fault, left)) => {
            let (line, column) = position(text, tokens, left);
            Err(TextFault::BadText {
                line,
                column,
                rule: broken(fault),
            })
        }
    }
}

/// Tokens spell one tree.
pub fn one_tree()
    ensures { (tokens : List Lexeme) (a b : Ast) → IsText a tokens → IsText b tokens → a ≡ b }
{}

/// Tokens that spell a tree have no fault.
pub fn no_fault()
    ensures { (tokens rest : List Lexeme) (tree : Ast) (fault : Fault) → IsText tree tokens → IsTreeFault fault tokens rest → ⊥ }
{}

/// Tokens have one first fault.
pub fn one_fault()
    ensures { (tokens rest others : List Lexeme) (fault other : Fault) → IsTreeFault fault tokens rest → IsTreeFault other tokens others → (fault ≡ other) × (rest ≡ others) }
{}

/// A tree that the tokens of a text spell is written as one: names are names, heads have the children that they take,
/// and there are neither too few nor too many locals and blocks.
pub fn tree_is_written()
    ensures { (text : List ℕ) (tokens : List Token) (tree : Ast) → AreTokensOf text tokens → IsText tree (lexemes text tokens) → IsWritten tree }
{}
