//! The canonical form of a text, or why it has none.

ghost use Rattle.std.specs.Prelude.{◌≡◌, [], ◌∷◌, ◌++◌, ◌⊎◌, ℕ, List, ◌≤◌, length, codes, decimal, IfOk};
ghost use Rattle.mm_lex.specs.Lexemes.{LexemeKind, lexemes};
ghost use Rattle.mm_lex.specs.Tokens.{AreTokensOf};
ghost use Rattle.mm_print.specs.Printing.{IsCanonical, Spell};
ghost use Rattle.mm_tool.specs.Formatting.{IsFormat, IsTreeFormat, TellsFault, TellsUnloaded, rule_name as name_of_rule, text_rule_name as name_of_text_rule};

use crate::answer::Answer;
use itoa::Buffer;
use mm_ast::Ast;
use mm_lex::{TextFault, TextRule, Token, lex};
use mm_load_plain::{LoadError, Rule, load};
use mm_parse::parse;
use mm_print::print;
use mm_terms::NoMemory;
use std::alloc::Global;

/// The name of a rule for tokens and for the grammar.
fn text_rule_name(rule: TextRule) -> &'static [u8]
    ensures { result.now ≡ name_of_text_rule rule }
{
    match rule {
        TextRule::Utf8 => b"Utf8",
        TextRule::Char => b"Char",
        TextRule::Number => b"Number",
        TextRule::Name => b"Name",
        TextRule::Token => b"Token",
        TextRule::Depth => b"Depth",
    }
}

/// The name of a rule of loading.
fn rule_name(rule: Rule) -> &'static [u8]
    ensures { result.now ≡ name_of_rule rule }
{
    match rule {
        Rule::UnknownName => b"UnknownName",
        Rule::DoubleName => b"DoubleName",
        Rule::WrongArity => b"WrongArity",
        Rule::BadMain => b"BadMain",
        Rule::LongType => b"LongType",
    }
}

/// The line for a fault of a text.
fn bad_text(alloc: Global, line: u32, column: u32, rule: TextRule) -> Result<Vec<u8>, NoMemory>
    ensures { IfOk result (λ output. output.items ≡ codes "error: bad text at " ++ decimal line ++ codes ":" ++ decimal column ++ codes ": " ++ name_of_text_rule rule ++ 10 ∷ []) }
{
    let mut buffer = Buffer::new();
    let mut output = Vec::from_slice(alloc, b"error: bad text at ")?;
    output.extend_from_slice(buffer.format(line).as_bytes())?;
    output.extend_from_slice(b":")?;
    let mut buffer = Buffer::new();
    output.extend_from_slice(buffer.format(column).as_bytes())?;
    output.extend_from_slice(b": ")?;
    output.extend_from_slice(text_rule_name(rule))?;
    output.push(b'\n')?;
    Ok(output)
}

/// The line for a rule that a crate breaks.
fn bad_crate(alloc: Global, line: u32, rule: Rule) -> Result<Vec<u8>, NoMemory>
    ensures { IfOk result (λ output. output.items ≡ codes "error: bad crate at line " ++ decimal line ++ codes ": " ++ name_of_rule rule ++ 10 ∷ []) }
{
    let mut buffer = Buffer::new();
    let mut output = Vec::from_slice(alloc, b"error: bad crate at line ")?;
    output.extend_from_slice(buffer.format(line).as_bytes())?;
    output.extend_from_slice(b": ")?;
    output.extend_from_slice(rule_name(rule))?;
    output.push(b'\n')?;
    Ok(output)
}

/// What is said of a fault of a text.
fn tell(alloc: Global, fault: TextFault) -> Result<Answer, NoMemory>
    ensures { IfOk result (λ answer. TellsFault fault answer.status answer.output.items) }
{
    match fault {
        TextFault::BadText { line, column, rule } => Ok(Answer {
            status: 3,
            output: bad_text(alloc, line, column, rule)?,
        }),
        TextFault::NoMemory => Err(NoMemory),
    }
}

/// The canonical text of a tree, as an answer.
fn printed(alloc: Global, tree: &Ast) -> Result<Answer, NoMemory>
    ensures status { IfOk result (λ answer. answer.status ≡ 0) }
    ensures canonical { IfOk result (λ answer. (kinds : List LexemeKind) → Spell tree.now kinds → IsCanonical tree.now answer.output.items) }
{
    Ok(Answer {
        status: 0,
        output: print(alloc, tree)?,
    })
}

/// What is said of a tree that is not loaded.
fn unloaded(alloc: Global, error: LoadError) -> Result<Answer, NoMemory>
    ensures { IfOk result (λ answer. TellsUnloaded error answer.status answer.output.items) }
{
    match error {
        LoadError::Rule(rule, line) => Ok(Answer {
            status: 4,
            output: bad_crate(alloc, line, rule)?,
        }),
        LoadError::NotBuilt => Ok(Answer {
            status: 12,
            output: Vec::from_slice(alloc, b"error: form not built\n")?,
        }),
        LoadError::NoMemory => Err(NoMemory),
    }
}

/// The answer to a tree: its canonical text where it means a program.
fn format_tree(alloc: Global, tree: &Ast) -> Result<Answer, NoMemory>
    ensures { IfOk result (λ answer. (kinds : List LexemeKind) → Spell tree.now kinds → IsTreeFormat tree.now answer.status answer.output.items) }
{
    match load(alloc, tree) {
        Ok(_program) => printed(alloc, tree),
        Err(error) => unloaded(alloc, error),
    }
}

/// The answer to a text with these tokens.
fn format_tokens(alloc: Global, text: &[u8], tokens: &[Token]) -> Result<Answer, NoMemory>
    requires within { length text.now ≤ 4194304 }
    requires lexed { AreTokensOf text.now tokens.now }
    ensures { IfOk result (λ answer. IsFormat text.now answer.status answer.output.items) }
{
    match parse(alloc, text, tokens) {
        Ok(tree) => format_tree(alloc, &tree),
        Err(fault) => tell(alloc, fault),
    }
}

/// The answer to a text that is to be written in its canonical form. The text has at most
/// [`TEXT_LIMIT`](crate::TEXT_LIMIT) bytes.
pub fn format(alloc: Global, text: &[u8]) -> Result<Answer, NoMemory>
    requires { length text.now ≤ 4194304 }
    ensures { IfOk result (λ answer. IsFormat text.now answer.status answer.output.items) }
{
    match lex(alloc, text) {
        Ok(tokens) => format_tokens(alloc, text, &tokens),
        Err(fault) => tell(alloc, fault),
    }
}
