ghost use Rattle.std.specs.Prelude.{◌≡◌, [], ◌∷◌};
ghost use Rattle.mm_forms.specs.Forms.{has, firsts};
ghost use Rattle.mm_forms.specs.Given.{Gives, Stops};
ghost use Rattle.mm_lex.specs.Lexemes as kinds;
ghost use Rattle.mm_lex.specs.Lexemes.{kind_by, span};
ghost use Rattle.mm_grammar.specs.Codes.{code, kind_code};
ghost use Rattle.mm_grammar.specs.Grammar.{name as name_rule};
ghost use Rattle.mm_grammar.specs.ItemGrammar.{impl_item as impl_rule, definition as definition_rule, module_entry as module_rule, entry as entry_rule, item as item_rule, more_items as more_items_rule, braces as braces_rule};
ghost use Rattle.mm_grammar.specs.Reading.{begun, braces_in, no_braces, read_in_module, start};
ghost use Rattle.mm_grammar.specs.Seen.{seen};

use crate::definitions::definition;
use crate::impls::impl_item;
use mm_ast::{Definition, Impl, Item, ItemForm, Name};
use mm_forms::{Fault, Stop};
use mm_grammar::cursor::Tokens;
use mm_grammar::names::name;
use mm_grammar::pieces::{line, past_punct, past_word, starts_punct, starts_word, word_of};
use mm_grammar::sequences::ended;
use mm_lex::{Punct, Token, TokenKind};
use mm_names::Word;
use sqlite_items::{Boxed, Items};
use std::alloc::Global;

/// The braces of a module that nests no deeper than so many levels.
#[cycle(modules)]
fn within<'a>(
    alloc: Global,
    levels: u32,
    tokens: Tokens<'a>,
) -> Result<(Items<Item>, Tokens<'a>), Stop>
    ensures { Gives (λ x. (x.0, seen x.1)) result (braces_in levels (seen tokens.entry)) }
{
    if levels == 0 {
        return Err(no_level(tokens));
    }
    braces(alloc, levels - 1, tokens)
}

/// What is wrong with the braces of a module where no level is left.
#[tactic(auto, unfolding(mm_forms::specs::Nesting::none_in))]
fn no_level(tokens: Tokens<'_>) -> Stop
    ensures { Stops result (no_braces (seen tokens.entry)) }
{
    if starts_punct(Punct::OpenBrace, tokens) {
        return Stop::At(Fault::TooDeep, tokens.len());
    }
    Stop::At(Fault::Unfit, tokens.len())
}

/// Items in their braces, in which modules nest no deeper than so many levels.
#[cycle(modules)]
#[tactic(auto, unfolding(mm_grammar::specs::ItemGrammar::braces))]
fn braces<'a>(
    alloc: Global,
    levels: u32,
    tokens: Tokens<'a>,
) -> Result<(Items<Item>, Tokens<'a>), Stop>
    ensures { Gives (λ x. (x.0, seen x.1)) result (read_in_module levels braces_rule (seen tokens.entry)) }
{
    let rest = past_punct(Punct::OpenBrace, tokens)?;
    ended(more_items(alloc, levels, rest), Punct::CloseBrace)
}

/// Whether an item begins with this word.
#[tactic(auto, unfolding(mm_grammar::specs::ItemGrammar::item, mm_grammar::specs::ItemGrammar::entry, mm_grammar::specs::ItemGrammar::module_entry, mm_grammar::specs::ItemGrammar::impl_item, mm_grammar::specs::ItemGrammar::definition, mm_grammar::specs::ItemGrammar::definition_form, mm_grammar::specs::ItemGrammar::value_definition, mm_grammar::specs::ItemGrammar::fn_name, mm_grammar::specs::ItemGrammar::closure, mm_grammar::specs::ItemGrammar::closure_head, mm_grammar::specs::ItemGrammar::struct_item, mm_grammar::specs::ItemGrammar::enum_item, mm_grammar::specs::ItemGrammar::trait_item, mm_grammar::specs::ItemGrammar::static_item, mm_grammar::specs::ItemGrammar::const_item, mm_grammar::specs::ItemGrammar::function, mm_grammar::specs::ItemGrammar::fn_head))]
fn is_item_word(word: Word) -> bool
    ensures { result ≡ has (kind_code (kinds.Word word)) (firsts code start item_rule) }
{
    matches!(
        word,
        Word::Mod
            | Word::Impl
            | Word::Pub
            | Word::Closure
            | Word::Struct
            | Word::Enum
            | Word::Trait
            | Word::Static
            | Word::Const
            | Word::Inline
            | Word::Fn
    )
}

/// Whether an item begins with this token.
#[tactic(auto, unfolding(mm_grammar::specs::ItemGrammar::item, mm_grammar::specs::ItemGrammar::entry, mm_grammar::specs::ItemGrammar::module_entry, mm_grammar::specs::ItemGrammar::impl_item, mm_grammar::specs::ItemGrammar::definition, mm_grammar::specs::ItemGrammar::definition_form, mm_grammar::specs::ItemGrammar::value_definition, mm_grammar::specs::ItemGrammar::fn_name, mm_grammar::specs::ItemGrammar::closure, mm_grammar::specs::ItemGrammar::closure_head, mm_grammar::specs::ItemGrammar::struct_item, mm_grammar::specs::ItemGrammar::enum_item, mm_grammar::specs::ItemGrammar::trait_item, mm_grammar::specs::ItemGrammar::static_item, mm_grammar::specs::ItemGrammar::const_item, mm_grammar::specs::ItemGrammar::function, mm_grammar::specs::ItemGrammar::fn_head))]
fn is_item_start(tokens: Tokens<'_>, token: Token) -> bool
    ensures { result ≡ has (kind_code (kind_by token.kind (span tokens.entry.text.now token.start token.stop))) (firsts code start item_rule) }
{
    match token.kind {
        TokenKind::Word => match word_of(tokens.bytes(token)) {
            Some(word) => is_item_word(word),
            None => false,
        },
        _ => false,
    }
}

/// Whether the next token begins an item.
fn starts_item(tokens: Tokens<'_>) -> bool
    ensures { result ≡ begun item_rule (seen tokens.entry) }
{
    match tokens.split_first() {
        Some((token, _)) => is_item_start(tokens, token),
        None => false,
    }
}

/// Items, in which modules nest no deeper than so many levels.
#[cycle(modules)]
#[tactic(auto, unfolding(mm_grammar::specs::ItemGrammar::more_items))]
pub fn more_items<'a>(
    alloc: Global,
    levels: u32,
    tokens: Tokens<'a>,
) -> Result<(Items<Item>, Tokens<'a>), Stop>
    ensures { Gives (λ x. (x.0, seen x.1)) result (read_in_module levels more_items_rule (seen tokens.entry)) }
{
    let mut items = Items::new(alloc);
    let mut rest = tokens;
    'each: for place in 0..tokens.len() {
        if !starts_item(rest) {
            break;
        }
        let (item, after) = item(alloc, levels, rest)?;
        items.push(item)?;
        rest = after;
    }
    Ok((items, rest))
}

/// An item, in which modules nest no deeper than so many levels.
#[cycle(modules)]
#[tactic(auto, unfolding(mm_grammar::specs::ItemGrammar::item))]
fn item<'a>(alloc: Global, levels: u32, tokens: Tokens<'a>) -> Result<(Item, Tokens<'a>), Stop>
    ensures { Gives (λ x. (x.0, seen x.1)) result (read_in_module levels item_rule (seen tokens.entry)) }
{
    let line = line(tokens)?;
    let ((form, items), rest) = entry(alloc, levels, tokens)?;
    Ok((Item { line, form, items }, rest))
}

/// What an item is and the items in it, in which modules nest no deeper than so many levels.
#[cycle(modules)]
#[tactic(auto, unfolding(mm_grammar::specs::ItemGrammar::entry))]
fn entry<'a>(
    alloc: Global,
    levels: u32,
    tokens: Tokens<'a>,
) -> Result<((ItemForm, Items<Item>), Tokens<'a>), Stop>
    ensures { Gives (λ x. (x.0, seen x.1)) result (read_in_module levels entry_rule (seen tokens.entry)) }
{
    if starts_module(tokens) {
        return module_entry(alloc, levels, tokens);
    }
    if starts_impl(tokens) {
        let (form, rest) = impl_within(alloc, levels, tokens)?;
        return Ok((
            (ItemForm::Impl(Boxed::new(alloc, form)?), Items::new(alloc)),
            rest,
        ));
    }
    let (form, rest) = definition_within(alloc, levels, tokens)?;
    let form = Boxed::new(alloc, form)?;
    Ok(((ItemForm::Definition(form), Items::new(alloc)), rest))
}

/// Whether the next token begins a module.
#[tactic(auto, unfolding(mm_grammar::specs::ItemGrammar::module_entry))]
fn starts_module(tokens: Tokens<'_>) -> bool
    ensures { result ≡ begun module_rule (seen tokens.entry) }
{
    starts_word(Word::Mod, tokens)
}

/// Whether the next token begins an impl.
#[tactic(auto, unfolding(mm_grammar::specs::ItemGrammar::impl_item))]
fn starts_impl(tokens: Tokens<'_>) -> bool
    ensures { result ≡ begun impl_rule (seen tokens.entry) }
{
    starts_word(Word::Impl, tokens)
}

/// A name. Nothing in it is a module, so that any levels serve.
#[tactic(auto, unfolding(mm_grammar::specs::Grammar::name))]
fn name_within<'a>(
    alloc: Global,
    levels: u32,
    tokens: Tokens<'a>,
) -> Result<(Name, Tokens<'a>), Stop>
    ensures { Gives (λ x. (x.0, seen x.1)) result (read_in_module levels name_rule (seen tokens.entry)) }
{
    name(alloc, tokens)
}

/// An impl. Nothing in it is a module, so that any levels serve.
fn impl_within<'a>(
    alloc: Global,
    levels: u32,
    tokens: Tokens<'a>,
) -> Result<(Impl, Tokens<'a>), Stop>
    ensures { Gives (λ x. (x.0, seen x.1)) result (read_in_module levels impl_rule (seen tokens.entry)) }
{
    impl_item(alloc, tokens)
}

/// A definition. Nothing in it is a module, so that any levels serve.
fn definition_within<'a>(
    alloc: Global,
    levels: u32,
    tokens: Tokens<'a>,
) -> Result<(Definition, Tokens<'a>), Stop>
    ensures { Gives (λ x. (x.0, seen x.1)) result (read_in_module levels definition_rule (seen tokens.entry)) }
{
    definition(alloc, tokens)
}

/// A module, in which modules nest no deeper than so many levels.
#[cycle(modules)]
#[tactic(auto, unfolding(mm_grammar::specs::ItemGrammar::module_entry))]
fn module_entry<'a>(
    alloc: Global,
    levels: u32,
    tokens: Tokens<'a>,
) -> Result<((ItemForm, Items<Item>), Tokens<'a>), Stop>
    ensures { Gives (λ x. (x.0, seen x.1)) result (read_in_module levels module_rule (seen tokens.entry)) }
{
    let rest = past_word(Word::Mod, tokens)?;
    let (name, rest) = name_within(alloc, levels, rest)?;
    let (items, rest) = within(alloc, levels, rest)?;
    Ok(((ItemForm::Module(name), items), rest))
}
