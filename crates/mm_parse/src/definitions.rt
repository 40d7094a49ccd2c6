ghost use Rattle.std.specs.Prelude.{◌≡◌};
ghost use Rattle.mm_forms.specs.Given.{Gives};
ghost use Rattle.mm_grammar.specs.ItemGrammar.{field_types as field_types_rule, struct_item as struct_rule, variant as variant_rule, next_variant as next_variant_rule, more_variants as more_variants_rule, variants as variants_rule, enum_item as enum_rule, typed_term as typed_term_rule, static_item as static_rule, const_item as const_rule, definition_form as definition_form_rule, definition as definition_rule, struct_fields as struct_fields_rule, generic_fields as generic_fields_rule, some_variants as some_variants_rule, generic_variants as generic_variants_rule, value_term as value_term_rule, generic_term as generic_term_rule, value_definition as value_definition_rule};
ghost use Rattle.mm_grammar.specs.Reading.{begun, read};
ghost use Rattle.mm_grammar.specs.Seen.{seen};

use crate::functions::{closure, function, starts_closure};
use crate::methods::{starts_trait, trait_item};
use mm_ast::{Const, Definition, DefinitionForm, Enum, Name, Static, Struct, Term, Type, Variant};
use mm_forms::Stop;
use mm_grammar::cursor::Tokens;
use mm_grammar::names::{name, params};
use mm_grammar::pieces::{past_punct, past_word, single, starts_punct, starts_word};
use mm_grammar::sequences::{both, ended, listed};
use mm_grammar::types::{ty, tys};
use mm_lex::Punct;
use mm_names::Word;
use mm_parse_heads::{flag, term};
use sqlite_items::Items;
use std::alloc::Global;

/// The types of fields, in their parentheses.
#[tactic(auto, unfolding(mm_grammar::specs::ItemGrammar::field_types))]
fn field_types<'a>(alloc: Global, tokens: Tokens<'a>) -> Result<(Items<Type>, Tokens<'a>), Stop>
    ensures { Gives (λ x. (x.0, seen x.1)) result (read field_types_rule (seen tokens.entry)) }
{
    let rest = past_punct(Punct::Open, tokens)?;
    tys(alloc, rest)
}

/// The types of the fields of a struct, up to its semicolon.
#[tactic(auto, unfolding(mm_grammar::specs::ItemGrammar::struct_fields))]
fn struct_fields<'a>(alloc: Global, tokens: Tokens<'a>) -> Result<(Items<Type>, Tokens<'a>), Stop>
    ensures { Gives (λ x. (x.0, seen x.1)) result (read struct_fields_rule (seen tokens.entry)) }
{
    ended(field_types(alloc, tokens), Punct::Semicolon)
}

/// Type parameters, and the types of the fields of a struct.
#[tactic(auto, unfolding(mm_grammar::specs::ItemGrammar::generic_fields))]
fn generic_fields<'a>(
    alloc: Global,
    tokens: Tokens<'a>,
) -> Result<((Items<Name>, Items<Type>), Tokens<'a>), Stop>
    ensures { Gives (λ x. (x.0, seen x.1)) result (read generic_fields_rule (seen tokens.entry)) }
{
    let (params, rest) = params(alloc, tokens)?;
    both(params, struct_fields(alloc, rest))
}

/// A struct.
#[tactic(auto, unfolding(mm_grammar::specs::ItemGrammar::struct_item))]
fn struct_item<'a>(alloc: Global, tokens: Tokens<'a>) -> Result<(Struct, Tokens<'a>), Stop>
    ensures { Gives (λ x. (x.0, seen x.1)) result (read struct_rule (seen tokens.entry)) }
{
    let rest = past_word(Word::Struct, tokens)?;
    let (name, rest) = name(alloc, rest)?;
    let ((type_params, fields), rest) = generic_fields(alloc, rest)?;
    Ok((
        Struct {
            name,
            type_params,
            fields,
        },
        rest,
    ))
}

/// A variant of an enum.
#[tactic(auto, unfolding(mm_grammar::specs::ItemGrammar::variant))]
fn variant<'a>(alloc: Global, tokens: Tokens<'a>) -> Result<(Variant, Tokens<'a>), Stop>
    ensures { Gives (λ x. (x.0, seen x.1)) result (read variant_rule (seen tokens.entry)) }
{
    let (name, rest) = name(alloc, tokens)?;
    let (fields, rest) = field_types(alloc, rest)?;
    Ok((Variant { name, fields }, rest))
}

/// A comma and a variant.
#[tactic(auto, unfolding(mm_grammar::specs::ItemGrammar::next_variant))]
fn next_variant<'a>(alloc: Global, tokens: Tokens<'a>) -> Result<(Variant, Tokens<'a>), Stop>
    ensures { Gives (λ x. (x.0, seen x.1)) result (read next_variant_rule (seen tokens.entry)) }
{
    let rest = past_punct(Punct::Comma, tokens)?;
    variant(alloc, rest)
}

/// Whether the next token begins one variant more.
#[tactic(auto, unfolding(mm_grammar::specs::ItemGrammar::next_variant))]
fn starts_next_variant(tokens: Tokens<'_>) -> bool
    ensures { result ≡ begun next_variant_rule (seen tokens.entry) }
{
    starts_punct(Punct::Comma, tokens)
}

/// The variants behind the first one.
#[tactic(auto, unfolding(mm_grammar::specs::ItemGrammar::more_variants))]
fn more_variants<'a>(
    alloc: Global,
    tokens: Tokens<'a>,
) -> Result<(Items<Variant>, Tokens<'a>), Stop>
    ensures { Gives (λ x. (x.0, seen x.1)) result (read more_variants_rule (seen tokens.entry)) }
{
    let mut variants = Items::new(alloc);
    let mut rest = tokens;
    'each: for place in 0..tokens.len() {
        if !starts_next_variant(rest) {
            break;
        }
        let (variant, after) = next_variant(alloc, rest)?;
        variants.push(variant)?;
        rest = after;
    }
    Ok((variants, rest))
}

/// At least one variant.
#[tactic(auto, unfolding(mm_grammar::specs::ItemGrammar::some_variants))]
fn some_variants<'a>(
    alloc: Global,
    tokens: Tokens<'a>,
) -> Result<(Items<Variant>, Tokens<'a>), Stop>
    ensures { Gives (λ x. (x.0, seen x.1)) result (read some_variants_rule (seen tokens.entry)) }
{
    let (first, rest) = variant(alloc, tokens)?;
    listed(alloc, first, more_variants(alloc, rest))
}

/// The variants of an enum, in their braces.
#[tactic(auto, unfolding(mm_grammar::specs::ItemGrammar::variants))]
fn variants<'a>(alloc: Global, tokens: Tokens<'a>) -> Result<(Items<Variant>, Tokens<'a>), Stop>
    ensures { Gives (λ x. (x.0, seen x.1)) result (read variants_rule (seen tokens.entry)) }
{
    let rest = past_punct(Punct::OpenBrace, tokens)?;
    ended(some_variants(alloc, rest), Punct::CloseBrace)
}

/// Type parameters, and the variants of an enum.
#[tactic(auto, unfolding(mm_grammar::specs::ItemGrammar::generic_variants))]
fn generic_variants<'a>(
    alloc: Global,
    tokens: Tokens<'a>,
) -> Result<((Items<Name>, Items<Variant>), Tokens<'a>), Stop>
    ensures { Gives (λ x. (x.0, seen x.1)) result (read generic_variants_rule (seen tokens.entry)) }
{
    let (params, rest) = params(alloc, tokens)?;
    both(params, variants(alloc, rest))
}

/// An enum.
#[tactic(auto, unfolding(mm_grammar::specs::ItemGrammar::enum_item))]
fn enum_item<'a>(alloc: Global, tokens: Tokens<'a>) -> Result<(Enum, Tokens<'a>), Stop>
    ensures { Gives (λ x. (x.0, seen x.1)) result (read enum_rule (seen tokens.entry)) }
{
    let rest = past_word(Word::Enum, tokens)?;
    let (name, rest) = name(alloc, rest)?;
    let ((type_params, variants), rest) = generic_variants(alloc, rest)?;
    Ok((
        Enum {
            name,
            type_params,
            variants,
        },
        rest,
    ))
}

/// The constant term that a static or a constant has.
#[tactic(auto, unfolding(mm_grammar::specs::ItemGrammar::value_term))]
fn value_term<'a>(alloc: Global, tokens: Tokens<'a>) -> Result<(Term, Tokens<'a>), Stop>
    ensures { Gives (λ x. (x.0, seen x.1)) result (read value_term_rule (seen tokens.entry)) }
{
    let rest = past_punct(Punct::Equals, tokens)?;
    ended(term(alloc, rest), Punct::Semicolon)
}

/// A type and a constant term of it.
#[tactic(auto, unfolding(mm_grammar::specs::ItemGrammar::typed_term))]
fn typed_term<'a>(alloc: Global, tokens: Tokens<'a>) -> Result<((Type, Term), Tokens<'a>), Stop>
    ensures { Gives (λ x. (x.0, seen x.1)) result (read typed_term_rule (seen tokens.entry)) }
{
    let rest = past_punct(Punct::Colon, tokens)?;
    let (ty, rest) = ty(alloc, rest)?;
    both(ty, value_term(alloc, rest))
}

/// A static.
#[tactic(auto, unfolding(mm_grammar::specs::ItemGrammar::static_item))]
fn static_item<'a>(alloc: Global, tokens: Tokens<'a>) -> Result<(Static, Tokens<'a>), Stop>
    ensures { Gives (λ x. (x.0, seen x.1)) result (read static_rule (seen tokens.entry)) }
{
    let rest = past_word(Word::Static, tokens)?;
    let (name, rest) = name(alloc, rest)?;
    let ((ty, term), rest) = typed_term(alloc, rest)?;
    Ok((Static { name, ty, term }, rest))
}

/// Type parameters, a type and a constant term of it.
#[tactic(auto, unfolding(mm_grammar::specs::ItemGrammar::generic_term))]
fn generic_term<'a>(
    alloc: Global,
    tokens: Tokens<'a>,
) -> Result<((Items<Name>, (Type, Term)), Tokens<'a>), Stop>
    ensures { Gives (λ x. (x.0, seen x.1)) result (read generic_term_rule (seen tokens.entry)) }
{
    let (params, rest) = params(alloc, tokens)?;
    both(params, typed_term(alloc, rest))
}

/// A constant.
#[tactic(auto, unfolding(mm_grammar::specs::ItemGrammar::const_item))]
fn const_item<'a>(alloc: Global, tokens: Tokens<'a>) -> Result<(Const, Tokens<'a>), Stop>
    ensures { Gives (λ x. (x.0, seen x.1)) result (read const_rule (seen tokens.entry)) }
{
    let rest = past_word(Word::Const, tokens)?;
    let (name, rest) = name(alloc, rest)?;
    let ((type_params, (ty, term)), rest) = generic_term(alloc, rest)?;
    Ok((
        Const {
            name,
            type_params,
            ty,
            term,
        },
        rest,
    ))
}

/// Whether the next token begins a struct.
#[tactic(auto, unfolding(mm_grammar::specs::ItemGrammar::struct_item))]
fn starts_struct(tokens: Tokens<'_>) -> bool
    ensures { result ≡ begun struct_rule (seen tokens.entry) }
{
    starts_word(Word::Struct, tokens)
}

/// Whether the next token begins an enum.
#[tactic(auto, unfolding(mm_grammar::specs::ItemGrammar::enum_item))]
fn starts_enum(tokens: Tokens<'_>) -> bool
    ensures { result ≡ begun enum_rule (seen tokens.entry) }
{
    starts_word(Word::Enum, tokens)
}

/// Whether the next token begins a static.
#[tactic(auto, unfolding(mm_grammar::specs::ItemGrammar::static_item))]
fn starts_static(tokens: Tokens<'_>) -> bool
    ensures { result ≡ begun static_rule (seen tokens.entry) }
{
    starts_word(Word::Static, tokens)
}

/// Whether the next token begins a constant.
#[tactic(auto, unfolding(mm_grammar::specs::ItemGrammar::const_item))]
fn starts_const(tokens: Tokens<'_>) -> bool
    ensures { result ≡ begun const_rule (seen tokens.entry) }
{
    starts_word(Word::Const, tokens)
}

/// A static, a constant or a function.
#[tactic(auto, unfolding(mm_grammar::specs::ItemGrammar::value_definition))]
fn value_definition<'a>(
    alloc: Global,
    tokens: Tokens<'a>,
) -> Result<(DefinitionForm, Tokens<'a>), Stop>
    ensures { Gives (λ x. (x.0, seen x.1)) result (read value_definition_rule (seen tokens.entry)) }
{
    if starts_static(tokens) {
        let (static_item, rest) = static_item(alloc, tokens)?;
        return Ok((DefinitionForm::Static(static_item), rest));
    }
    if starts_const(tokens) {
        let (const_item, rest) = const_item(alloc, tokens)?;
        return Ok((DefinitionForm::Const(const_item), rest));
    }
    let (function, rest) = function(alloc, tokens)?;
    Ok((DefinitionForm::Function(function), rest))
}

/// What a definition defines.
#[tactic(auto, unfolding(mm_grammar::specs::ItemGrammar::definition_form))]
fn definition_form<'a>(
    alloc: Global,
    tokens: Tokens<'a>,
) -> Result<(DefinitionForm, Tokens<'a>), Stop>
    ensures { Gives (λ x. (x.0, seen x.1)) result (read definition_form_rule (seen tokens.entry)) }
{
    if starts_closure(tokens) {
        let (closure, rest) = closure(alloc, tokens)?;
        return Ok((DefinitionForm::Closure(closure), rest));
    }
    if starts_struct(tokens) {
        let (struct_item, rest) = struct_item(alloc, tokens)?;
        return Ok((DefinitionForm::Struct(struct_item), rest));
    }
    if starts_enum(tokens) {
        let (enum_item, rest) = enum_item(alloc, tokens)?;
        return Ok((DefinitionForm::Enum(enum_item), rest));
    }
    if starts_trait(tokens) {
        let (trait_item, rest) = trait_item(alloc, tokens)?;
        return Ok((DefinitionForm::Trait(trait_item), rest));
    }
    value_definition(alloc, tokens)
}

/// A definition, and whether `pub` stands before it.
#[tactic(auto, unfolding(mm_grammar::specs::ItemGrammar::definition))]
pub fn definition<'a>(alloc: Global, tokens: Tokens<'a>) -> Result<(Definition, Tokens<'a>), Stop>
    ensures { Gives (λ x. (x.0, seen x.1)) result (read definition_rule (seen tokens.entry)) }
{
    let (is_pub, rest) = flag(Word::Pub, tokens)?;
    let (form, rest) = definition_form(alloc, rest)?;
    Ok((Definition { is_pub, form }, rest))
}
