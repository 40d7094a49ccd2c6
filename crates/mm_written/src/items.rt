//! Definitions, impls and items.
ghost use Rattle.std.specs.List.{list_all};
ghost use Rattle.std.specs.Option.{option_map_or};
ghost use Rattle.std.specs.Prelude.{◌≡◌, true};
ghost use Rattle.mm_written.specs.Bodies.{written_body};
ghost use Rattle.mm_written.specs.Items.{written_function, written_closure, written_struct, written_variant, written_enum, written_method, written_trait, written_static, written_const, written_definition, written_drop_impl, written_trait_impl, written_impl_form, written_impl, written_form, written_item};
ghost use Rattle.mm_written.specs.Lists.{few_each};

use crate::bodies::written_body;
use crate::lists::{few, few_in_self};
use crate::names::{written_name, written_names};
use crate::signatures::{written_bounds, written_signature};
use crate::terms::written_term;
use crate::types::{written_args, written_type, written_types};
use mm_ast as ast;

// ---- definitions

#[tactic(auto, unfolding(crate::specs::Items::written_function))]
fn written_function(function: &ast::Function) -> bool
    ensures { result ≡ written_function function.now }
{
    written_name(&function.name)
        && written_names(function.type_params.as_slice())
        && written_signature(&function.signature)
        && written_bounds(function.bounds.as_slice())
        && written_body(function.signature.params.len(), &function.body)
}

#[tactic(auto, unfolding(crate::specs::Items::written_closure))]
fn written_closure(closure: &ast::Closure) -> bool
    ensures { result ≡ written_closure closure.now }
{
    written_name(&closure.name)
        && written_names(closure.type_params.as_slice())
        && written_types(closure.captures.as_slice())
        && written_signature(&closure.signature)
        && written_body(closure.signature.params.len(), &closure.body)
        && few_in_self(closure.type_params.as_slice())
}

#[tactic(auto, unfolding(crate::specs::Items::written_struct))]
fn written_struct(definition: &ast::Struct) -> bool
    ensures { result ≡ written_struct definition.now }
{
    written_name(&definition.name)
        && written_names(definition.type_params.as_slice())
        && written_types(definition.fields.as_slice())
}

#[tactic(auto, unfolding(crate::specs::Items::written_variant))]
fn written_variant(variant: &ast::Variant) -> bool
    ensures { result ≡ written_variant variant.now }
{
    written_name(&variant.name) && written_types(variant.fields.as_slice())
}

fn each_variant(variants: &[ast::Variant]) -> bool
    ensures { result ≡ list_all written_variant variants.now }
{
    variants.iter().all(|variant| written_variant(variant))
}

fn written_variants(variants: &[ast::Variant]) -> bool
    ensures { result ≡ few_each written_variant variants.now }
{
    few(variants) && each_variant(variants)
}

#[tactic(auto, unfolding(crate::specs::Items::written_enum))]
fn written_enum(definition: &ast::Enum) -> bool
    ensures { result ≡ written_enum definition.now }
{
    written_name(&definition.name)
        && written_names(definition.type_params.as_slice())
        && written_variants(definition.variants.as_slice())
}

/// The default body of a method with so many parameters, where there is one.
fn written_default(params: usize, body: &Option<ast::Body>) -> bool
    ensures { result ≡ option_map_or (written_body params) body.now true }
{
    match body {
        Some(body) => written_body(params, body),
        None => true,
    }
}

#[tactic(auto, unfolding(crate::specs::Items::written_method))]
fn written_method(method: &ast::Method) -> bool
    ensures { result ≡ written_method method.now }
{
    written_name(&method.name)
        && written_names(method.type_params.as_slice())
        && written_signature(&method.signature)
        && written_bounds(method.bounds.as_slice())
        && written_default(method.signature.params.len(), &method.body)
}

fn each_method(methods: &[ast::Method]) -> bool
    ensures { result ≡ list_all written_method methods.now }
{
    methods.iter().all(|method| written_method(method))
}

fn written_methods(methods: &[ast::Method]) -> bool
    ensures { result ≡ few_each written_method methods.now }
{
    few(methods) && each_method(methods)
}

#[tactic(auto, unfolding(crate::specs::Items::written_trait))]
fn written_trait(definition: &ast::Trait) -> bool
    ensures { result ≡ written_trait definition.now }
{
    written_name(&definition.name)
        && written_names(definition.type_params.as_slice())
        && written_methods(definition.methods.as_slice())
}

#[tactic(auto, unfolding(crate::specs::Items::written_static))]
fn written_static(definition: &ast::Static) -> bool
    ensures { result ≡ written_static definition.now }
{
    written_name(&definition.name) && written_type(&definition.ty) && written_term(&definition.term)
}

#[tactic(auto, unfolding(crate::specs::Items::written_const))]
fn written_const(definition: &ast::Const) -> bool
    ensures { result ≡ written_const definition.now }
{
    written_name(&definition.name)
        && written_names(definition.type_params.as_slice())
        && written_type(&definition.ty)
        && written_term(&definition.term)
}

#[tactic(auto, unfolding(crate::specs::Items::written_definition))]
fn written_definition(form: &ast::DefinitionForm) -> bool
    ensures { result ≡ written_definition form.now }
{
    match form {
        ast::DefinitionForm::Function(definition) => written_function(definition),
        ast::DefinitionForm::Closure(definition) => written_closure(definition),
        ast::DefinitionForm::Struct(definition) => written_struct(definition),
        ast::DefinitionForm::Enum(definition) => written_enum(definition),
        ast::DefinitionForm::Trait(definition) => written_trait(definition),
        ast::DefinitionForm::Static(definition) => written_static(definition),
        ast::DefinitionForm::Const(definition) => written_const(definition),
    }
}

// ---- impls

/// The self type, the bounds, and the method `drop`, which has one parameter.
#[tactic(auto, unfolding(crate::specs::Items::written_drop_impl))]
fn written_drop_impl(drop_impl: &ast::DropImpl) -> bool
    ensures { result ≡ written_drop_impl drop_impl.now }
{
    written_type(&drop_impl.target)
        && written_bounds(drop_impl.bounds.as_slice())
        && written_type(&drop_impl.param)
        && written_body(1, &drop_impl.body)
}

fn each_impl_method(methods: &[ast::ImplMethod]) -> bool
    ensures { result ≡ list_all (λ method. written_function method.function) methods.now }
{
    methods
        .iter()
        .all(|method| written_function(&method.function))
}

fn written_impl_methods(methods: &[ast::ImplMethod]) -> bool
    ensures { result ≡ few_each (λ method. written_function method.function) methods.now }
{
    few(methods) && each_impl_method(methods)
}

#[tactic(auto, unfolding(crate::specs::Items::written_trait_impl))]
fn written_trait_impl(trait_impl: &ast::TraitImpl) -> bool
    ensures { result ≡ written_trait_impl trait_impl.now }
{
    written_args(&trait_impl.of)
        && written_type(&trait_impl.target)
        && written_bounds(trait_impl.bounds.as_slice())
        && written_impl_methods(trait_impl.methods.as_slice())
}

fn written_impl_form(form: &ast::ImplForm) -> bool
    ensures { result ≡ written_impl_form form.now }
{
    match form {
        ast::ImplForm::Drop(drop_impl) => written_drop_impl(drop_impl),
        ast::ImplForm::Trait(trait_impl) => written_trait_impl(trait_impl),
    }
}

#[tactic(auto, unfolding(crate::specs::Items::written_impl))]
fn written_impl(block: &ast::Impl) -> bool
    ensures { result ≡ written_impl block.now }
{
    written_names(block.type_params.as_slice()) && written_impl_form(&block.form)
}

// ---- items

#[tactic(auto, unfolding(crate::specs::Items::written_form))]
fn written_form(form: &ast::ItemForm) -> bool
    ensures { result ≡ written_form form.now }
{
    match form {
        ast::ItemForm::Module(name) => written_name(name),
        ast::ItemForm::Impl(block) => written_impl(block.get()),
        ast::ItemForm::Definition(definition) => written_definition(&definition.get().form),
    }
}

/// An item, and those in it.
#[cycle(items)]
#[tactic(auto, using(crate::proofs::ItemLemmas::written_item_parts))]
fn written_item(item: &ast::Item) -> bool
    ensures { result ≡ written_item item.now }
{
    written_form(&item.form) && few(item.items.as_slice()) && each_item(item.items.as_slice())
}

#[cycle(items)]
fn each_item(items: &[ast::Item]) -> bool
    ensures { result ≡ list_all written_item items.now }
{
    for item in items {
        if !written_item(item) {
            return false;
        }
    }
    true
}

pub fn written_items(items: &[ast::Item]) -> bool
    ensures { result ≡ few_each written_item items.now }
{
    few(items) && each_item(items)
}
