//! Functions and items.
ghost use Rattle.std.specs.List.{list_all};
ghost use Rattle.std.specs.Prelude.{◌≡◌};
ghost use Rattle.mm_built.specs.Built.{built_bound, built_signature, built_function, built_definition, built_form, built_item};

use crate::bodies::built_body;
use crate::types::{built_result, built_types};
use mm_ast as ast;

fn built_bound(bound: &ast::Bound) -> bool
    ensures { result ≡ built_bound bound.now.form }
{
    match &bound.form {
        ast::BoundForm::Trait(_) | ast::BoundForm::Call => false,
    }
}

fn built_bounds(bounds: &[ast::Bound]) -> bool
    ensures { result ≡ list_all (λ bound. built_bound bound.form) bounds.now }
{
    bounds.iter().all(|bound| built_bound(bound))
}

#[tactic(auto, unfolding(crate::specs::Built::built_signature))]
fn built_signature(signature: &ast::Signature) -> bool
    ensures { result ≡ built_signature signature.now }
{
    built_types(signature.params.as_slice()) && built_result(&signature.result)
}

#[tactic(auto, unfolding(crate::specs::Built::built_function))]
fn built_function(function: &ast::Function) -> bool
    ensures { result ≡ built_function function.now }
{
    !function.is_inline
        && built_bounds(function.bounds.as_slice())
        && built_signature(&function.signature)
        && built_body(&function.body)
}

fn built_definition(form: &ast::DefinitionForm) -> bool
    ensures { result ≡ built_definition form.now }
{
    match form {
        ast::DefinitionForm::Function(function) => built_function(function),
        ast::DefinitionForm::Closure(_)
        | ast::DefinitionForm::Struct(_)
        | ast::DefinitionForm::Enum(_)
        | ast::DefinitionForm::Trait(_)
        | ast::DefinitionForm::Static(_)
        | ast::DefinitionForm::Const(_) => false,
    }
}

fn built_form(form: &ast::ItemForm) -> bool
    ensures { result ≡ built_form form.now }
{
    match form {
        ast::ItemForm::Module(_) => true,
        ast::ItemForm::Impl(_) => false,
        ast::ItemForm::Definition(definition) => built_definition(&definition.get().form),
    }
}

/// The item, and those in it.
#[cycle(items)]
#[tactic(auto, using(crate::proofs::BuiltLemmas::built_item_parts))]
fn built_item(item: &ast::Item) -> bool
    ensures { result ≡ built_item item.now }
{
    built_form(&item.form) && built_items(item.items.as_slice())
}

#[cycle(items)]
pub fn built_items(items: &[ast::Item]) -> bool
    ensures { result ≡ list_all built_item items.now }
{
    for item in items {
        if !built_item(item) {
            return false;
        }
    }
    true
}
