//! What is mentioned by impls.
ghost use Rattle.std.specs.List.{flat_map};
ghost use Rattle.std.specs.Prelude.{◌≡◌, [], ◌∷◌, ◌++◌, map, OnOk};
ghost use Rattle.mm_mentions.specs.ImplMentions.{drop_head_mentions, drop_target_mentions, given_by_drop_mentions, given_by_trait_mentions, given_mentions, impl_in, impl_mentions, impl_method_mentions, impl_params_mentions, trait_head_mentions};
ghost use Rattle.mm_mentions.specs.Mentions.{at};
ghost use Rattle.mm_mentions.specs.Seen.{names_of, seen};
ghost use Rattle.mm_mentions.specs.declared.mention.What.TheVariants as whats;

use crate::blocks::mention_body;
use crate::callees::mention_named;
use crate::functions::{mention_bounds, mention_function};
use crate::impl_heads::{adt_path, head_names_crate, is_drop_target, occurring};
use crate::mention::{Mention, What};
use crate::one_mention::{mention, mention_member};
use crate::scope::{NameSet, Scope, param_names};
use crate::types::mention_type;
use mm_ast::{DropImpl, Function, Impl, ImplForm, ImplMethod, Name, Path, TraitImpl, Type};
use mm_definitions::{Kind, Wanted};
use mm_terms::NoMemory;
use std::alloc::Global;

/// An impl: the crate in which it stands, its line, and its type parameters.
#[derive(Clone, Copy)]
struct Site<'a> {
    krate: &'a [u8],
    line: u32,
    params: &'a [Name],
}

/// Adds a type parameter, and whether it is among names.
fn mention_param_among(
    names: &NameSet<'_>,
    param: &Name,
    out: &mut Vec<Mention>,
) -> Result<(), NoMemory>
    ensures { OnOk result (out.new.items ≡ out.old.items ++ at param.now.line (whats.ImplParam (names_of names.now param.now.text)) ∷ []) }
{
    let occurs = names.contains(param.text.as_slice());
    mention(param.line, What::ImplParam(occurs), out)
}

/// Adds type parameters, and whether each is among names.
fn mention_params_among(
    names: &NameSet<'_>,
    params: &[Name],
    out: &mut Vec<Mention>,
) -> Result<(), NoMemory>
    ensures { OnOk result (out.new.items ≡ out.old.items ++ map (λ p. at p.line (whats.ImplParam (names_of names.now p.text))) params.now) }
{
    for param in params {
        mention_param_among(names, param, out)?;
    }
    Ok(())
}

/// Adds the type parameters of an impl, and whether each occurs in its head.
fn mention_impl_params(
    alloc: Global,
    params: &[Name],
    target: &Type,
    args: &[Type],
    out: &mut Vec<Mention>,
) -> Result<(), NoMemory>
    ensures { OnOk result (out.new.items ≡ out.old.items ++ impl_params_mentions params.now (target.now ∷ args.now)) }
{
    let names = occurring(alloc, target, args)?;
    mention_params_among(&names, params, out)
}

/// Adds the function of a method that an impl with these type parameters gives.
fn mention_given(
    alloc: Global,
    outer: &NameSet<'_>,
    function: &Function,
    out: &mut Vec<Mention>,
) -> Result<(), NoMemory>
    ensures { OnOk result (out.new.items ≡ out.old.items ++ given_mentions (names_of outer.now) function.now) }
{
    let own = param_names(alloc, function.type_params.as_slice())?;
    let scope = Scope {
        outer: Some(outer),
        own: &own,
        has_self: false,
    };
    mention_function(alloc, &scope, function, out)
}

/// Adds a method that an impl gives.
fn mention_impl_method(
    alloc: Global,
    outer: &NameSet<'_>,
    tr: &Path,
    method: &ImplMethod,
    out: &mut Vec<Mention>,
) -> Result<(), NoMemory>
    ensures { OnOk result (out.new.items ≡ out.old.items ++ impl_method_mentions (names_of outer.now) tr.now method.now) }
{
    let function = &method.function;
    let own = function.type_params.len();
    let params = Some(function.signature.params.len());
    let wanted = Wanted::One(Kind::Method);
    mention_member(alloc, wanted, tr, &function.name, own, params, out)?;
    mention_given(alloc, outer, function, out)
}

/// Adds the methods that an impl gives.
fn mention_impl_methods(
    alloc: Global,
    outer: &NameSet<'_>,
    tr: &Path,
    methods: &[ImplMethod],
    out: &mut Vec<Mention>,
) -> Result<(), NoMemory>
    ensures { OnOk result (out.new.items ≡ out.old.items ++ flat_map (impl_method_mentions (names_of outer.now) tr.now) methods.now) }
{
    for method in methods {
        mention_impl_method(alloc, outer, tr, method, out)?;
    }
    Ok(())
}

/// Adds the head of an impl of a trait.
#[tactic(auto, unfolding(crate::specs::ImplMentions::trait_head_mentions))]
fn mention_trait_head(
    alloc: Global,
    site: &Site<'_>,
    scope: &Scope<'_>,
    item: &TraitImpl,
    out: &mut Vec<Mention>,
) -> Result<(), NoMemory>
    ensures { OnOk result (out.new.items ≡ out.old.items ++ trait_head_mentions site.now.krate.now site.now.line (seen scope.now) site.now.params.now item.now) }
{
    let args = item.of.args.as_slice();
    let wanted = Wanted::One(Kind::Trait);
    let is_own = head_names_crate(site.krate, item);
    mention_impl_params(alloc, site.params, &item.target, args, out)?;
    mention_named(alloc, scope, wanted, &item.of, None, out)?;
    mention_type(alloc, scope, &item.target, out)?;
    mention(site.line, What::Head(is_own), out)
}

/// Adds the bounds and the methods of an impl of a trait.
#[tactic(auto, unfolding(crate::specs::ImplMentions::given_by_trait_mentions, crate::specs::Seen::seen))]
fn mention_given_by_trait(
    alloc: Global,
    own: &NameSet<'_>,
    item: &TraitImpl,
    out: &mut Vec<Mention>,
) -> Result<(), NoMemory>
    ensures { OnOk result (out.new.items ≡ out.old.items ++ given_by_trait_mentions (names_of own.now) item.now) }
{
    let scope = Scope {
        outer: None,
        own,
        has_self: false,
    };
    mention_bounds(alloc, &scope, item.bounds.as_slice(), out)?;
    mention_impl_methods(alloc, own, &item.of.path, item.methods.as_slice(), out)
}

/// Adds what is asked of the self type of a Drop impl.
fn mention_drop_target(
    alloc: Global,
    site: &Site<'_>,
    target: &Type,
    out: &mut Vec<Mention>,
) -> Result<(), NoMemory>
    ensures { OnOk result (out.new.items ≡ out.old.items ++ drop_target_mentions site.now.krate.now site.now.line site.now.params.now target.now) }
{
    let is_target = is_drop_target(alloc, site.krate, site.params, target)?;
    let path = adt_path(alloc, target)?;
    mention(target.line, What::DropTarget(is_target), out)?;
    mention(site.line, What::DropImpl(path), out)
}

/// Adds the head of a Drop impl.
#[tactic(auto, unfolding(crate::specs::ImplMentions::drop_head_mentions))]
fn mention_drop_head(
    alloc: Global,
    site: &Site<'_>,
    scope: &Scope<'_>,
    target: &Type,
    out: &mut Vec<Mention>,
) -> Result<(), NoMemory>
    ensures { OnOk result (out.new.items ≡ out.old.items ++ drop_head_mentions site.now.krate.now site.now.line (seen scope.now) site.now.params.now target.now) }
{
    mention_impl_params(alloc, site.params, target, &[], out)?;
    mention_type(alloc, scope, target, out)?;
    mention_drop_target(alloc, site, target, out)
}

/// Adds the bounds of a Drop impl, and its method `drop`.
#[tactic(auto, unfolding(crate::specs::ImplMentions::given_by_drop_mentions))]
fn mention_given_by_drop(
    alloc: Global,
    scope: &Scope<'_>,
    item: &DropImpl,
    out: &mut Vec<Mention>,
) -> Result<(), NoMemory>
    ensures { OnOk result (out.new.items ≡ out.old.items ++ given_by_drop_mentions (seen scope.now) item.now) }
{
    mention_bounds(alloc, scope, item.bounds.as_slice(), out)?;
    mention_type(alloc, scope, &item.param, out)?;
    mention_body(alloc, scope, 1, &item.body, out)
}

/// Adds what an impl gives, and its head.
#[tactic(auto, unfolding(crate::specs::ImplMentions::impl_in, crate::specs::Seen::seen))]
fn mention_impl_in(
    alloc: Global,
    site: &Site<'_>,
    own: &NameSet<'_>,
    form: &ImplForm,
    out: &mut Vec<Mention>,
) -> Result<(), NoMemory>
    ensures { OnOk result (out.new.items ≡ out.old.items ++ impl_in site.now.krate.now site.now.line (names_of own.now) site.now.params.now form.now) }
{
    let scope = Scope {
        outer: None,
        own,
        has_self: false,
    };
    match form {
        ImplForm::Drop(item) => {
            mention_drop_head(alloc, site, &scope, &item.target, out)?;
            mention_given_by_drop(alloc, &scope, item, out)
        }
        ImplForm::Trait(item) => {
            mention_trait_head(alloc, site, &scope, item, out)?;
            mention_given_by_trait(alloc, own, item, out)
        }
    }
}

/// Adds an impl of this crate, at this line.
pub fn mention_impl(
    alloc: Global,
    krate: &[u8],
    line: u32,
    item: &Impl,
    out: &mut Vec<Mention>,
) -> Result<(), NoMemory>
    ensures { OnOk result (out.new.items ≡ out.old.items ++ impl_mentions krate.now line item.now) }
{
    let params = item.type_params.as_slice();
    let own = param_names(alloc, params)?;
    let site = Site {
        krate,
        line,
        params,
    };
    mention_impl_in(alloc, &site, &own, &item.form, out)
}
