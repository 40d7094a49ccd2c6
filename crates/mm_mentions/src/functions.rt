//! What is mentioned by functions, closures and methods of traits.
ghost use Rattle.std.specs.Option.{option_map_or};
ghost use Rattle.std.specs.Prelude.{◌≡◌, [], ◌++◌, OnOk};
ghost use Rattle.mm_mentions.specs.BodyMentions.{body_mentions};
ghost use Rattle.mm_mentions.specs.FunctionMentions.{bound_form_mentions, bound_mentions, bounds_mentions, closure_mentions, function_mentions, method_in, method_mentions, methods_mentions, signature_mentions};
ghost use Rattle.mm_mentions.specs.Seen.{names_of, seen};
ghost use Rattle.mm_mentions.specs.TypeMentions.{written_type};

use crate::blocks::mention_body;
use crate::mention::Mention;
use crate::one_mention::mention_path;
use crate::scope::{NameSet, Scope, param_names};
use crate::types::{mention_names, mention_names_in, mention_type, mention_types};
use mm_ast::{Body, Bound, BoundForm, Closure, Function, Method, Signature, Type};
use mm_definitions::{Kind, Wanted};
use mm_terms::NoMemory;
use std::alloc::Global;

/// Adds the trait of a bound.
fn mention_bound_form(
    alloc: Global,
    scope: &Scope<'_>,
    form: &BoundForm,
    out: &mut Vec<Mention>,
) -> Result<(), NoMemory>
    ensures { OnOk result (out.new.items ≡ out.old.items ++ bound_form_mentions (seen scope.now) form.now) }
{
    let BoundForm::Trait(named) = form else {
        return Ok(());
    };
    let args = named.args.as_slice();
    let wanted = Wanted::One(Kind::Trait);
    mention_path(alloc, wanted, &named.path, args.len(), None, out)?;
    mention_names_in(alloc, true, scope, args, out)
}

/// Adds the bounds of a where clause.
#[tactic(auto, unfolding(crate::specs::FunctionMentions::bound_mentions))]
pub fn mention_bounds(
    alloc: Global,
    scope: &Scope<'_>,
    bounds: &[Bound],
    out: &mut Vec<Mention>,
) -> Result<(), NoMemory>
    ensures { OnOk result (out.new.items ≡ out.old.items ++ bounds_mentions (seen scope.now) bounds.now) }
{
    for bound in bounds {
        mention_names(alloc, true, scope, &bound.ty, out)?;
        mention_bound_form(alloc, scope, &bound.form, out)?;
    }
    Ok(())
}

/// Adds the result type, if one is written.
fn mention_result(
    alloc: Global,
    scope: &Scope<'_>,
    ty: &Option<Type>,
    out: &mut Vec<Mention>,
) -> Result<(), NoMemory>
    ensures { OnOk result (out.new.items ≡ out.old.items ++ option_map_or (written_type (seen scope.now)) ty.now []) }
{
    match ty {
        Some(ty) => mention_type(alloc, scope, ty, out),
        None => Ok(()),
    }
}

/// Adds the types of the parameters and of the result.
#[tactic(auto, unfolding(crate::specs::FunctionMentions::signature_mentions))]
fn mention_signature(
    alloc: Global,
    scope: &Scope<'_>,
    signature: &Signature,
    out: &mut Vec<Mention>,
) -> Result<(), NoMemory>
    ensures { OnOk result (out.new.items ≡ out.old.items ++ signature_mentions (seen scope.now) signature.now) }
{
    mention_types(alloc, scope, signature.params.as_slice(), out)?;
    mention_result(alloc, scope, &signature.result, out)
}

/// Adds the signature, the bounds and the body of a function.
#[tactic(auto, unfolding(crate::specs::FunctionMentions::function_mentions))]
pub fn mention_function(
    alloc: Global,
    scope: &Scope<'_>,
    function: &Function,
    out: &mut Vec<Mention>,
) -> Result<(), NoMemory>
    ensures { OnOk result (out.new.items ≡ out.old.items ++ function_mentions (seen scope.now) function.now) }
{
    let params = function.signature.params.len();
    mention_signature(alloc, scope, &function.signature, out)?;
    mention_bounds(alloc, scope, function.bounds.as_slice(), out)?;
    mention_body(alloc, scope, params, &function.body, out)
}

/// Adds the captures, the signature and the body of a closure.
#[tactic(auto, unfolding(crate::specs::FunctionMentions::closure_mentions))]
pub fn mention_closure(
    alloc: Global,
    scope: &Scope<'_>,
    closure: &Closure,
    out: &mut Vec<Mention>,
) -> Result<(), NoMemory>
    ensures { OnOk result (out.new.items ≡ out.old.items ++ closure_mentions (seen scope.now) closure.now) }
{
    let written = closure.signature.params.len();
    let params = written.checked_add(1).ok_or(NoMemory)?;
    mention_types(alloc, scope, closure.captures.as_slice(), out)?;
    mention_signature(alloc, scope, &closure.signature, out)?;
    mention_body(alloc, scope, params, &closure.body, out)
}

/// Adds a default body with so many parameters, if there is one.
fn mention_default(
    alloc: Global,
    scope: &Scope<'_>,
    params: usize,
    body: &Option<Body>,
    out: &mut Vec<Mention>,
) -> Result<(), NoMemory>
    ensures { OnOk result (out.new.items ≡ out.old.items ++ option_map_or (body_mentions (seen scope.now) params) body.now []) }
{
    match body {
        Some(body) => mention_body(alloc, scope, params, body, out),
        None => Ok(()),
    }
}

/// Adds the signature, the bounds and the default body of a method.
#[tactic(auto, unfolding(crate::specs::FunctionMentions::method_in))]
fn mention_method_in(
    alloc: Global,
    scope: &Scope<'_>,
    method: &Method,
    out: &mut Vec<Mention>,
) -> Result<(), NoMemory>
    ensures { OnOk result (out.new.items ≡ out.old.items ++ method_in (seen scope.now) method.now) }
{
    let params = method.signature.params.len();
    mention_signature(alloc, scope, &method.signature, out)?;
    mention_bounds(alloc, scope, method.bounds.as_slice(), out)?;
    mention_default(alloc, scope, params, &method.body, out)
}

/// Adds a method of a trait with these type parameters.
fn mention_method(
    alloc: Global,
    outer: &NameSet<'_>,
    method: &Method,
    out: &mut Vec<Mention>,
) -> Result<(), NoMemory>
    ensures { OnOk result (out.new.items ≡ out.old.items ++ method_mentions (names_of outer.now) method.now) }
{
    let own = param_names(alloc, method.type_params.as_slice())?;
    let scope = Scope {
        outer: Some(outer),
        own: &own,
        has_self: true,
    };
    mention_method_in(alloc, &scope, method, out)
}

/// Adds the methods of a trait with these type parameters.
pub fn mention_methods(
    alloc: Global,
    outer: &NameSet<'_>,
    methods: &[Method],
    out: &mut Vec<Mention>,
) -> Result<(), NoMemory>
    ensures { OnOk result (out.new.items ≡ out.old.items ++ methods_mentions (names_of outer.now) methods.now) }
{
    for method in methods {
        mention_method(alloc, outer, method, out)?;
    }
    Ok(())
}
