//! What is mentioned by callees, and by a path with what is made of it.
ghost use Rattle.std.specs.Prelude.{◌≡◌, [], ◌∷◌, ◌++◌, OnOk};
ghost use Rattle.mm_mentions.specs.CalleeMentions.{callable, callee_mentions, fields_at, method_callee_mentions, named_mentions, new_mentions};
ghost use Rattle.mm_mentions.specs.Seen.{seen};

use crate::mention::{FieldsMention, Mention, What};
use crate::one_mention::{mention, mention_member, mention_path};
use crate::scope::Scope;
use crate::types::{mention_type, mention_types};
use mm_ast::{Callee, MethodCallee, Name, Path, PathWithArgs, Type};
use mm_definitions::{Kind, Wanted, path_and_name};
use mm_terms::NoMemory;
use std::alloc::Global;

/// Adds a path and its type arguments.
pub fn mention_named(
    alloc: Global,
    scope: &Scope<'_>,
    wanted: Wanted,
    named: &PathWithArgs,
    operands: Option<usize>,
    out: &mut Vec<Mention>,
) -> Result<(), NoMemory>
    ensures { OnOk result (out.new.items ≡ out.old.items ++ named_mentions (seen scope.now) wanted named.now operands) }
{
    let args = named.args.as_slice();
    mention_path(alloc, wanted, &named.path, args.len(), operands, out)?;
    mention_types(alloc, scope, args, out)
}

/// Adds the self type, the trait, and the method with its type arguments.
#[tactic(auto, unfolding(crate::specs::CalleeMentions::method_callee_mentions))]
fn mention_method_callee(
    alloc: Global,
    scope: &Scope<'_>,
    method: &MethodCallee,
    operands: Option<usize>,
    out: &mut Vec<Mention>,
) -> Result<(), NoMemory>
    ensures { OnOk result (out.new.items ≡ out.old.items ++ method_callee_mentions (seen scope.now) method.now operands) }
{
    let of = &method.of;
    let args = method.args.as_slice();
    let (tr, wanted) = (Wanted::One(Kind::Trait), Wanted::One(Kind::Method));
    mention_type(alloc, scope, &method.self_type, out)?;
    mention_named(alloc, scope, tr, of, None, out)?;
    mention_member(
        alloc,
        wanted,
        &of.path,
        &method.name,
        args.len(),
        operands,
        out,
    )?;
    mention_types(alloc, scope, args, out)
}

/// Adds a call through `Call`, where there is one.
fn mention_callable(
    line: u32,
    operands: Option<usize>,
    out: &mut Vec<Mention>,
) -> Result<(), NoMemory>
    ensures { OnOk result (out.new.items ≡ out.old.items ++ callable line operands) }
{
    match operands {
        Some(operands) => mention(line, What::Callable(operands), out),
        None => Ok(()),
    }
}

/// Adds a function by its name, with so many operands where it is called.
#[tactic(auto, unfolding(crate::specs::CalleeMentions::callee_mentions))]
pub fn mention_callee(
    alloc: Global,
    scope: &Scope<'_>,
    callee: &Callee,
    operands: Option<usize>,
    out: &mut Vec<Mention>,
) -> Result<(), NoMemory>
    ensures { OnOk result (out.new.items ≡ out.old.items ++ callee_mentions (seen scope.now) callee.now operands) }
{
    match callee {
        Callee::Direct(named) => {
            let wanted = Wanted::One(Kind::Function);
            mention_named(alloc, scope, wanted, named, operands, out)
        }
        Callee::Method(method) => mention_method_callee(alloc, scope, method, operands, out),
        Callee::Call(call) => {
            mention_type(alloc, scope, &call.self_type, out)?;
            mention_callable(call.line, operands, out)
        }
    }
}

/// Adds the number of the operands of a variant, at the line of the enum.
fn mention_fields(
    alloc: Global,
    path: &Path,
    variant: &Name,
    operands: usize,
    out: &mut Vec<Mention>,
) -> Result<(), NoMemory>
    ensures { OnOk result (out.new.items ≡ out.old.items ++ fields_at path.now variant.now operands ∷ []) }
{
    let text = path_and_name(alloc, path, variant.text.as_slice())?;
    let what = What::Fields(FieldsMention {
        path: text,
        operands,
    });
    mention(path.line, what, out)
}

/// Adds a struct or a closure with so many operands, or an enum and a variant with so many.
#[tactic(auto, unfolding(crate::specs::CalleeMentions::new_mentions))]
pub fn mention_new(
    alloc: Global,
    scope: &Scope<'_>,
    named: &PathWithArgs,
    variant: &Option<Name>,
    operands: usize,
    out: &mut Vec<Mention>,
) -> Result<(), NoMemory>
    ensures { OnOk result (out.new.items ≡ out.old.items ++ new_mentions (seen scope.now) named.now variant.now operands) }
{
    let Some(variant) = variant else {
        return mention_named(alloc, scope, Wanted::Whole, named, Some(operands), out);
    };
    let path = &named.path;
    let (of, wanted) = (Wanted::One(Kind::Enum), Wanted::One(Kind::Variant));
    mention_named(alloc, scope, of, named, None, out)?;
    mention_member(alloc, wanted, path, variant, 0, None, out)?;
    mention_fields(alloc, path, variant, operands, out)
}
