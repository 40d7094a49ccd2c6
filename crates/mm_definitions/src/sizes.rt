//! How many definitions an item is.
ghost use Rattle.std.specs.Prelude.{◌≡◌, ◌+◌, IfOk};
ghost use Rattle.mm_definitions.specs.Placed.{definition_size, impl_size, size};

use mm_ast::{DefinitionForm, ImplForm, ItemForm};
use mm_terms::NoMemory;

/// A trait or an impl with so many methods.
fn size_with(methods: usize) -> Result<u32, NoMemory>
    ensures { IfOk result (λ size. size ≡ 1 + methods) }
{
    let Ok(methods) = u32::try_from(methods) else {
        return Err(NoMemory);
    };
    methods.checked_add(1).ok_or(NoMemory)
}

/// A trait counts its methods; all else is one.
#[tactic(auto, unfolding(crate::specs::Placed::definition_size))]
fn definition_size(form: &DefinitionForm) -> Result<u32, NoMemory>
    ensures { IfOk result (λ size. size ≡ definition_size form.now) }
{
    match form {
        DefinitionForm::Trait(t) => size_with(t.methods.len()),
        DefinitionForm::Function(_)
        | DefinitionForm::Closure(_)
        | DefinitionForm::Struct(_)
        | DefinitionForm::Enum(_)
        | DefinitionForm::Static(_)
        | DefinitionForm::Const(_) => Ok(1),
    }
}

/// An impl counts its methods; a Drop impl has one.
#[tactic(auto, unfolding(crate::specs::Placed::impl_size))]
fn impl_size(form: &ImplForm) -> Result<u32, NoMemory>
    ensures { IfOk result (λ size. size ≡ impl_size form.now) }
{
    match form {
        ImplForm::Drop(_) => Ok(2),
        ImplForm::Trait(t) => size_with(t.methods.len()),
    }
}

/// How many definitions an item is, without those in it: a module is none. A number of 2^32 or more gives `NoMemory`.
#[tactic(auto, unfolding(crate::specs::Placed::size))]
pub fn size(form: &ItemForm) -> Result<u32, NoMemory>
    ensures { IfOk result (λ n. n ≡ size form.now) }
{
    match form {
        ItemForm::Module(_) => Ok(0),
        ItemForm::Impl(item) => impl_size(&item.get().form),
        ItemForm::Definition(definition) => definition_size(&definition.get().form),
    }
}
