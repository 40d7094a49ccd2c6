//! The names of items.
ghost use Rattle.std.specs.Prelude.{◌≡◌};
ghost use Rattle.mm_load_plain.specs.WrittenItem.{definition_name, form_name};

use mm_ast as ast;

/// The name of what is defined.
#[tactic(auto, unfolding(crate::specs::WrittenItem::definition_name))]
fn definition_name(form: &ast::DefinitionForm) -> &ast::Name
    ensures { result.now ≡ definition_name form.now }
{
    match form {
        ast::DefinitionForm::Function(function) => &function.name,
        ast::DefinitionForm::Closure(closure) => &closure.name,
        ast::DefinitionForm::Struct(item) => &item.name,
        ast::DefinitionForm::Enum(item) => &item.name,
        ast::DefinitionForm::Trait(item) => &item.name,
        ast::DefinitionForm::Static(item) => &item.name,
        ast::DefinitionForm::Const(item) => &item.name,
    }
}

/// The name of an item; an impl has none.
#[tactic(auto, unfolding(crate::specs::WrittenItem::form_name))]
pub fn name_text(form: &ast::ItemForm) -> &[u8]
    ensures { result.now ≡ (form_name form.now).text }
{
    match form {
        ast::ItemForm::Module(name) => name.text.as_slice(),
        ast::ItemForm::Definition(definition) => definition_name(&definition.get().form)
            .text
            .as_slice(),
        ast::ItemForm::Impl(_) => b"",
    }
}

/// The line of the name of an item.
#[tactic(auto, unfolding(crate::specs::WrittenItem::form_name))]
pub fn name_line(form: &ast::ItemForm) -> u32
    ensures { result ≡ (form_name form.now).line }
{
    match form {
        ast::ItemForm::Module(name) => name.line,
        ast::ItemForm::Definition(definition) => definition_name(&definition.get().form).line,
        ast::ItemForm::Impl(_) => 0,
    }
}
