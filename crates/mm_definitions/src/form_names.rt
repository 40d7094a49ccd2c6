//! What one item defines that something else can name.
ghost use Rattle.std.specs.Prelude.{◌≡◌, [], ◌∷◌, ◌++◌, ◌+◌, map, IfOk, OnOk};
ghost use Rattle.std.specs.List.{enumerate_from};
ghost use Rattle.mm_definitions.specs.Definitions.{definition_named, enum_named, form_named, method_named, trait_alone, trait_named, variant_named};
ghost use Rattle.mm_definitions.specs.Kinds.{named};
ghost use Rattle.mm_definitions.specs.Paths.{path_in};

use crate::dyn_compatible::is_dyn_compatible;
use crate::kinds::Kind;
use crate::named::Named;
use crate::paths::path_in;
use mm_ast::{DefinitionForm, Enum, ItemForm, Method, Name, Trait, Variant};
use mm_terms::{DefId, NoMemory, Text};
use sqlite_items::Items;
use std::alloc::Global;

/// Where a name stands: in the module, enum or trait with this path; whether other crates can name it; and the number
/// of its definition.
#[derive(Clone, Copy)]
struct Site<'a> {
    prefix: &'a [u8],
    is_pub: bool,
    number: u32,
}

/// Adds a name of which there is no more to say.
fn add_named(
    alloc: Global,
    site: &Site<'_>,
    place: u32,
    kind: Kind,
    name: &Name,
    type_params: usize,
    operands: usize,
    out: &mut Items<Named>,
) -> Result<(), NoMemory>
    ensures { OnOk result (out.new ≡ out.old ++ named kind site.now.number place (path_in site.now.prefix.now name.now.text) site.now.is_pub type_params operands ∷ []) }
{
    let path = path_in(alloc, site.prefix, name.text.as_slice())?;
    out.push(Named {
        kind,
        def: DefId(site.number),
        place,
        path,
        is_pub: site.is_pub,
        type_params,
        operands,
        is_dyn_compatible: false,
    })?;
    Ok(())
}

/// Adds the variant at a place of an enum.
#[tactic(auto, unfolding(crate::specs::Definitions::variant_named))]
fn add_variant(
    alloc: Global,
    site: &Site<'_>,
    place: usize,
    variant: &Variant,
    out: &mut Items<Named>,
) -> Result<(), NoMemory>
    ensures { OnOk result (out.new ≡ out.old ++ variant_named site.now.number site.now.prefix.now site.now.is_pub (place, variant.now) ∷ []) }
{
    let Ok(place) = u32::try_from(place) else {
        return Err(NoMemory);
    };
    let fields = variant.fields.len();
    add_named(
        alloc,
        site,
        place,
        Kind::Variant,
        &variant.name,
        0,
        fields,
        out,
    )
}

/// Adds the variants of an enum.
fn add_variants(
    alloc: Global,
    site: &Site<'_>,
    variants: &[Variant],
    out: &mut Items<Named>,
) -> Result<(), NoMemory>
    ensures { OnOk result (out.new ≡ out.old ++ map (variant_named site.now.number site.now.prefix.now site.now.is_pub) (enumerate_from 0 variants.now)) }
{
    for (place, variant) in variants.iter().enumerate() {
        add_variant(alloc, site, place, variant, out)?;
    }
    Ok(())
}

/// The number of the method at a place of the trait with this number.
fn method_number(number: u32, place: u32) -> Result<u32, NoMemory>
    ensures { IfOk result (λ n. n ≡ number + 1 + place) }
{
    let first = number.checked_add(1).ok_or(NoMemory)?;
    first.checked_add(place).ok_or(NoMemory)
}

/// Adds the method at a place of a trait.
#[tactic(auto, unfolding(crate::specs::Definitions::method_named))]
fn add_method(
    alloc: Global,
    site: &Site<'_>,
    place: usize,
    method: &Method,
    out: &mut Items<Named>,
) -> Result<(), NoMemory>
    ensures { OnOk result (out.new ≡ out.old ++ method_named site.now.number site.now.prefix.now site.now.is_pub (place, method.now) ∷ []) }
{
    let Ok(place) = u32::try_from(place) else {
        return Err(NoMemory);
    };
    let number = method_number(site.number, place)?;
    let own = Site { number, ..*site };
    let (type_params, params) = (method.type_params.len(), method.signature.params.len());
    add_named(
        alloc,
        &own,
        place,
        Kind::Method,
        &method.name,
        type_params,
        params,
        out,
    )
}

/// Adds the methods of a trait.
fn add_methods(
    alloc: Global,
    site: &Site<'_>,
    methods: &[Method],
    out: &mut Items<Named>,
) -> Result<(), NoMemory>
    ensures { OnOk result (out.new ≡ out.old ++ map (method_named site.now.number site.now.prefix.now site.now.is_pub) (enumerate_from 0 methods.now)) }
{
    for (place, method) in methods.iter().enumerate() {
        add_method(alloc, site, place, method, out)?;
    }
    Ok(())
}

/// Adds an enum, and its variants.
#[tactic(auto, unfolding(crate::specs::Definitions::enum_named))]
fn add_enum(
    alloc: Global,
    site: &Site<'_>,
    item: &Enum,
    out: &mut Items<Named>,
) -> Result<(), NoMemory>
    ensures { OnOk result (out.new ≡ out.old ++ enum_named site.now.number (path_in site.now.prefix.now item.now.name.text) site.now.is_pub item.now) }
{
    let path = path_in(alloc, site.prefix, item.name.text.as_slice())?;
    let inside = Site {
        prefix: path.as_slice(),
        ..*site
    };
    let type_params = item.type_params.len();
    add_named(alloc, site, 0, Kind::Enum, &item.name, type_params, 0, out)?;
    add_variants(alloc, &inside, item.variants.as_slice(), out)
}

/// Adds a trait without its methods: the site is inside it.
fn add_trait_alone(
    alloc: Global,
    inside: &Site<'_>,
    item: &Trait,
    out: &mut Items<Named>,
) -> Result<(), NoMemory>
    ensures { OnOk result (out.new ≡ out.old ++ trait_alone inside.now.number inside.now.prefix.now inside.now.is_pub item.now ∷ []) }
{
    let path = Text::from_slice(alloc, inside.prefix)?;
    out.push(Named {
        kind: Kind::Trait,
        def: DefId(inside.number),
        place: 0,
        path,
        is_pub: inside.is_pub,
        type_params: item.type_params.len(),
        operands: 0,
        is_dyn_compatible: is_dyn_compatible(item.methods.as_slice()),
    })?;
    Ok(())
}

/// Adds a trait, and its methods.
#[tactic(auto, unfolding(crate::specs::Definitions::trait_named))]
fn add_trait(
    alloc: Global,
    site: &Site<'_>,
    item: &Trait,
    out: &mut Items<Named>,
) -> Result<(), NoMemory>
    ensures { OnOk result (out.new ≡ out.old ++ trait_named site.now.number (path_in site.now.prefix.now item.now.name.text) site.now.is_pub item.now) }
{
    let path = path_in(alloc, site.prefix, item.name.text.as_slice())?;
    let inside = Site {
        prefix: path.as_slice(),
        ..*site
    };
    add_trait_alone(alloc, &inside, item, out)?;
    add_methods(alloc, &inside, item.methods.as_slice(), out)
}

/// Adds a definition that has no names inside it.
fn add_one(
    alloc: Global,
    site: &Site<'_>,
    kind: Kind,
    name: &Name,
    type_params: usize,
    operands: usize,
    out: &mut Items<Named>,
) -> Result<(), NoMemory>
    ensures { OnOk result (out.new ≡ out.old ++ named kind site.now.number 0 (path_in site.now.prefix.now name.now.text) site.now.is_pub type_params operands ∷ []) }
{
    add_named(alloc, site, 0, kind, name, type_params, operands, out)
}

/// Adds what a definition defines.
#[tactic(auto, unfolding(crate::specs::Definitions::definition_named))]
fn add_definition(
    alloc: Global,
    site: &Site<'_>,
    form: &DefinitionForm,
    out: &mut Items<Named>,
) -> Result<(), NoMemory>
    ensures { OnOk result (out.new ≡ out.old ++ definition_named site.now.number site.now.prefix.now site.now.is_pub form.now) }
{
    match form {
        DefinitionForm::Function(f) => {
            let (own, params) = (f.type_params.len(), f.signature.params.len());
            add_one(alloc, site, Kind::Function, &f.name, own, params, out)
        }
        DefinitionForm::Closure(c) => {
            let (own, captures) = (c.type_params.len(), c.captures.len());
            add_one(alloc, site, Kind::Closure, &c.name, own, captures, out)
        }
        DefinitionForm::Struct(s) => {
            let (own, fields) = (s.type_params.len(), s.fields.len());
            add_one(alloc, site, Kind::Struct, &s.name, own, fields, out)
        }
        DefinitionForm::Enum(e) => add_enum(alloc, site, e, out),
        DefinitionForm::Trait(t) => add_trait(alloc, site, t, out),
        DefinitionForm::Static(s) => add_one(alloc, site, Kind::Static, &s.name, 0, 0, out),
        DefinitionForm::Const(c) => {
            let own = c.type_params.len();
            add_one(alloc, site, Kind::Const, &c.name, own, 0, out)
        }
    }
}

/// Adds what an item of the module with this path defines, without the items in it. Its first definition has this number.
#[tactic(auto, unfolding(crate::specs::Definitions::form_named))]
pub fn add_form(
    alloc: Global,
    number: u32,
    prefix: &[u8],
    form: &ItemForm,
    out: &mut Items<Named>,
) -> Result<(), NoMemory>
    ensures { OnOk result (out.new ≡ out.old ++ form_named number prefix.now form.now) }
{
    match form {
        ItemForm::Module(_) | ItemForm::Impl(_) => Ok(()),
        ItemForm::Definition(definition) => {
            let definition = definition.get();
            let site = Site {
                prefix,
                is_pub: definition.is_pub,
                number,
            };
            add_definition(alloc, &site, &definition.form, out)
        }
    }
}
