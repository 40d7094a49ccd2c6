ghost use Rattle.std.specs.Prelude.{◌≡◌, ◌<◌, IfOk, length, Some, slice_get};
ghost use Rattle.std.specs.Option.{option_copied};
ghost use Rattle.mm_program.specs.declared.kind.DefKind.TheVariants as kind;
ghost use Rattle.mm_program.specs.Kinds.{has_result, has_term};
ghost use Rattle.mm_program.specs.Naming.{is_named_outside};
ghost use Rattle.mm_program.specs.Valid.{IsValid, IsText, IsDefinitionIn};
ghost use Rattle.mm_program.specs.Views.{IsDef, IsOfKind, IsOfKinds, def_of, kind_of, crate_of, crate_name, path_of, module_of, is_pub, is_inline, type_params_of, parent_of, variants_of, fields_of, head_of, methods_of, drop_impl_of, drop_self_of, params_of, result_of, term_of, bounds_of, body_of, impls_of};

use crate::body::Body;
use crate::kind::DefKind;
use crate::parts::{DefPart, Parts};
use crate::tables::tables;
use crate::term::Term;
use mm_terms::{CrateId, DefId, Head, NoMemory, Text, Ty};
use sqlite_items::Items;
use std::alloc::Global;
use std::marker::Model;

/// Loaded crates, which contracts see as the parts that they were built of. Every id that stands in it is in range and names a
/// definition of the kind that is wanted there, and every arity is right.
#[derive(Drop)]
pub struct Program {
    parts: Parts,
    /// The impls of each trait, and an empty list for each other definition.
    impls: Items<Items<DefId>>,
    /// Whether each definition is named outside.
    named: Items<bool>,
}

impl Model for Program {
    ghost use Rattle.std.specs.Coded.{codes};
    ghost use Rattle.mm_program.specs.contracts.parts.Parts as parts_row;
    ghost use Rattle.mm_program.specs.declared.parts.Parts.{Parts};

    ghost Value = { Parts };

    ghost coded = { Prim.hlevel (codes, parts_row.the_row.coded) };

    ghost use Rattle.mm_program.specs.Tables.{AreTables};
    ghost use Rattle.mm_program.specs.Valid.{IsValid};

    ghost view = { λ p. p.parts };

    ghost invariant = { λ p. IsValid p.parts × AreTables p.parts p.impls p.named };
}

/// The text, whose bytes are UTF-8.
fn text(bytes: &Text) -> &str
    requires { IsText bytes.now }
    ensures { result.now ≡ bytes.now }
{
    unsafe { str::from_utf8_unchecked(bytes.as_slice()) }
}

impl Program {
    /// The program of these parts.
    pub fn build(alloc: Global, parts: Parts) -> Result<Program, NoMemory>
        requires { IsValid parts }
        ensures { IfOk result (λ p. p ≡ parts) }
    {
        let (impls, named) = tables(alloc, parts.defs.as_slice())?;
        Ok(Program {
            parts,
            impls,
            named,
        })
    }

    /// What a definition was built of, where there is one with this id.
    pub fn get(&self, d: DefId) -> Option<&DefPart>
        ensures { option_copied result ≡ def_of self.now d }
    {
        self.parts.defs.get(d.0 as usize)
    }

    /// What a definition was built of.
    fn part(&self, d: DefId) -> &DefPart
        requires { IsDef self.now d }
        ensures there { def_of self.now d ≡ Some result.now }
        ensures valid { IsDefinitionIn self.now d result.now }
    {
        &self.parts.defs.as_slice()[d.0 as usize]
    }

    /// The number of crates. Their ids are the numbers below it.
    pub fn crates(&self) -> u32
        ensures { result ≡ length self.now.crates }
    {
        self.parts.crates.len() as u32
    }

    /// The number of definitions. Their ids are the numbers below it.
    pub fn defs(&self) -> u32
        ensures count { result ≡ length self.now.defs }
        ensures valid { IsValid self.now }
    {
        self.parts.defs.len() as u32
    }

    /// The function that a run begins with.
    pub fn main(&self) -> DefId
        ensures { result ≡ self.now.main }
    {
        self.parts.main
    }

    /// The name of a crate.
    pub fn crate_name(&self, c: CrateId) -> &str
        requires { c.0 < length self.now.crates }
        ensures { crate_name self.now c ≡ Some result.now }
    {
        text(&self.parts.crates.as_slice()[c.0 as usize])
    }

    /// What a definition is.
    pub fn kind(&self, d: DefId) -> DefKind
        requires { IsDef self.now d }
        ensures { kind_of self.now d ≡ Some result }
    {
        self.part(d).kind
    }

    /// The crate of a definition.
    pub fn crate_of(&self, d: DefId) -> CrateId
        requires { IsDef self.now d }
        ensures { crate_of self.now d ≡ Some result }
    {
        self.part(d).krate
    }

    /// The path of a definition: its module and its name, separated by `::`. The path of a method of a trait impl is that of the
    /// trait's method that it gives, the path of a method of a Drop impl is `Drop::drop`, and an impl has the empty path.
    pub fn path(&self, d: DefId) -> &str
        requires { IsDef self.now d }
        ensures { result.now ≡ path_of self.now d }
    {
        text(&self.part(d).path)
    }

    /// The module of a definition: the crate's name and the names of modules, separated by `::`.
    pub fn module(&self, d: DefId) -> &str
        requires { IsDef self.now d }
        ensures { module_of self.now d ≡ Some result.now }
    {
        text(&self.parts.modules.as_slice()[self.part(d).module as usize])
    }

    /// Whether other crates can name a definition.
    pub fn is_pub(&self, d: DefId) -> bool
        requires { IsDef self.now d }
        ensures { result ≡ is_pub self.now d }
    {
        self.part(d).is_pub
    }

    /// Whether a definition is made wherever it is used.
    pub fn is_inline(&self, d: DefId) -> bool
        requires { IsDef self.now d }
        ensures { result ≡ is_inline self.now d }
    {
        self.part(d).is_inline
    }

    /// Whether a definition is named anywhere outside the body of a function, method or closure that is neither generic nor
    /// `inline`. The reference to its own type that is a closure's first parameter does not count. This rule is this project's
    /// own.
    pub fn named_outside(&self, d: DefId) -> bool
        requires { IsDef self.now d }
        ensures { result ≡ is_named_outside self.now d }
    {
        self.named.as_slice()[d.0 as usize]
    }

    /// The number of type parameters of a definition: of a trait with `Self`, and of a method with those of its trait or impl.
    pub fn type_params(&self, d: DefId) -> u32
        requires { IsDef self.now d }
        ensures { result ≡ type_params_of self.now d }
    {
        self.part(d).type_params
    }

    /// The trait, impl or Drop impl of a method, and `None` exactly for other kinds.
    pub fn parent(&self, d: DefId) -> Option<DefId>
        requires { IsDef self.now d }
        ensures { result ≡ parent_of self.now d }
    {
        self.part(d).parent
    }

    /// The number of variants of an enum. A struct or closure has one.
    pub fn variants(&self, d: DefId) -> u32
        requires { IsDef self.now d }
        ensures { result ≡ length (variants_of self.now d) }
    {
        self.part(d).fields.len() as u32
    }

    /// The types of the fields of a struct or closure, or of that variant of an enum.
    pub fn fields(&self, d: DefId, variant: u32) -> &[Ty]
        requires { variant < length (variants_of self.now d) }
        ensures { fields_of self.now d variant ≡ Some result.now }
    {
        self.part(d).fields.as_slice()[variant as usize].as_slice()
    }

    /// The trait of a trait impl, at its types.
    pub fn head(&self, d: DefId) -> &Head
        requires { IsOfKind self.now d kind.Impl }
        ensures { head_of self.now d ≡ Some result.now }
    {
        self.part(d).head.as_ref().unwrap()
    }

    /// The methods of a trait, trait impl or Drop impl. Other kinds have none.
    pub fn methods(&self, d: DefId) -> &[DefId]
        requires { IsDef self.now d }
        ensures { result.now ≡ methods_of self.now d }
    {
        self.part(d).methods.as_slice()
    }

    /// The impls of a trait, in order of definition. Other kinds have none.
    pub fn impls(&self, tr: DefId) -> &[DefId]
        requires { IsDef self.now tr }
        ensures { result.now ≡ impls_of self.now tr }
    {
        self.impls.as_slice()[tr.0 as usize].as_slice()
    }

    /// The Drop impl of a struct or enum, and `None` exactly where there is none.
    pub fn drop_impl(&self, d: DefId) -> Option<DefId>
        requires { IsDef self.now d }
        ensures { result ≡ drop_impl_of self.now d }
    {
        self.part(d).drop_impl
    }

    /// The self type of a Drop impl.
    pub fn drop_self(&self, d: DefId) -> &Ty
        requires { IsOfKind self.now d kind.DropImpl }
        ensures { drop_self_of self.now d ≡ Some result.now }
    {
        self.part(d).drop_self.as_ref().unwrap()
    }

    /// The types of the parameters of a function, method or closure, in the order of their locals. A closure's first parameter is
    /// the reference to its type. Other kinds have none.
    pub fn params(&self, d: DefId) -> &[Ty]
        requires { IsDef self.now d }
        ensures { result.now ≡ params_of self.now d }
    {
        self.part(d).params.as_slice()
    }

    /// The type of the result of a function, method or closure, or the type of a static or constant.
    pub fn result(&self, d: DefId) -> &Ty
        requires { IsOfKinds self.now d has_result }
        ensures { result_of self.now d ≡ Some result.now }
    {
        self.part(d).result.as_ref().unwrap()
    }

    /// The value of a static or constant.
    pub fn term(&self, d: DefId) -> &Term
        requires { IsOfKinds self.now d has_term }
        ensures { term_of self.now d ≡ Some result.now }
    {
        self.part(d).term.as_ref().unwrap()
    }

    /// The bounds of a definition. A bound by `Call` is not among them.
    pub fn bounds(&self, d: DefId) -> &[Head]
        requires { IsDef self.now d }
        ensures { result.now ≡ bounds_of self.now d }
    {
        self.part(d).bounds.as_slice()
    }

    /// The body of a function, method or closure, and `None` exactly for a trait's method without one, and for other kinds.
    pub fn body(&self, d: DefId) -> Option<&Body>
        requires { IsDef self.now d }
        ensures { option_copied result ≡ body_of self.now d }
    {
        self.part(d).body.as_ref()
    }
}
