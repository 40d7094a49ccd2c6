ghost use Rattle.std.specs.Prelude.{◌≡◌, ℕ, List, ◌≤◌, length, IfOk};
ghost use Rattle.mm_plain.specs.declared.program.Program.{Program};
ghost use Rattle.mm_emit.specs.Complete.{IsComplete};
ghost use Rattle.mm_tool.specs.Report.{Means, IsMeant, IsObjectsOf, Shows, IsVerdict, IsAnswer};

use crate::refusal::refuse;
use crate::text_refusal::TextRefusal;
use mm_collect::collect;
use mm_emit::emit_one;
use mm_lex::lex;
use mm_load_plain::load;
use mm_objects::write_objects;
use mm_parse::parse;
use mm_plain::{Opts, Program};
use mm_symbols::list_items;
use mm_terms::{Item, NoMemory};
use std::alloc::Global;

/// What is written of the items of an accepted program.
#[derive(Clone, Copy)]
pub enum Product {
    /// A line for each item.
    Listing,
    /// The text of what the items are compiled to.
    Objects,
}

/// A status, and the bytes that are to be written.
#[derive(Drop)]
pub struct Answer {
    pub status: u8,
    pub output: Vec<u8>,
}

/// The program that a text means.
///
/// # Errors
///
/// `BadText` exactly where it means none.
pub fn read_program(alloc: Global, text: &[u8]) -> Result<Program, TextRefusal>
    requires { length text.now ≤ 4194304 }
    ensures program { IfOk result (Means text.now) }
    ensures bad { result ≡ Err TextRefusal.BadText → (p : Program) → Means text.now p → ⊥ }
{
    let tokens = lex(alloc, text)?;
    let tree = parse(alloc, text, &tokens)?;
    Ok(load(alloc, &tree)?)
}

/// A text means one program.
pub fn one_meaning()
    ensures { (text : List ℕ) (p q : Program) → Means text p → Means text q → p ≡ q }
{}

/// The text of objects of the items.
#[tactic(auto, using(crate::proofs::Building::objects_built))]
fn build(alloc: Global, p: &Program, items: &[Item]) -> Result<Vec<u8>, NoMemory>
    requires { IsComplete p.now items.now }
    ensures { IfOk result (λ output. IsObjectsOf p.now items.now output.items) }
{
    let objects = emit_one(alloc, p, items)?;
    write_objects(alloc, &objects)
}

/// What is asked for, of the items.
fn show(alloc: Global, product: Product, p: &Program, items: &[Item]) -> Result<Vec<u8>, NoMemory>
    requires { IsComplete p.now items.now }
    ensures { IfOk result (λ output. Shows product p.now items.now output.items) }
{
    match product {
        Product::Listing => list_items(alloc, p, items),
        Product::Objects => build(alloc, p, items),
    }
}

/// What is asked for, of the items of an accepted program.
fn accept(alloc: Global, product: Product, p: &Program, items: &[Item]) -> Result<Answer, NoMemory>
    requires { IsComplete p.now items.now }
    ensures status { IfOk result (λ answer. answer.status ≡ 0) }
    ensures shown { IfOk result (λ answer. Shows product p.now items.now answer.output.items) }
{
    Ok(Answer {
        status: 0,
        output: show(alloc, product, p, items)?,
    })
}

/// The verdict on a program: what is asked for, of its items, or that there are too many, or that one is too long.
fn judge(alloc: Global, product: Product, p: &Program, opts: &Opts) -> Result<Answer, NoMemory>
    requires meant { IsMeant p.now }
    requires short { opts.now.length ≤ 2048 }
    ensures { IfOk result (λ answer. IsVerdict product p.now opts.now answer.status answer.output.items) }
{
    match collect(alloc, p, opts) {
        Ok(items) => accept(alloc, product, p, items.as_slice()),
        Err(fault) => refuse(alloc, p, fault),
    }
}

/// The answer to a text of which a product is asked, under these options. The text has at most [`TEXT_LIMIT`](crate::TEXT_LIMIT)
/// bytes, and items are to be no longer than 2,048, as types of symbols nest no deeper than 4,096.
#[tactic(auto, using(crate::proofs::Building::meant))]
pub fn answer_to(
    alloc: Global,
    product: Product,
    text: &[u8],
    opts: &Opts,
) -> Result<Answer, NoMemory>
    requires within { length text.now ≤ 4194304 }
    requires short { opts.now.length ≤ 2048 }
    ensures { IfOk result (λ answer. IsAnswer product text.now opts.now answer.status answer.output.items) }
{
    match read_program(alloc, text) {
        Ok(p) => judge(alloc, product, &p, opts),
        Err(TextRefusal::BadText) => Ok(Answer {
            status: 3,
            output: Vec::from_slice(alloc, b"error: bad text\n")?,
        }),
        Err(TextRefusal::NoMemory) => Err(NoMemory),
    }
}
