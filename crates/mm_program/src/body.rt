ghost use Rattle.std.specs.Prelude.{◌≡◌, ◌+◌, ◌<◌, drop, length, Some, slice_get};
ghost use Rattle.mm_program.specs.Code.{Code, IsBody, statements_of, end_of};

use crate::block::{Block, End};
use crate::statement::Statement;
use mm_terms::{Ty, Tys};
use sqlite_items::Items;
use std::marker::Model;

/// The body of a function, a method or a closure. Contracts see it as the number of its parameters, the types of its locals and
/// its blocks. A run of it begins at block 0. This is rustc's MIR body (the rustc-dev-guide, "The MIR").
///
/// There is a local for the result, which is local 0, and then one for each parameter; there is a block; and each local and each
/// label that is named is one of the body's.
#[derive(Drop)]
pub struct Body {
    params: u32,
    locals: Tys,
    blocks: Items<Block>,
}

impl Model for Body {
    ghost use Rattle.std.specs.Coded.{codes};
    ghost use Rattle.mm_terms.specs.contracts.tree.Tree as tree_row;
    ghost use Rattle.mm_program.specs.contracts.block.Block as block_row;
    ghost use Rattle.mm_program.specs.Code.{Code, IsBody};

    ghost Value = { Code };

    ghost coded = { Prim.hlevel (codes, tree_row.the_row.coded, block_row.the_row.coded) };

    ghost view = { λ b. record { params = b.params; locals = b.locals; blocks = b.blocks } };

    ghost invariant = { λ b. IsBody (record { params = b.params; locals = b.locals; blocks = b.blocks }) };
}

impl Body {
    /// The body with so many parameters, locals of these types, and these blocks. The locals are the result, the parameters, and
    /// then the others.
    pub fn make(params: u32, locals: Tys, blocks: Vec<Block>) -> Body
        requires { IsBody (record { params = params; locals = locals; blocks = blocks.items }) }
        ensures { result ≡ record { params = params; locals = locals; blocks = blocks.items } }
    {
        let blocks = Items::from_vec(blocks);
        Body {
            params,
            locals,
            blocks,
        }
    }

    /// The number of parameters. They are the locals from 1 on.
    pub fn params(&self) -> u32
        ensures { result ≡ self.now.params }
    {
        self.params
    }

    /// The number of locals.
    pub fn locals(&self) -> u32
        ensures { result ≡ length self.now.locals }
    {
        self.locals.len() as u32
    }

    /// The type of a local.
    pub fn local(&self, i: u32) -> &Ty
        requires { i < length self.now.locals }
        ensures { slice_get self.now.locals i ≡ Some result.now }
    {
        &self.locals.as_slice()[i as usize]
    }

    /// The number of blocks.
    pub fn blocks(&self) -> u32
        ensures count { result ≡ length self.now.blocks }
        ensures valid { IsBody self.now }
    {
        self.blocks.len() as u32
    }

    /// The statements of a block, in order.
    pub fn statements(&self, b: u32) -> &[Statement]
        requires { b < length self.now.blocks }
        ensures { statements_of self.now b ≡ Some result.now }
    {
        self.blocks.as_slice()[b as usize].statements.as_slice()
    }

    /// The end of a block.
    pub fn end(&self, b: u32) -> &End
        requires { b < length self.now.blocks }
        ensures { end_of self.now b ≡ Some result.now }
    {
        &self.blocks.as_slice()[b as usize].end
    }

    /// The types of the locals after the parameters.
    pub(crate) fn inner_locals(&self) -> &[Ty]
        ensures { result.now ≡ drop (self.now.params + 1) self.now.locals }
    {
        &self.locals.as_slice()[self.params as usize + 1..]
    }

    pub(crate) fn all_blocks(&self) -> &[Block]
        ensures { result.now ≡ self.now.blocks }
    {
        self.blocks.as_slice()
    }
}
