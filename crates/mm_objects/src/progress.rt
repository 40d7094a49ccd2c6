ghost use Rattle.std.specs.Prelude.{◌≡◌, IfOk};
ghost use Rattle.mm_objects.specs.TextReading.{objects_with, with_def, with_block, settled};

use crate::objects::{Linkage, ObjBlock, ObjDef, ObjInstr, ObjUnit, Objects};
use mm_terms::{NoMemory, Text};
use sqlite_items::Items;

/// The first line of a function.
#[derive(Drop)]
pub struct Header {
    pub symbol: Text,
    pub link: Linkage,
    pub params: u32,
    pub locals: u32,
    /// How many blocks there will be.
    pub blocks: u64,
}

/// A unit of which more definitions may come.
#[derive(Drop)]
pub struct OpenUnit {
    /// The symbol of the main function.
    pub main: Text,
    /// The units before it.
    pub units: Items<ObjUnit>,
    pub name: Text,
    /// The definitions that are whole.
    pub defs: Items<ObjDef>,
}

/// A function of which more blocks come.
#[derive(Drop)]
pub struct OpenCode {
    pub unit: OpenUnit,
    pub header: Header,
    /// The blocks that are whole.
    pub blocks: Items<ObjBlock>,
}

/// What the lines of an object text have reported so far.
#[derive(Drop)]
pub enum Progress {
    /// Nothing: no line was read.
    Start,
    /// That it is object text.
    Headed,
    /// The symbol of the main function.
    Main(Text),
    /// A unit, and the next line is behind a whole definition or the unit's name.
    Unit(OpenUnit),
    /// A function, and the next line labels a block.
    Code(OpenCode),
    /// A block of a function, up to some instruction.
    Block(OpenCode, Items<ObjInstr>),
    /// All of it.
    Done(Objects),
}

impl OpenUnit {
    /// The objects, where no unit comes behind this one.
    pub fn close(self) -> Result<Objects, NoMemory>
        ensures { IfOk result (λ o. o ≡ objects_with self) }
    {
        let OpenUnit {
            main,
            mut units,
            name,
            defs,
        } = self;
        units.push(ObjUnit { name, defs })?;
        Ok(Objects { main, units })
    }

    pub fn push(self, def: ObjDef) -> Result<OpenUnit, NoMemory>
        ensures { IfOk result (λ u. u ≡ with_def self def) }
    {
        let OpenUnit {
            main,
            units,
            name,
            mut defs,
        } = self;
        defs.push(def)?;
        Ok(OpenUnit {
            main,
            units,
            name,
            defs,
        })
    }
}

impl OpenCode {
    pub fn push(self, block: ObjBlock) -> Result<OpenCode, NoMemory>
        ensures { IfOk result (λ c. c ≡ with_block self block) }
    {
        let OpenCode {
            unit,
            header,
            mut blocks,
        } = self;
        blocks.push(block)?;
        Ok(OpenCode {
            unit,
            header,
            blocks,
        })
    }

    /// The function is whole where it has all its blocks.
    #[tactic(auto, unfolding(crate::specs::TextReading::settled))]
    pub fn settle(self) -> Result<Progress, NoMemory>
        ensures { IfOk result (λ next. next ≡ settled self) }
    {
        if self.blocks.len() as u64 != self.header.blocks {
            return Ok(Progress::Code(self));
        }
        let OpenCode {
            unit,
            header,
            blocks,
        } = self;
        let Header {
            symbol,
            link,
            params,
            locals,
            ..
        } = header;
        let def = ObjDef::Code {
            symbol,
            link,
            params,
            locals,
            blocks,
        };
        Ok(Progress::Unit(unit.push(def)?))
    }
}
