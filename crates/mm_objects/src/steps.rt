ghost use Rattle.std.specs.Prelude.{◌≡◌, map, length};
ghost use Rattle.mm_objects.specs.Given.{Gives};
ghost use Rattle.mm_objects.specs.LineReading.{if_done};
ghost use Rattle.mm_objects.specs.TextReading.{head_in, main_in, unit_in, behind_main_in, code_in, behind_def_in, block_in, within_block_in, next_in};

use crate::line_error::LineError;
use crate::lines::{end, header, instr, label};
use crate::objects::{ObjBlock, ObjInstr, ObjUnit, Objects};
use crate::pieces::{named, next, only};
use crate::progress::{OpenCode, OpenUnit, Progress};
use crate::unit_name::unit_name;
use crate::words::{is, symbol};
use mm_terms::Text;
use sqlite_items::Items;
use std::alloc::Global;

/// The line with which all begins.
#[tactic(auto, unfolding(crate::specs::TextReading::head_in))]
fn head(words: &[&[u8]]) -> Result<Progress, LineError>
    ensures { Gives result (head_in (map (λ w. w.now) words.now)) }
{
    let version = named(b"objects", words).ok_or(LineError::Unfit)?;
    if is(version, b"1") {
        return Ok(Progress::Headed);
    }
    Err(LineError::Unfit)
}

#[tactic(auto, unfolding(crate::specs::TextReading::main_in))]
fn main(alloc: Global, words: &[&[u8]]) -> Result<Progress, LineError>
    ensures { Gives result (main_in (map (λ w. w.now) words.now)) }
{
    let word = named(b"main", words).ok_or(LineError::Unfit)?;
    Ok(Progress::Main(symbol(alloc, word)?))
}

/// The line that begins a unit, behind its first word.
#[tactic(auto, unfolding(crate::specs::TextReading::unit_in))]
fn unit(
    alloc: Global,
    main: Text,
    units: Items<ObjUnit>,
    words: &[&[u8]],
) -> Result<Progress, LineError>
    ensures { Gives result (unit_in main units (map (λ w. w.now) words.now)) }
{
    let word = only(words).ok_or(LineError::Unfit)?;
    let name = unit_name(alloc, word)?;
    Ok(Progress::Unit(OpenUnit {
        main,
        units,
        name,
        defs: Items::new(alloc),
    }))
}

/// What is read, where the words end here.
fn finished(objects: Objects, words: &[&[u8]]) -> Result<Progress, LineError>
    ensures { Gives result (if_done (Progress.Done objects) (map (λ w. w.now) words.now)) }
{
    match words {
        [] => Ok(Progress::Done(objects)),
        _ => Err(LineError::Unfit),
    }
}

#[tactic(auto, unfolding(crate::specs::TextReading::behind_main_in))]
fn behind_main(
    alloc: Global,
    several: bool,
    main: Text,
    words: &[&[u8]],
) -> Result<Progress, LineError>
    ensures { Gives result (behind_main_in several main (map (λ w. w.now) words.now)) }
{
    let (key, others) = next(words).ok_or(LineError::Unfit)?;
    let units = Items::new(alloc);
    if is(key, b"unit") {
        return unit(alloc, main, units, others);
    }
    if several && is(key, b"end") {
        return finished(Objects { main, units }, others);
    }
    Err(LineError::Unfit)
}

/// The first line of a function, behind its first word.
#[tactic(auto, unfolding(crate::specs::TextReading::code_in))]
fn code(alloc: Global, begun: OpenUnit, words: &[&[u8]]) -> Result<Progress, LineError>
    ensures { Gives result (code_in begun (map (λ w. w.now) words.now)) }
{
    let header = header(alloc, words)?;
    Ok(Progress::Code(OpenCode {
        unit: begun,
        header,
        blocks: Items::new(alloc),
    }))
}

#[tactic(auto, unfolding(crate::specs::TextReading::behind_def_in))]
fn behind_def(
    alloc: Global,
    several: bool,
    begun: OpenUnit,
    words: &[&[u8]],
) -> Result<Progress, LineError>
    ensures { Gives result (behind_def_in several begun (map (λ w. w.now) words.now)) }
{
    let (key, others) = next(words).ok_or(LineError::Unfit)?;
    if is(key, b"fn") {
        return code(alloc, begun, others);
    }
    if is(key, b"end") {
        return finished(begun.close()?, others);
    }
    if several && is(key, b"unit") {
        let Objects { main, units } = begun.close()?;
        return unit(alloc, main, units, others);
    }
    Err(LineError::Unfit)
}

/// The label of the next block.
#[tactic(auto, unfolding(crate::specs::TextReading::block_in))]
fn block(alloc: Global, begun: OpenCode, words: &[&[u8]]) -> Result<Progress, LineError>
    ensures { Gives result (block_in begun (map (λ w. w.now) words.now)) }
{
    label(begun.blocks.len() as u64, words).ok_or(LineError::Unfit)?;
    Ok(Progress::Block(begun, Items::new(alloc)))
}

/// An instruction or the end of a block.
#[tactic(auto, unfolding(crate::specs::TextReading::within_block_in))]
fn within_block(
    alloc: Global,
    begun: OpenCode,
    mut instrs: Items<ObjInstr>,
    words: &[&[u8]],
) -> Result<Progress, LineError>
    ensures { Gives result (within_block_in begun instrs (map (λ w. w.now) words.now)) }
{
    if let Some(instr) = instr(begun.header.locals, words) {
        instrs.push(instr)?;
        return Ok(Progress::Block(begun, instrs));
    }
    let end = end(alloc, begun.header.locals, begun.header.blocks, words)?;
    let begun = begun.push(ObjBlock { instrs, end })?;
    Ok(begun.settle()?)
}

impl Progress {
    /// What a further line makes of what was read, by its words. Without `several` there is one unit.
    #[tactic(auto, unfolding(crate::specs::TextReading::next_in))]
    pub fn next(self, alloc: Global, several: bool, words: &[&[u8]]) -> Result<Progress, LineError>
        ensures { Gives result (next_in several self (map (λ w. w.now) words.now)) }
    {
        match self {
            Progress::Start => head(words),
            Progress::Headed => main(alloc, words),
            Progress::Main(main) => behind_main(alloc, several, main, words),
            Progress::Unit(begun) => behind_def(alloc, several, begun, words),
            Progress::Code(begun) => block(alloc, begun, words),
            Progress::Block(begun, instrs) => within_block(alloc, begun, instrs, words),
            Progress::Done(_) => Err(LineError::Unfit),
        }
    }
}
