//! Objects that are linked and run.

ghost use Rattle.std.specs.Prelude.{◌≡◌, ◌++◌, codes, IfOk};
ghost use Rattle.mm_tool.specs.Report.{IsRun, IsLinkAnswer, TellsUnlinked, line};

use crate::answer::Answer;
use crate::observation::tell;
use mm_link::{LinkFault, link};
use mm_objects::{ObjFault, Objects, read_objects};
use mm_objrun::run_image;
use mm_terms::NoMemory;
use std::alloc::Global;

/// The line of a symbol that is defined twice.
fn double(alloc: Global, symbol: &[u8], first: &[u8], second: &[u8]) -> Result<Vec<u8>, NoMemory>
    ensures { IfOk result (λ output. output.items ≡ line (codes "error: symbol " ++ symbol.now ++ codes " defined twice, in " ++ first.now ++ codes " and " ++ second.now)) }
{
    let mut output = Vec::from_slice(alloc, b"error: symbol ")?;
    output.extend_from_slice(symbol)?;
    output.extend_from_slice(b" defined twice, in ")?;
    output.extend_from_slice(first)?;
    output.extend_from_slice(b" and ")?;
    output.extend_from_slice(second)?;
    output.push(b'\n')?;
    Ok(output)
}

/// The line of a reference that names nothing.
fn undefined(alloc: Global, unit: &[u8], symbol: &[u8]) -> Result<Vec<u8>, NoMemory>
    ensures { IfOk result (λ output. output.items ≡ line (codes "error: undefined symbol " ++ symbol.now ++ codes " in unit " ++ unit.now)) }
{
    let mut output = Vec::from_slice(alloc, b"error: undefined symbol ")?;
    output.extend_from_slice(symbol)?;
    output.extend_from_slice(b" in unit ")?;
    output.extend_from_slice(unit)?;
    output.push(b'\n')?;
    Ok(output)
}

/// What is written of a fault of linking.
fn complaint(alloc: Global, fault: LinkFault) -> Result<Vec<u8>, NoMemory>
    ensures { IfOk result (λ output. TellsUnlinked fault output.items) }
{
    match fault {
        LinkFault::Double(symbol, first, second) => double(
            alloc,
            symbol.as_slice(),
            first.as_slice(),
            second.as_slice(),
        ),
        LinkFault::Undefined(unit, symbol) => {
            undefined(alloc, unit.as_slice(), symbol.as_slice())
        }
        LinkFault::NoMain => Ok(Vec::from_slice(alloc, b"error: no main\n")?),
        LinkFault::NoMemory => Err(NoMemory),
    }
}

/// What is said of a fault of linking.
fn refuse(alloc: Global, fault: LinkFault) -> Result<Answer, NoMemory>
    ensures status { IfOk result (λ answer. answer.status ≡ 9) }
    ensures output { IfOk result (λ answer. TellsUnlinked fault answer.output.items) }
{
    Ok(Answer {
        status: 9,
        output: complaint(alloc, fault)?,
    })
}

/// Links objects and runs them, for so many steps at most.
fn run(alloc: Global, objects: Objects, steps: u32) -> Result<Answer, NoMemory>
    ensures { IfOk result (λ answer. IsRun objects steps answer.status answer.output.items) }
{
    match link(alloc, objects) {
        Ok(image) => tell(alloc, &run_image(alloc, &image, steps)?),
        Err(fault) => refuse(alloc, fault),
    }
}

/// The answer to the text of objects.
pub fn answer_link(alloc: Global, text: &[u8], steps: u32) -> Result<Answer, NoMemory>
    ensures { IfOk result (λ answer. IsLinkAnswer text.now steps answer.status answer.output.items) }
{
    match read_objects(alloc, text) {
        Ok(objects) => run(alloc, objects, steps),
        Err(ObjFault::BadObjects(_)) => Ok(Answer {
            status: 8,
            output: Vec::from_slice(alloc, b"error: bad objects\n")?,
        }),
        Err(ObjFault::NoMemory) => Err(NoMemory),
    }
}
