//! What is said of a program that is not accepted.

ghost use Rattle.std.specs.Prelude.{◌≡◌, ◌++◌, codes, decimal, IfOk};
ghost use Rattle.mm_tool.specs.Report.{Tells, line};

use crate::answer::Answer;
use itoa::Buffer;
use mm_collect::CollectFault;
use mm_plain::Program;
use mm_terms::NoMemory;
use std::alloc::Global;

/// The line of a refusal of too many items.
fn too_many(alloc: Global, items: u32, krate: &[u8]) -> Result<Vec<u8>, NoMemory>
    ensures { IfOk result (λ output. output.items ≡ line (codes "error: more than " ++ decimal items ++ codes " items in crate " ++ krate.now)) }
{
    let mut buffer = Buffer::new();
    let mut output = Vec::from_slice(alloc, b"error: more than ")?;
    output.extend_from_slice(buffer.format(items).as_bytes())?;
    output.extend_from_slice(b" items in crate ")?;
    output.extend_from_slice(krate)?;
    output.push(b'\n')?;
    Ok(output)
}

/// The line of a refusal of an instance that is too long.
fn too_long(alloc: Global, path: &[u8], length: u32) -> Result<Vec<u8>, NoMemory>
    ensures { IfOk result (λ output. output.items ≡ line (codes "error: type length " ++ decimal length ++ codes " in " ++ path.now)) }
{
    let mut buffer = Buffer::new();
    let mut output = Vec::from_slice(alloc, b"error: type length ")?;
    output.extend_from_slice(buffer.format(length).as_bytes())?;
    output.extend_from_slice(b" in ")?;
    output.extend_from_slice(path)?;
    output.push(b'\n')?;
    Ok(output)
}

/// What is said of a fault of collection.
pub fn refuse(alloc: Global, p: &Program, fault: CollectFault) -> Result<Answer, NoMemory>
    ensures { IfOk result (λ answer. Tells p.now fault answer.status answer.output.items) }
{
    match fault {
        CollectFault::TooMany(items) => Ok(Answer {
            status: 5,
            output: too_many(alloc, items, p.krate.as_slice())?,
        }),
        CollectFault::TypeLength(path, length) => Ok(Answer {
            status: 6,
            output: too_long(alloc, path.as_slice(), length)?,
        }),
        // There are no traits, so no impl is missing.
        CollectFault::NoImpl(_) | CollectFault::NoMemory => Err(NoMemory),
    }
}
