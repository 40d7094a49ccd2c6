//! What is seen of a run, as it is reported.

ghost use Rattle.std.specs.Prelude.{◌≡◌, [], ◌∷◌, ◌++◌, flat_map, decimal, IfOk, OnOk};
ghost use Rattle.mm_tool.specs.Observed.{trap_text, ended_text, obs_text, obs_status};

use crate::answer::Answer;
use itoa::Buffer;
use mm_machines::{Ended, Obs, Trap};
use mm_terms::NoMemory;
use std::alloc::Global;

fn trap_word(trap: Trap) -> &'static [u8]
    ensures { result.now ≡ trap_text trap }
{
    match trap {
        Trap::Overflow => b"Overflow",
        Trap::DivZero => b"DivZero",
        Trap::Uninit => b"Uninit",
        Trap::Dangling => b"Dangling",
        Trap::WrongKind => b"WrongKind",
        Trap::WrongVariant => b"WrongVariant",
        Trap::WrongArity => b"WrongArity",
        Trap::Unreachable => b"Unreachable",
        Trap::TooBig => b"TooBig",
    }
}

/// Writes how a run stands.
fn write_ended(ended: Ended, out: &mut Vec<u8>) -> Result<(), NoMemory>
    ensures { OnOk result (out.new.items ≡ out.old.items ++ ended_text ended) }
{
    match ended {
        Ended::Returned => out.extend_from_slice(b"returned"),
        Ended::Trap(trap) => {
            out.extend_from_slice(b"trap ")?;
            out.extend_from_slice(trap_word(trap))
        }
        Ended::Running => out.extend_from_slice(b"still running"),
    }
}

fn write_number_line(n: u64, out: &mut Vec<u8>) -> Result<(), NoMemory>
    ensures { OnOk result (out.new.items ≡ out.old.items ++ decimal n ++ 10 ∷ []) }
{
    let mut buffer = Buffer::new();
    out.extend_from_slice(buffer.format(n).as_bytes())?;
    out.push(b'\n')?;
    Ok(())
}

fn write_numbers(numbers: &[u64], out: &mut Vec<u8>) -> Result<(), NoMemory>
    ensures { OnOk result (out.new.items ≡ out.old.items ++ flat_map (λ n. decimal n ++ 10 ∷ []) numbers.now) }
{
    for n in numbers {
        write_number_line(*n, out)?;
    }
    Ok(())
}

fn status(ended: Ended) -> u8
    ensures { result ≡ obs_status ended }
{
    match ended {
        Ended::Returned => 0,
        Ended::Trap(_) => 10,
        Ended::Running => 11,
    }
}

/// The answer that tells what is seen.
pub fn tell(alloc: Global, seen: &Obs) -> Result<Answer, NoMemory>
    ensures status { IfOk result (λ answer. answer.status ≡ obs_status seen.now.ended) }
    ensures output { IfOk result (λ answer. answer.output.items ≡ obs_text seen.now) }
{
    let mut output = Vec::new(alloc);
    write_numbers(seen.printed.as_slice(), &mut output)?;
    write_ended(seen.ended, &mut output)?;
    output.push(b'\n')?;
    Ok(Answer {
        status: status(seen.ended),
        output,
    })
}
