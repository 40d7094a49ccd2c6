use crate::cases::{Case, behind, device_of, line_of, part_with, read_case, words_of};
use crate::reading::{printing_of, reading_of};
use crate::texts::pieces_of;
use anyhow::Result;
use mm_outside::{BytesSink, BytesSource};
use mm_tool::tool_one;
use std::alloc::Global;

/// How many cases were run, and how many of them differ.
#[derive(Clone, Copy, Default)]
pub(crate) struct Counts {
    pub(crate) run: u64,
    pub(crate) differ: u64,
}

/// What the top call answers to words and a text, with the devices of a case.
fn answer(alloc: Global, words: &[String], text: &[u8], block: &str) -> Result<(u8, Vec<u8>)> {
    let from = device_of(alloc, block, "source:")?;
    let to = device_of(alloc, block, "sink:")?;
    let mut views = Vec::new(alloc);
    for word in words {
        views.push(word.as_str())?;
    }
    let mut source = BytesSource::new(text.to_vec(alloc)?, from.piece.max(1), from.fails);
    let mut sink = BytesSink::new(alloc, to.piece.max(1), to.fails, to.room)?;
    let status = tool_one(alloc, &views, &mut source, &mut sink);
    Ok((status, sink.written().to_vec(alloc)?))
}

/// What is answered to words and a text: to the word `parse` how the text is read, to `print` its canonical text, and else
/// what the program answers.
fn answered(alloc: Global, words: &[String], text: &[u8], block: &str) -> Result<(u8, Vec<u8>)> {
    match words {
        [word] if word.as_str() == "parse" => reading_of(alloc, text),
        [word] if word.as_str() == "print" => printing_of(alloc, text),
        _ => answer(alloc, words, text, block),
    }
}

/// Runs a case with these words on this text, and prints an answer that is other than the case says.
fn run_one(
    rt: &HostRuntime,
    block: &str,
    case: &Case,
    words: &[String],
    text: &[u8],
    counts: &mut Counts,
) -> Result<()> {
    let (status, output) = answered(rt.alloc(), words, text, block)?;
    counts.run = counts.run.saturating_add(1);
    if status != case.status || output != case.output {
        counts.differ = counts.differ.saturating_add(1);
        let name = block.lines().next().unwrap_or("");
        let wanted = String::from_utf8_lossy(rt.alloc(), &case.output)?;
        let found = String::from_utf8_lossy(rt.alloc(), &output)?;
        println!(rt; "{name}: {words:?}, {} bytes", text.len())?;
        println!(rt; "    wanted {} {wanted:?}", case.status)?;
        println!(rt; "    found  {status} {found:?}")?;
    }
    Ok(())
}

/// Runs a case with these words on its text, or on proper prefixes of it: all of them, or those that end with a line.
fn run_cut(
    rt: &HostRuntime,
    block: &str,
    case: &Case,
    words: &[String],
    counts: &mut Counts,
) -> Result<()> {
    let Some(cut) = line_of(block, "cut:") else {
        return run_one(rt, block, case, words, &case.text, counts);
    };
    for end in 0..case.text.len() {
        let prefix = &case.text[..end];
        if cut == "bytes" || prefix.ends_with(b"\n") {
            run_one(rt, block, case, words, prefix, counts)?;
        }
    }
    Ok(())
}

/// Runs a case with the words of each of its lines of words.
fn run_case(rt: &HostRuntime, head: &str, block: &str, counts: &mut Counts) -> Result<()> {
    let pieces = pieces_of(rt.alloc(), head)?;
    let case = read_case(rt.alloc(), &pieces, head, block)?;
    for line in part_with(head, block, "$").lines() {
        if let Some(words) = behind(line, "$") {
            let words = words_of(rt.alloc(), &pieces, words)?;
            run_cut(rt, block, &case, &words, counts)?;
        }
    }
    Ok(())
}

/// Runs the cases of a file, which begins with a head. Each case begins with a line `# NAME`.
pub(crate) fn run_file(rt: &HostRuntime, file: &str, counts: &mut Counts) -> Result<()> {
    let mut parts = file.split("\n# ");
    let head = parts.next().unwrap_or("");
    for block in parts {
        run_case(rt, head, block, counts)?;
    }
    Ok(())
}
