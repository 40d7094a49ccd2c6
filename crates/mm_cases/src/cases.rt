use crate::texts::{Piece, push_text};
use anyhow::{Context, Result};
use std::alloc::Global;

/// A text, and what the program answers to it.
#[derive(Drop)]
pub(crate) struct Case {
    pub(crate) text: Vec<u8>,
    pub(crate) status: u8,
    pub(crate) output: Vec<u8>,
}

/// How a source or a sink in memory behaves.
#[derive(Drop)]
pub(crate) struct Device {
    /// How many bytes a call moves at most.
    pub(crate) piece: usize,
    /// The numbers of the calls that fail, from 0.
    pub(crate) fails: Vec<u32>,
    /// How many bytes a sink takes.
    pub(crate) room: usize,
}

/// What a line says behind its mark.
pub(crate) fn behind<'a>(line: &'a str, mark: &str) -> Option<&'a str> {
    let rest = line.strip_prefix(mark)?;
    Some(rest.strip_prefix(" ").unwrap_or(rest))
}

/// What the first line with this mark says.
pub(crate) fn line_of<'a>(part: &'a str, mark: &str) -> Option<&'a str> {
    for line in part.lines() {
        if let Some(text) = behind(line, mark) {
            return Some(text);
        }
    }
    None
}

/// The part whose lines with this mark count: the case where it has some, and else the head of its file.
pub(crate) fn part_with<'a>(head: &'a str, case: &'a str, mark: &str) -> &'a str {
    match line_of(case, mark) {
        Some(_) => case,
        None => head,
    }
}

/// What the lines with this mark say. Each but one that ends with `\c` is ended by a line feed.
fn lines_of(alloc: Global, pieces: &[Piece], part: &str, mark: &str) -> Result<Vec<u8>> {
    let mut bytes = Vec::new(alloc);
    for line in part.lines() {
        if let Some(text) = behind(line, mark) {
            if let Some(open) = text.strip_suffix("\\c") {
                push_text(pieces, open, &mut bytes)?;
            } else {
                push_text(pieces, text, &mut bytes)?;
                bytes.push(b'\n')?;
            }
        }
    }
    Ok(bytes)
}

/// The words of a line. Blanks stand between them, and `""` is the empty word.
pub(crate) fn words_of(alloc: Global, pieces: &[Piece], line: &str) -> Result<Vec<String>> {
    let mut words = Vec::new(alloc);
    for word in line.split_whitespace() {
        let mut bytes = Vec::new(alloc);
        if word != "\"\"" {
            push_text(pieces, word, &mut bytes)?;
        }
        words.push(String::from_utf8(bytes).context("a word that is not UTF-8")?)?;
    }
    Ok(words)
}

/// Reads a case. What it does not say itself, the head of the file says.
pub(crate) fn read_case(alloc: Global, pieces: &[Piece], head: &str, case: &str) -> Result<Case> {
    let status = line_of(part_with(head, case, "="), "=").context("no status")?;
    Ok(Case {
        text: lines_of(alloc, pieces, case, "<")?,
        status: status.parse().context("no status")?,
        output: lines_of(alloc, pieces, part_with(head, case, ">"), ">")?,
    })
}

/// The number behind a word of a line.
fn number_of(line: &str, name: &str) -> Option<u32> {
    let mut words = line.split_whitespace();
    for _ in 0..line.len() {
        if words.next()? == name {
            return words.next()?.parse().ok();
        }
    }
    None
}

/// The device that a line of the case describes: `piece NUMBER`, `fails NUMBER` and `room NUMBER`, each where it matters.
pub(crate) fn device_of(alloc: Global, case: &str, mark: &str) -> Result<Device> {
    let line = line_of(case, mark).unwrap_or("");
    let mut fails = Vec::new(alloc);
    if let Some(call) = number_of(line, "fails") {
        fails.push(call)?;
    }
    Ok(Device {
        piece: number_of(line, "piece").map_or(4096, |piece| piece as usize),
        fails,
        room: number_of(line, "room").map_or(65_536, |room| room as usize),
    })
}
