//! The program `mono`: hands its words and the standard streams to the top call, and ends with its status.
#![tactic(auto)]

use mm_outside::{StdSink, StdSource};
use mm_tool::tool_one;
use std::alloc::{AllocError, Global};
use std::io::ErrorKind;
use std::process::ExitCode;
use std::{env, io};

/// The words were not given by the system.
const NO_WORDS: u8 = 24;

/// Out of memory.
const NO_MEMORY: u8 = 22;

fn views(alloc: Global, words: &[String]) -> Result<Vec<&str>, AllocError> {
    let mut views = Vec::new(alloc);
    for word in words {
        views.push(word.as_str())?;
    }
    Ok(views)
}

/// The words after the program's name.
fn words(rt: &HostRuntime) -> io::Result<Vec<String>> {
    let mut words = Vec::new(rt.alloc());
    for word in env::args(rt)?.skip(1) {
        words.push(word)?;
    }
    Ok(words)
}

fn run(rt: &HostRuntime) -> io::Result<u8> {
    let words = words(rt)?;
    let views = views(rt.alloc(), &words)?;
    let mut source = StdSource::new(rt.stdin());
    let mut sink = StdSink::new(rt.stdout());
    Ok(tool_one(rt.alloc(), &views, &mut source, &mut sink))
}

fn main(rt: HostRuntime) -> ExitCode {
    match run(&rt) {
        Ok(status) => ExitCode::from(status),
        Err(error) if error.kind() == ErrorKind::OutOfMemory => ExitCode::from(NO_MEMORY),
        Err(_) => ExitCode::from(NO_WORDS),
    }
}
