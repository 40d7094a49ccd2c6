//! Runs the cases in the files that its words name through the top call of the program, or through the reader and the printer
//! of texts, and prints each that differs.
#![tactic(auto)]

mod cases;
mod reading;
mod run;
mod texts;

use anyhow::Result;
use run::{Counts, run_file};
use std::{env, fs};

fn main(rt: HostRuntime) -> Result<()> {
    let mut counts = Counts::default();
    for name in env::args(&rt)?.skip(1) {
        let file = fs::read_to_string(&rt, name.as_str())?;
        run_file(&rt, file.as_str(), &mut counts)?;
    }
    println!(rt; "{} cases, {} differ", counts.run, counts.differ)?;
    Ok(())
}
