//! lloadd: does what its words ask for, and ends with the number of the status.
//!
//! Here are only the real objects that the work is done over: standard input and output, and files. They tell nothing
//! of what they hold, and count their failures.
#![tactic(auto)]

mod files;
mod streams;

use crate::files::DiskFiles;
use crate::streams::{Input, Output};
use lload_names::Word;
use lloadd_run::{Status, run};
use std::process::ExitCode;
use std::{env, io};

fn main(rt: HostRuntime) -> ExitCode {
    let status = match words(&rt) {
        Ok(words) => run(
            rt.alloc(),
            words.as_slice(),
            &mut DiskFiles::new(&rt),
            &mut Input::new(rt.reader()),
            &mut Output::new(io::writer(&rt)),
        ),
        Err(status) => status,
    };
    if status != Status::Done {
        // Where standard error can't be written either, the number of the status says it.
        let _ = eprintln!(rt; "lloadd: {status}");
    }
    ExitCode::from(status.number())
}

/// The words of the call, behind the program's name. One that isn't text is a word that isn't taken.
fn words(rt: &HostRuntime) -> Result<Vec<Word>, Status> {
    let mut words = Vec::new(rt.alloc());
    for text in env::args(rt).map_err(|_| Status::Usage)?.skip(1) {
        let word = Word::from_text(rt.alloc(), text.as_str()).map_err(|_| Status::NoMemory)?;
        words.push(word).map_err(|_| Status::NoMemory)?;
    }
    Ok(words)
}
