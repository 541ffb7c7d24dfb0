//! lloadd-advise: says what is wrong with a configuration of lloadd and what to do, or writes it as one that lloadd takes.
//!
//! Here are only the words of the call, the file, standard output and standard error; what is told of the file's text is
//! `lload_advice`'s.
#![tactic(auto)]

mod failure;
mod file;
mod job;

use crate::failure::Failure;
use crate::file::read_file;
use crate::job::{Job, read_words};
use lload_advice::{Told, tell, tell_converted};
use lload_names::Word;
use std::io::Write;
use std::process::ExitCode;
use std::{env, io};

fn main(rt: HostRuntime) -> ExitCode {
    match run(&rt) {
        Ok(true) => ExitCode::from(0),
        Ok(false) => ExitCode::from(1),
        Err(failure) => {
            // Where standard error can't be written either, the number of the status says it.
            let _ = eprintln!(rt; "lloadd-advise: {failure}");
            ExitCode::from(failure.number())
        }
    }
}

/// Does what the words ask for, and says whether the configuration is good.
fn run(rt: &HostRuntime) -> Result<bool, Failure> {
    let words = words(rt)?;
    let Some(job) = read_words(words.as_slice()) else {
        return Err(Failure::Usage);
    };
    let told = told(rt, job)?;
    write(rt, &told)?;
    Ok(told.is_good)
}

/// What there is to tell of the file that the words name.
fn told(rt: &HostRuntime, job: Job<'_>) -> Result<Told, Failure> {
    let alloc = rt.alloc();
    let told = match job {
        Job::Advise { conf } => tell(alloc, conf.as_str(), read_file(rt, conf)?.as_slice()),
        Job::Convert { conf } => {
            tell_converted(alloc, conf.as_str(), read_file(rt, conf)?.as_slice())
        }
    };
    Ok(told?)
}

/// Writes what is told: first what is for standard error, so that it is read even where standard output fails.
fn write(rt: &HostRuntime, told: &Told) -> Result<(), Failure> {
    let err = told.err.as_str();
    eprint!(rt; "{err}").map_err(Failure::Write)?;
    io::writer(rt)
        .write_all(told.out.as_slice())
        .map_err(Failure::Write)
}

/// The words of the call, behind the program's name. One that isn't text is a word that isn't taken.
fn words(rt: &HostRuntime) -> Result<Vec<Word>, Failure> {
    let mut words = Vec::new(rt.alloc());
    for text in env::args(rt).map_err(|_| Failure::Usage)?.skip(1) {
        let word = Word::from_text(rt.alloc(), text.as_str())?;
        words.push(word).map_err(|_| Failure::NoMemory)?;
    }
    Ok(words)
}
