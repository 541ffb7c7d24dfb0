use lload_names::{Body, Listed, NoMemory, Word};
use lload_outside::{FileReader, FileTable, MemSink, MemSource, NamedFile, QuietFiles};
use lloadd_run::{Status, run};
use std::alloc::Global;

/// A run: its script, which calls of the source and of the sink fail, and what came of it.
#[derive(Drop)]
pub struct Ran {
    pub status: Status,
    pub written: String,
}

/// Runs the words, which one space parts, over files and a script; byte k of `reads` or `writes` isn't 0 where call k of
/// the script or of the sink fails.
pub fn run_over<F: FileReader>(
    alloc: Global,
    words: &str,
    files: &mut F,
    script: Body,
    reads: &[u8],
    writes: &[u8],
) -> Result<Ran, NoMemory> {
    let mut list = Vec::new(alloc);
    for word in words.split(' ') {
        list.push(Word::from_text(alloc, word)?)?;
    }
    let mut source = MemSource::new(script, Body::from_slice(alloc, reads)?)?;
    let mut sink = MemSink::new(alloc, Body::from_slice(alloc, writes)?)?;
    let status = run(alloc, list.as_slice(), files, &mut source, &mut sink);
    let written = String::from_utf8_lossy(alloc, sink.written())?;
    Ok(Ran { status, written })
}

/// Runs the words over a script, where all files are empty.
pub fn run_words(
    alloc: Global,
    words: &str,
    script: Body,
    reads: &[u8],
    writes: &[u8],
) -> Result<Ran, NoMemory> {
    let mut files = QuietFiles::new(alloc, Listed::new(alloc))?;
    run_over(alloc, words, &mut files, script, reads, writes)
}

/// Checks a configuration that is in a file, where nothing fails.
pub fn check(alloc: Global, text: Body) -> Result<Ran, NoMemory> {
    let mut table = FileTable::new(alloc);
    table.push(NamedFile {
        name: Word::from_text(alloc, "lloadd.conf")?,
        content: text,
    })?;
    let mut files = QuietFiles::new(alloc, table)?;
    let script = Body::new(alloc);
    run_over(alloc, "check lloadd.conf", &mut files, script, &[], &[])
}

/// Replays a script on the configuration `plain`, where nothing fails.
pub fn replay(alloc: Global, script: &str) -> Result<Ran, NoMemory> {
    run_words(
        alloc,
        "replay plain",
        Body::from_slice(alloc, script.as_bytes())?,
        &[],
        &[],
    )
}
