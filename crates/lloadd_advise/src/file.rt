ghost use Rattle.std.specs.Prelude.{◌≤◌, length, IfOk};

use crate::failure::Failure;
use lload_names::{Body, Word};
use std::alloc::Global;
use std::io::Read;
use std::{fs, io};

/// The most octets of a configuration.
const LIMIT: usize = 1_048_576;

/// All that a file holds, which is at most what a configuration may have.
pub fn read_file(rt: &HostRuntime, conf: &Word) -> Result<Body, Failure>
    ensures { IfOk result (λ text. length text ≤ 1048576) }
{
    match read_within(rt, conf.as_str()) {
        Ok(bytes) if bytes.len() <= LIMIT => Ok(Body::from_vec(bytes)),
        Ok(_) => Err(Failure::TooLong {
            conf: copy(rt.alloc(), conf)?,
        }),
        Err(error) if error.kind() == io::ErrorKind::OutOfMemory => Err(Failure::NoMemory),
        Err(error) => Err(Failure::Read {
            conf: copy(rt.alloc(), conf)?,
            error,
        }),
    }
}

/// The first octets of a file: all, or one more than a configuration may have.
fn read_within(rt: &HostRuntime, name: &str) -> io::Result<Vec<u8>> {
    let mut bytes = Vec::new(rt.alloc());
    fs::open(rt, name)?
        .take(LIMIT as u64 + 1)
        .read_to_end(&mut bytes)?;
    Ok(bytes)
}

/// The same word again.
fn copy(alloc: Global, word: &Word) -> Result<Word, Failure> {
    Ok(Word::from_text(alloc, word.as_str())?)
}
