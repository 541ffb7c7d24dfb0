use anyhow::{Result, bail};
use lload_advice::{tell, tell_converted};
use std::alloc::Global;

/// The most octets that a configuration may have.
const LIMIT: usize = 1_048_576;

/// The name of the file that each text stands for.
const FILE: &str = "f";

/// What is told of a text, without the last line feed.
pub fn advice_on(alloc: Global, text: &[u8]) -> Result<Vec<u8>> {
    if text.len() > LIMIT {
        bail!("a text that is too long");
    }
    let Ok(told) = tell(alloc, FILE, text) else {
        bail!("no memory for advice");
    };
    let mut out = told.out.into_vec();
    if let Some(b'\n') = out.as_slice().last() {
        let _end = out.pop();
    }
    Ok(out)
}

/// A text whose faulty lines are comments, two strokes, and what is said of them.
pub fn conversion_of(alloc: Global, text: &[u8]) -> Result<Vec<u8>> {
    if text.len() > LIMIT {
        bail!("a text that is too long");
    }
    let Ok(told) = tell_converted(alloc, FILE, text) else {
        bail!("no memory for a conversion");
    };
    let mut out = told.out.into_vec();
    out.extend_from_slice(b"//")?;
    out.extend_from_slice(told.err.as_bytes())?;
    Ok(out)
}
