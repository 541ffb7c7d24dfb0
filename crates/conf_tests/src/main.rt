//! A table of configuration texts and what they come to, which stands in the file `stdin`: each text is read, advised on or
//! converted, and a row whose answer isn't that of the table is printed. The last line counts the rows, and those that
//! differ.
#![tactic(auto)]

mod advised;
mod answer;
mod row;

use crate::advised::{advice_on, conversion_of};
use crate::answer::answer_to;
use crate::row::decoded;
use anyhow::{Context, Result};
use std::alloc::Global;
use std::io::{BufRead, BufReader};

/// What a row's text comes to, where that isn't the row's answer.
fn difference(alloc: Global, row: &str) -> Result<Option<String>> {
    let (answer, text) = row.split_once('|').context("a row without a bar")?;
    let answer = answer.trim_end_matches(' ');
    let text = decoded(alloc, text)?;
    let (wanted, given) = if let Some(advice) = answer.strip_prefix("advice ") {
        (advice, advice_on(alloc, text.as_slice())?)
    } else if let Some(conversion) = answer.strip_prefix("convert ") {
        (conversion, conversion_of(alloc, text.as_slice())?)
    } else {
        (answer, answer_to(alloc, text.as_slice())?.into_bytes())
    };
    if given.as_slice() == decoded(alloc, wanted)?.as_slice() {
        return Ok(None);
    }
    Ok(Some(String::from_utf8_lossy(alloc, given.as_slice())?))
}

fn main(rt: HostRuntime) -> Result<()> {
    let mut rows = 0u64;
    let mut differing = 0u64;
    for line in BufReader::new(rt.alloc(), rt.reader())?.lines(rt.alloc()) {
        let row = line?;
        if row.is_empty() || row.starts_with('#') {
            continue;
        }
        rows = rows.saturating_add(1);
        if let Some(given) = difference(rt.alloc(), row.as_str())? {
            differing = differing.saturating_add(1);
            println!(rt; "{row}\n    gives {given}")?;
        }
    }
    println!(rt; "{rows} rows, {differing} differ")?;
    Ok(())
}
