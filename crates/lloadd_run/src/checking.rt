ghost use Rattle.std.specs.Prelude.{◌≡◌, ◌≢◌, ◌≤◌, ℕ, List, codes, length, IfOk, IsTrue};
ghost use Rattle.lload_conf.specs.Answers.{IsConfig};
ghost use Rattle.lloadd_run.specs.Checking.{Checks, Loads, ReadsText, WritesLine, ends_before_writing, text_of};

use crate::status::Status;
use crate::words::is;
use crate::writing::{Unwritten, write_all};
use lload_conf::{ConfFault, Config, check_text, plain, read};
use lload_names::Word;
use lload_outside::{FileRead, FileReader, Sink};
use std::alloc::Global;

/// The most octets that the file of a configuration may have (this project's own).
const CONFIGURATION_LIMIT: u32 = 1_048_576;

/// Checks the configuration with this name, and writes the line of it.
pub fn check<F: FileReader, K: Sink>(
    alloc: Global,
    conf: &Word,
    files: &mut F,
    out: &mut K,
) -> Status
    ensures checks { Checks 1048576 result conf.now (text_of (F.held files.old) conf.now) (F.faults files.old conf.now) (F.faults files.new conf.now) (K.faults out.old) (K.faults out.new) (K.written out.old) (K.written out.new) }
    ensures nothing_written { IsTrue (ends_before_writing result) → out.new ≡ out.old }
    ensures other_files { (n : List ℕ) → n ≢ conf.now → F.faults files.new n ≡ F.faults files.old n }
    ensures plain_reads_no_file { conf.now ≡ codes "plain" → files.new ≡ files.old }
{
    match load(alloc, conf, files) {
        Ok(config) => write_line(alloc, &config, out),
        Err(status) => status,
    }
}

/// The configuration with this name, or the status of a run that can't have it.
fn load<F: FileReader>(alloc: Global, conf: &Word, files: &mut F) -> Result<Config, Status>
    ensures conditions { IfOk result (λ config. IsConfig config) }
    ensures loads { Loads 1048576 result conf.now (text_of (F.held files.old) conf.now) (F.faults files.old conf.now) (F.faults files.new conf.now) }
    ensures other_files { (n : List ℕ) → n ≢ conf.now → F.faults files.new n ≡ F.faults files.old n }
    ensures plain_reads_no_file { conf.now ≡ codes "plain" → files.new ≡ files.old }
{
    if is(conf, "plain") {
        return match plain(alloc) {
            Ok(config) => Ok(config),
            Err(_) => Err(Status::NoMemory),
        };
    }
    match files.read(conf, CONFIGURATION_LIMIT) {
        FileRead::Whole(text) => read_text(alloc, text.as_slice()),
        FileRead::TooLong => Err(Status::TooLong),
        FileRead::Failed => Err(Status::ReadFault),
        FileRead::NoMemory => Err(Status::NoMemory),
    }
}

/// The configuration of a text, or the status of a run that can't have it.
fn read_text(alloc: Global, text: &[u8]) -> Result<Config, Status>
    requires { length text.now ≤ 1048576 }
    ensures conditions { IfOk result (λ config. IsConfig config) }
    ensures reads { ReadsText result text.now }
{
    match read(alloc, text) {
        Ok(config) => Ok(config),
        Err(ConfFault::Line { line, kind }) => Err(Status::ConfRefused { line, kind }),
        Err(ConfFault::NoMemory) => Err(Status::NoMemory),
    }
}

/// Writes the line of a configuration.
fn write_line<K: Sink>(alloc: Global, config: &Config, out: &mut K) -> Status
    requires { IsConfig config.now }
    ensures { WritesLine result config.now (K.faults out.old) (K.faults out.new) (K.written out.old) (K.written out.new) }
{
    let Ok(text) = check_text(alloc, config) else {
        return Status::NoMemory;
    };
    match write_all(out, text.as_slice()) {
        Ok(()) => Status::Done,
        Err(Unwritten::Fault) => Status::WriteFault,
        Err(Unwritten::NoMemory) => Status::NoMemory,
    }
}
