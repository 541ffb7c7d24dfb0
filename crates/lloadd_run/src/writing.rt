ghost use Rattle.std.specs.Prelude.{◌≡◌, ◌≢◌, ◌≤◌, ◌<◌, ℕ, true, length, OnOk, OnErr};
ghost use Rattle.lload_outside.specs.Causes.{Rose};
ghost use Rattle.lload_spec.specs.Transcript.{journal_text};
ghost use Rattle.lload_spec.specs.Writable.{each_can_be_written};
ghost use Rattle.lloadd_run.specs.Amounts.{WroteAll, WrotePart};
ghost use Rattle.lloadd_run.specs.declared.writing.Unwritten.TheVariants.{NoMemory as NoRoom};

use lload_names::{Entry, NoMemory};
use lload_outside::{Given, Sink};
use replay_script::entry_line;
use std::alloc::Global;

/// Why something wasn't written.
#[derive(Clone, Copy, Debug, PartialEq, Eq, Drop)]
pub enum Unwritten {
    /// The sink failed.
    Fault,
    /// There was no memory, here or in the sink.
    NoMemory,
}

impl From<NoMemory> for Unwritten {
    ghost from_gives = { λ _ e. e ≡ NoRoom };

    fn from(_: NoMemory) -> Self {
        Unwritten::NoMemory
    }
}

/// Writes a text. At an error a part of it was written.
pub fn write_all<K: Sink>(out: &mut K, text: &[u8]) -> Result<(), Unwritten>
    ensures never_falls { K.faults out.old ≤ K.faults out.new }
    ensures all { OnOk result (WroteAll (K.written out.old) (K.written out.new) text.now) }
    ensures part { OnErr result (WrotePart (K.written out.old) (K.written out.new) text.now) }
    ensures fault { result ≡ Err Unwritten.Fault → Rose (K.faults out.old) (K.faults out.new) }
{
    let mut at = 0;
    while at < text.len() {
        match out.write(&text[at..]) {
            Given::Put(n) => at += n,
            Given::Failed => return Err(Unwritten::Fault),
            Given::NoMemory => return Err(Unwritten::NoMemory),
        }
    }
    Ok(())
}

/// Writes the lines of entries. At an error a part of their text was written.
pub fn write_entries<K: Sink>(
    alloc: Global,
    entries: &[Entry],
    out: &mut K,
) -> Result<(), Unwritten>
    requires { each_can_be_written entries.now ≡ true }
    ensures never_falls { K.faults out.old ≤ K.faults out.new }
    ensures all { OnOk result (WroteAll (K.written out.old) (K.written out.new) (journal_text entries.now)) }
    ensures part { OnErr result (WrotePart (K.written out.old) (K.written out.new) (journal_text entries.now)) }
    ensures fault { result ≡ Err Unwritten.Fault → Rose (K.faults out.old) (K.faults out.new) }
{
    for entry in entries {
        let line = entry_line(alloc, entry)?;
        write_all(out, line.as_slice())?;
    }
    Ok(())
}
