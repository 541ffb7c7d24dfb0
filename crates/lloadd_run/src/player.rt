ghost use Rattle.std.specs.Prelude.{◌≡◌, ◌≢◌, ◌≤◌, ◌<◌, ◌+◌, ◌-◌, ◌^◌, ◌++◌, ◌∷◌, [], List, ℕ, Option, Some, None, true, length, string_bytes, IfOk};
ghost use Rattle.lload_names.specs.declared.command.Command.{Command};
ghost use Rattle.lload_outside.specs.Causes.{Rose};
ghost use Rattle.small_spec.specs.History.{Line};
ghost use Rattle.lload_spec.specs.Script.{command_of};
ghost use Rattle.lload_spec.specs.Writable.{each_can_be_written};
ghost use Rattle.small_play.specs.Plays.{Plays};
ghost use Rattle.lloadd_run.specs.Playing.{EndsLine, last_line_text, Finishes, GrowsBy, Stood, Takes};
ghost use Rattle.lloadd_run.specs.Scripts.{refuses};
ghost use Rattle.lloadd_run.specs.Halts.{of_line, of_play, of_writing};
ghost use Rattle.lloadd_run.specs.declared.player.Halt.TheVariants.{NoMemory as NoRoom};

use crate::writing::{Unwritten, write_all, write_entries};
use lload_names::{Entries, NoMemory};
use lload_outside::Sink;
use replay_script::{LineFault, read_line};
use small_play::{Play, Unplayed};
use std::alloc::Global;

/// The octet that ends a line: LF.
const LINE_END: u8 = b'\n';

/// Why a player stopped.
#[derive(Clone, Copy, Debug, PartialEq, Eq, Drop)]
pub enum Halt {
    /// The line isn't a command, doesn't stand or isn't finished.
    Refused,
    /// The sink failed.
    WriteFault,
    /// There was no memory, here or in the sink.
    NoMemory,
}

impl From<NoMemory> for Halt {
    ghost from_gives = { λ _ halt. halt ≡ NoRoom };

    fn from(_: NoMemory) -> Self {
        Halt::NoMemory
    }
}

impl From<LineFault> for Halt {
    ghost from_gives = { λ fault halt. halt ≡ of_line fault };

    fn from(fault: LineFault) -> Self {
        match fault {
            LineFault::NotACommand => Halt::Refused,
            LineFault::NoMemory => Halt::NoMemory,
        }
    }
}

impl From<Unplayed> for Halt {
    ghost from_gives = { λ why halt. halt ≡ of_play why };

    fn from(why: Unplayed) -> Self {
        match why {
            Unplayed::DoesNotStand => Halt::Refused,
            Unplayed::NoMemory => Halt::NoMemory,
        }
    }
}

impl From<Unwritten> for Halt {
    ghost from_gives = { λ why halt. halt ≡ of_writing why };

    fn from(why: Unwritten) -> Self {
        match why {
            Unwritten::Fault => Halt::WriteFault,
            Unwritten::NoMemory => Halt::NoMemory,
        }
    }
}

/// Takes a script byte by byte, plays each line at its end, and writes the lines of the journal that it made.
#[derive(Drop)]
pub struct Player {
    play: Play,
    line: Vec<u8>,
    lines: u32,
    entries: u64,
    alloc: Global,
}

impl Player {
    /// A player before its first line. It took nothing and wrote nothing.
    pub fn new(alloc: Global) -> Result<Player, NoMemory>
        ensures lines { IfOk result (λ p. p.lines ≡ 0) }
        ensures stood { IfOk result (λ p. (written : Option (List ℕ)) → Stood p [] written written) }
    {
        Ok(Player {
            play: Play::new(alloc)?,
            line: Vec::new(alloc),
            lines: 0,
            entries: 0,
            alloc,
        })
    }

    /// The number of the line that comes next, counted from 1.
    pub fn next_line(&self) -> u32
        requires { self.now.lines < 2 ^ 32 - 1 }
        ensures { result ≡ self.now.lines + 1 }
    {
        self.lines + 1
    }

    /// Takes bytes, and plays each line that ends in them.
    pub fn take_all<K: Sink>(&mut self, bytes: &[u8], out: &mut K) -> Result<(), Halt>
        requires { self.old.lines + length bytes.now < 2 ^ 32 }
        ensures never_falls { K.faults out.old ≤ K.faults out.new }
        ensures lines { self.new.lines ≤ self.old.lines + length bytes.now }
        ensures fault { result ≡ Err Halt.WriteFault → Rose (K.faults out.old) (K.faults out.new) }
        ensures takes { Takes result self.old self.new bytes.now (K.written out.old) (K.written out.new) }
    {
        for byte in bytes {
            self.take(*byte, out)?;
        }
        Ok(())
    }

    /// Takes a byte, which may end a line.
    fn take<K: Sink>(&mut self, byte: u8, out: &mut K) -> Result<(), Halt>
        requires { self.old.lines + 1 < 2 ^ 32 }
        ensures never_falls { K.faults out.old ≤ K.faults out.new }
        ensures lines { self.new.lines ≤ self.old.lines + 1 }
        ensures fault { result ≡ Err Halt.WriteFault → Rose (K.faults out.old) (K.faults out.new) }
        ensures takes { Takes result self.old self.new (byte ∷ []) (K.written out.old) (K.written out.new) }
    {
        if byte == LINE_END {
            return self.end_line(out);
        }
        match self.line.push(byte) {
            Ok(()) => Ok(()),
            Err(_) => Err(Halt::NoMemory),
        }
    }

    /// Plays the line and writes what it made.
    fn end_line<K: Sink>(&mut self, out: &mut K) -> Result<(), Halt>
        requires { self.old.lines + 1 < 2 ^ 32 }
        ensures never_falls { K.faults out.old ≤ K.faults out.new }
        ensures lines { self.new.lines ≤ self.old.lines + 1 }
        ensures fault { result ≡ Err Halt.WriteFault → Rose (K.faults out.old) (K.faults out.new) }
        ensures ends { EndsLine result self.old self.new (K.written out.old) (K.written out.new) }
    {
        let piece = play_line(self.alloc, &mut self.play, self.line.as_slice())?;
        self.line.clear();
        self.lines += 1;
        self.entries = self
            .entries
            .checked_add(piece.len() as u64)
            .ok_or(NoMemory)?;
        write_entries(self.alloc, piece.as_slice(), out)?;
        Ok(())
    }

    /// Ends the text: writes the last line of the journal's text, with the count of its entries. An unfinished line is
    /// refused.
    pub fn finish<K: Sink>(&self, out: &mut K) -> Result<(), Halt>
        ensures never_falls { K.faults out.old ≤ K.faults out.new }
        ensures fault { result ≡ Err Halt.WriteFault → Rose (K.faults out.old) (K.faults out.new) }
        ensures finishes { Finishes result self.now (K.written out.old) (K.written out.new) }
    {
        if !self.line.is_empty() {
            return Err(Halt::Refused);
        }
        let last = last_line(self.alloc, self.entries)?;
        write_all(out, last.as_str().as_bytes())?;
        Ok(())
    }
}

/// The last line of a journal's text, with its end: the count of its entries.
fn last_line(alloc: Global, entries: u64) -> Result<String, NoMemory>
    ensures { IfOk result (λ line. string_bytes line ≡ last_line_text entries) }
{
    Ok(format!(in alloc; "end {entries}\n")?)
}

/// Plays a line. It is refused where it isn't a command or doesn't stand.
fn play_line(alloc: Global, play: &mut Play, line: &[u8]) -> Result<Entries, Halt>
    ensures played { IfOk result (λ piece. (command : Command) × (command_of line.now ≡ Some command) × GrowsBy play.old play.new (record { command = command; piece = piece })) }
    ensures writable { IfOk result (λ piece. each_can_be_written piece ≡ true) }
    ensures refused { result ≡ Err Halt.Refused → (history : List Line) → Plays play.old history → refuses history (command_of line.now) ≡ true }
    ensures no_fault { result ≢ Err Halt.WriteFault }
{
    let command = read_line(alloc, line)?;
    Ok(play.play(command)?)
}
