ghost use Rattle.std.specs.Prelude.{◌≡◌, ◌≢◌, ◌↔◌, ◌⊎◌, List, ℕ, codes, IsTrue};
ghost use Rattle.lload_outside.specs.Causes.{Rose};
ghost use Rattle.lloadd_run.specs.Outcomes.{CanBeReplayed, Ends, IsTooLong, IsWrongAt, ReplayedAll, ReplayedPart, ReplayedTaken, ReplayedWithin, RefusedAt};
ghost use Rattle.lloadd_run.specs.Halts.{status_of, status_at_end};
ghost use Rattle.lloadd_run.specs.Checking.{Checked, CheckedPart, FileFailed, HasFault, IsOver, check_status, ends_before_writing, text_of};
ghost use Rattle.lloadd_run.specs.Words.{AsksCheck, AsksReplay, asked_of};

use crate::checking::check;
use crate::player::{Halt, Player};
use crate::status::Status;
use crate::words::{Job, read_words};
use lload_names::Word;
use lload_outside::{FileReader, Sink, Source, Taken};
use std::alloc::Global;

/// The most octets of a script that are taken (this project's own).
const SCRIPT_LIMIT: usize = 67_108_864;

/// Does what the words ask for. It always returns.
///
/// `check CONF` reads the configuration with this name, of at most 1,048,576 octets, and writes its line: how many tiers,
/// backends and places it has. `plain` is the built-in configuration, any other name that of a file. The script isn't
/// touched. `replay plain` replays the script on the configuration `plain`, and writes the lines of the journal that it
/// makes behind each line of the script, and then the line `end COUNT`. It reads no file, and takes at most 67,108,864
/// octets of the script. The status is the first of these that comes (all of them are this project's own):
///
/// - `Usage`: the words are others; nothing was read or written.
/// - `ReadFault`: the file or the script failed. Nothing was written of a check; of a replay all whole lines that were
///   taken were replayed, and the lines of their journal were written.
/// - `TooLong`: the file has, or of the script came, more than is taken. The same was written, of the whole lines within
///   the limit.
/// - `ConfRefused`: the configuration has a fault: its first faulty line, and the lowest kind. Nothing was written.
/// - `ScriptRefused`: this line, counted from 1, isn't a command, doesn't stand, or isn't finished where the script ends;
///   the lines before it were replayed, and the lines of their journal were written.
/// - `WriteFault`: the sink failed; a part was written, from its front, of the configuration's line, or of the text of
///   the first lines that were taken.
/// - `NoMemory`: there was no memory, here or in the sink; the same as for `WriteFault`.
/// - `Done`: the whole text was written; the script was read to its end.
///
/// `ListenFault` never comes.
pub fn run<F: FileReader, S: Source, K: Sink>(
    alloc: Global,
    words: &[Word],
    files: &mut F,
    script: &mut S,
    out: &mut K,
) -> Status
    ensures usage { (result ≡ Status.Usage) ↔ (asked_of words.now ≡ None) }
    ensures usage_touches_nothing { result ≡ Status.Usage → (files.new ≡ files.old) × (script.new ≡ script.old) × (out.new ≡ out.old) }
    ensures write_fault { result ≡ Status.WriteFault → Rose (K.faults out.old) (K.faults out.new) }
    ensures never_listen_fault { result ≢ Status.ListenFault }
    // Of a check: what each status says, and which one comes.
    ensures check_done { (conf : List ℕ) → AsksCheck words.now conf → result ≡ Status.Done → Checked 1048576 (text_of (F.held files.old) conf) (K.written out.old) (K.written out.new) }
    ensures check_conf_refused { (conf : List ℕ) (line kind : ℕ) → AsksCheck words.now conf → result ≡ Status.ConfRefused line kind → HasFault 1048576 line kind (text_of (F.held files.old) conf) }
    ensures check_read_fault { (conf : List ℕ) → AsksCheck words.now conf → result ≡ Status.ReadFault → FileFailed conf (F.faults files.old conf) (F.faults files.new conf) }
    ensures check_too_long { (conf : List ℕ) → AsksCheck words.now conf → result ≡ Status.TooLong → IsOver 1048576 (text_of (F.held files.old) conf) }
    ensures check_written_at_write_fault { (conf : List ℕ) → AsksCheck words.now conf → result ≡ Status.WriteFault → CheckedPart 1048576 (text_of (F.held files.old) conf) (K.written out.old) (K.written out.new) }
    ensures check_no_memory { (conf : List ℕ) → AsksCheck words.now conf → result ≡ Status.NoMemory → (K.written out.new ≡ K.written out.old) ⊎ CheckedPart 1048576 (text_of (F.held files.old) conf) (K.written out.old) (K.written out.new) }
    ensures check_writes_nothing { (conf : List ℕ) → AsksCheck words.now conf → IsTrue (ends_before_writing result) → out.new ≡ out.old }
    ensures check_leaves_script { (conf : List ℕ) → AsksCheck words.now conf → script.new ≡ script.old }
    ensures check_never_script_refused { (conf : List ℕ) (line : ℕ) → AsksCheck words.now conf → result ≢ Status.ScriptRefused line }
    ensures check_other_files { (conf n : List ℕ) → AsksCheck words.now conf → n ≢ conf → F.faults files.new n ≡ F.faults files.old n }
    ensures check_plain_reads_no_file { AsksCheck words.now (codes "plain") → files.new ≡ files.old }
    ensures check_comes { (conf text : List ℕ) → AsksCheck words.now conf → text_of (F.held files.old) conf ≡ Some text → ¬ (Rose (F.faults files.old conf) (F.faults files.new conf)) → ¬ (Rose (K.faults out.old) (K.faults out.new)) → (result ≡ check_status 1048576 text) ⊎ (result ≡ Status.NoMemory) }
    // Of a replay: the same.
    ensures reads_no_file { AsksReplay words.now → files.new ≡ files.old }
    ensures done { AsksReplay words.now → result ≡ Status.Done → ReplayedAll 67108864 (S.left script.old) (S.left script.new) (K.written out.old) (K.written out.new) }
    ensures script_refused { (line : ℕ) → AsksReplay words.now → result ≡ Status.ScriptRefused line → RefusedAt 67108864 line (S.left script.old) (S.left script.new) (K.written out.old) (K.written out.new) }
    ensures read_fault { AsksReplay words.now → result ≡ Status.ReadFault → Rose (S.faults script.old) (S.faults script.new) }
    ensures written_at_read_fault { AsksReplay words.now → result ≡ Status.ReadFault → ReplayedTaken 67108864 (S.left script.old) (S.left script.new) (K.written out.old) (K.written out.new) }
    ensures written_at_write_fault { AsksReplay words.now → result ≡ Status.WriteFault → ReplayedPart 67108864 (S.left script.old) (S.left script.new) (K.written out.old) (K.written out.new) }
    ensures too_long { AsksReplay words.now → result ≡ Status.TooLong → ReplayedWithin 67108864 (S.left script.old) (S.left script.new) (K.written out.old) (K.written out.new) }
    ensures no_memory { AsksReplay words.now → result ≡ Status.NoMemory → ReplayedPart 67108864 (S.left script.old) (S.left script.new) (K.written out.old) (K.written out.new) }
    ensures never_conf_refused { (line kind : ℕ) → AsksReplay words.now → result ≢ Status.ConfRefused line kind }
    ensures too_long_comes { (text : List ℕ) → AsksReplay words.now → S.left script.old ≡ Some text → IsTooLong 67108864 text → ¬ (Rose (S.faults script.old) (S.faults script.new)) → ¬ (Rose (K.faults out.old) (K.faults out.new)) → (result ≡ Status.TooLong) ⊎ (result ≡ Status.NoMemory) }
    ensures script_refused_comes { (text : List ℕ) (line : ℕ) → AsksReplay words.now → S.left script.old ≡ Some text → IsWrongAt 67108864 line text → ¬ (Rose (S.faults script.old) (S.faults script.new)) → ¬ (Rose (K.faults out.old) (K.faults out.new)) → (result ≡ Status.ScriptRefused line) ⊎ (result ≡ Status.NoMemory) }
    ensures complete { (text : List ℕ) → AsksReplay words.now → S.left script.old ≡ Some text → CanBeReplayed 67108864 text → ¬ (Rose (S.faults script.old) (S.faults script.new)) → ¬ (Rose (K.faults out.old) (K.faults out.new)) → (result ≡ Status.Done) ⊎ (result ≡ Status.NoMemory) }
{
    match read_words(words) {
        Some(Job::Check { conf }) => check(alloc, conf, files, out),
        Some(Job::ReplayPlain) => replay(alloc, script, out),
        None => Status::Usage,
    }
}

/// Replays a script.
fn replay<S: Source, K: Sink>(alloc: Global, script: &mut S, out: &mut K) -> Status
    ensures { Ends 67108864 result (S.faults script.old) (S.faults script.new) (S.left script.old) (S.left script.new) (K.faults out.old) (K.faults out.new) (K.written out.old) (K.written out.new) }
{
    let Ok(mut player) = Player::new(alloc) else {
        return Status::NoMemory;
    };
    let mut room = SCRIPT_LIMIT;
    let mut piece = [0u8; 8192];
    loop {
        let n = match script.read(&mut piece) {
            Taken::Got(n) => n,
            Taken::End => return ended(player.finish(out), player.next_line()),
            Taken::Failed => return Status::ReadFault,
        };
        if let Err(halt) = player.take_all(&piece[..n.min(room)], out) {
            return halted(halt, player.next_line());
        }
        if n > room {
            return Status::TooLong;
        }
        room -= n;
    }
}

/// How a run ends where the player stopped at the line of this number.
fn halted(halt: Halt, line: u32) -> Status
    ensures { result ≡ status_of halt line }
{
    match halt {
        Halt::Refused => Status::ScriptRefused { line },
        Halt::WriteFault => Status::WriteFault,
        Halt::NoMemory => Status::NoMemory,
    }
}

/// How a run ends behind the end of the script.
fn ended(finished: Result<(), Halt>, line: u32) -> Status
    ensures { result ≡ status_at_end finished line }
{
    match finished {
        Ok(()) => Status::Done,
        Err(halt) => halted(halt, line),
    }
}
