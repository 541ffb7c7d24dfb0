ghost use Rattle.std.specs.Prelude.{◌≡◌, ◌≤◌, ◌<◌, ◌^◌, [], ◌++◌, length, Ok, None, IfOk, OnErr};
ghost use Rattle.std.specs.Option.{option_to_list};
ghost use Rattle.replay_script.specs.Made.{delete_round, made, opening, round, search_round, spelled};

use ber_envelope::write_envelope;
use lload_names::{Body, Command, NoMemory};
use rand_core::SeedableRng;
use rand_core::utils::NextWord;
use rand_pcg::Lcg64Xsh32;
use std::alloc::Global;
use std::collections::VecDeque;
use std::marker::Model;

/// The most rounds of a script that is made.
pub const ROUNDS_LIMIT: u32 = 100_000;

/// A Delete of o=a, and its success (RFC 4511, section 4.8).
const DELETE: &[u8] = b"\x4A\x03o=a";

const DELETE_DONE: &[u8] = b"\x6B\x07\x0A\x01\x00\x04\x00\x04\x00";

/// A Search for the presence of objectClass, an entry, and its success (section 4.5).
const SEARCH: &[u8] =
    b"\x63\x20\x04\x00\x0A\x01\x00\x0A\x01\x00\x02\x01\x00\x02\x01\x00\x01\x01\x00\x87\x0BobjectClass\x30\x00";

const SEARCH_ENTRY: &[u8] = b"\x64\x07\x04\x03o=a\x30\x00";

const SEARCH_DONE: &[u8] = b"\x65\x07\x0A\x01\x00\x04\x00\x04\x00";

/// The regular connections of the configuration `bench`, in the order in which they come to answer.
const CONNECTIONS: [u32; 4] = [1, 4, 2, 5];

/// The commands of a script that is made from a seed (this project's own), one after the other. Contracts see those
/// that are still to come.
#[derive(Drop)]
pub struct Maker {
    waiting: VecDeque<Command>,
    left: u32,
    next: u32,
    words: Lcg64Xsh32,
    alloc: Global,
}

impl Model for Maker {
    ghost use Rattle.std.specs.Prelude.{◌≤◌, ◌+◌, ◌++◌, List};
    ghost use Rattle.lload_names.specs.declared.command.Command.{Command};
    ghost use Rattle.replay_script.specs.Made.{rounds_from};
    ghost use Rattle.replay_script.specs.declared.maker.TheConstants.{ROUNDS_LIMIT};

    ghost Value = { List Command };

    ghost view = { λ m. m.waiting.items ++ rounds_from m.left m.next m.words };

    ghost invariant = { λ m. (1 ≤ m.next) × (m.next + m.left ≤ ROUNDS_LIMIT + 1) };
}

impl Maker {
    /// The script of so many rounds and a seed. Its only error is want of memory.
    pub fn new(alloc: Global, rounds: u32, seed: u64) -> Result<Maker, NoMemory>
        requires { rounds ≤ ROUNDS_LIMIT }
        ensures { IfOk result (λ maker. maker ≡ made rounds seed) }
    {
        Ok(Maker {
            waiting: opening(alloc)?,
            left: rounds,
            next: 1,
            words: Lcg64Xsh32::seed_from_u64(seed),
            alloc,
        })
    }

    /// The next command; `None` exactly behind the last. For want of memory nothing changes, and it is wanted only
    /// where a command is left.
    pub fn next(&mut self) -> Result<Option<Command>, NoMemory>
        ensures command { IfOk result (λ command. self.old ≡ option_to_list command ++ self.new) }
        ensures end { result ≡ Ok None → self.old ≡ [] }
        ensures err { OnErr result (self.new ≡ self.old) }
        ensures no_memory { self.old ≡ [] → result ≡ Ok None }
    {
        if let Some(command) = self.waiting.pop_front() {
            return Ok(Some(command));
        }
        if self.left == 0 {
            return Ok(None);
        }
        let mut words = self.words.clone()?;
        let word = words.next_word();
        let mut commands = round(self.alloc, self.next, word)?;
        let command = commands.pop_front();
        self.waiting = commands;
        self.words = words;
        self.left -= 1;
        self.next += 1;
        Ok(command)
    }
}

/// The regular connections are made ready, and the clients arrive.
fn opening(alloc: Global) -> Result<VecDeque<Command>, NoMemory>
    ensures { IfOk result (λ commands. commands.items ≡ opening) }
{
    let mut commands = VecDeque::new(alloc);
    commands.push_back(Command::UpReady { n: 1 })?;
    commands.push_back(Command::UpReady { n: 2 })?;
    commands.push_back(Command::UpReady { n: 4 })?;
    commands.push_back(Command::UpReady { n: 5 })?;
    commands.push_back(Command::ClientArrives { n: 1 })?;
    commands.push_back(Command::ClientArrives { n: 2 })?;
    commands.push_back(Command::ClientArrives { n: 3 })?;
    commands.push_back(Command::ClientArrives { n: 4 })?;
    commands.push_back(Command::ClientArrives { n: 5 })?;
    commands.push_back(Command::ClientArrives { n: 6 })?;
    commands.push_back(Command::ClientArrives { n: 7 })?;
    commands.push_back(Command::ClientArrives { n: 8 })?;
    commands.push_back(Command::Settle)?;
    Ok(commands)
}

/// The commands of a round, counted from 1, with a random word.
fn round(alloc: Global, j: u32, word: u32) -> Result<VecDeque<Command>, NoMemory>
    requires first { 1 ≤ j }
    requires fits { j < 2 ^ 31 }
    ensures { IfOk result (λ commands. commands.items ≡ round j word) }
{
    let client = 1 + word % 8;
    let conn = CONNECTIONS[((j - 1) % 4) as usize];
    if word / 8 % 4 == 0 {
        search_round(alloc, j, client, conn)
    } else {
        delete_round(alloc, j, client, conn)
    }
}

/// A client's Search, with an entry and its success.
fn search_round(
    alloc: Global,
    id: u32,
    client: u32,
    conn: u32,
) -> Result<VecDeque<Command>, NoMemory>
    requires { id < 2 ^ 31 }
    ensures { IfOk result (λ commands. commands.items ≡ search_round id client conn) }
{
    let mut commands = VecDeque::new(alloc);
    let bytes = spelled(alloc, id, SEARCH)?;
    commands.push_back(Command::ClientBytes { n: client, bytes })?;
    commands.push_back(Command::Settle)?;
    let bytes = spelled(alloc, 1, SEARCH_ENTRY)?;
    commands.push_back(Command::UpBytes { n: conn, bytes })?;
    let bytes = spelled(alloc, 1, SEARCH_DONE)?;
    commands.push_back(Command::UpBytes { n: conn, bytes })?;
    commands.push_back(Command::Settle)?;
    Ok(commands)
}

/// A client's Delete, with its success.
fn delete_round(
    alloc: Global,
    id: u32,
    client: u32,
    conn: u32,
) -> Result<VecDeque<Command>, NoMemory>
    requires { id < 2 ^ 31 }
    ensures { IfOk result (λ commands. commands.items ≡ delete_round id client conn) }
{
    let mut commands = VecDeque::new(alloc);
    let bytes = spelled(alloc, id, DELETE)?;
    commands.push_back(Command::ClientBytes { n: client, bytes })?;
    commands.push_back(Command::Settle)?;
    let bytes = spelled(alloc, 1, DELETE_DONE)?;
    commands.push_back(Command::UpBytes { n: conn, bytes })?;
    commands.push_back(Command::Settle)?;
    Ok(commands)
}

/// A message in its canonical spelling.
fn spelled(alloc: Global, id: u32, rest: &[u8]) -> Result<Body, NoMemory>
    requires id { id < 2 ^ 31 }
    requires rest { length rest.now < 2 ^ 30 }
    ensures { IfOk result (λ body. body ≡ spelled id rest.now) }
{
    let mut bytes = Vec::new(alloc);
    write_envelope(id, rest, &mut bytes)?;
    Ok(Body::from_vec(bytes))
}
