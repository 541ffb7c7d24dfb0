ghost use Rattle.std.specs.Prelude.{◌≡◌, List, [], ◌∷◌, ◌++◌, true, false, IfOk, OnOk, map};
ghost use Rattle.ldap_spec.specs.Messages.{Message, message_within};
ghost use Rattle.lload_names.specs.declared.names.Entry.{Entry as EntryValue};
ghost use Rattle.small_spec.specs.Lists.{passes};
ghost use Rattle.small_spec.specs.Plain.{plain};
ghost use Rattle.small_spec.specs.Standing.{stands, is_one_element as is_one_element_of};
ghost use Rattle.lload_spec.specs.Writable.{each_can_be_written};

use crate::elements::is_one_element;
use crate::fed::{Fed, has_id};
use crate::messages::{limit_of, whole_message};
use crate::taking::take_each;
use lload_names::{Body, Command, Entries, NoMemory, PartName};
use small_world::World;
use std::alloc::Global;
use std::collections::VecDeque;
use std::marker::Model;
use std::mem;

/// Why a command made nothing.
#[derive(Clone, Copy, Debug, PartialEq, Eq, Drop)]
pub enum Unplayed {
    /// The line doesn't stand where it is.
    DoesNotStand,
    /// There was no memory for it.
    NoMemory,
}

impl From<NoMemory> for Unplayed {
    ghost use Rattle.std.specs.Prelude.{◌≡◌};
    ghost use Rattle.small_play.specs.declared.play.Unplayed.TheVariants.{NoMemory as OutOfMemory};

    ghost from_gives = { λ _ e. e ≡ OutOfMemory };

    fn from(_: NoMemory) -> Self {
        Unplayed::NoMemory
    }
}

/// A world, and the messages that client 1 and connection 1 were fed since the last settle.
#[derive(Debug, Drop)]
pub struct Play {
    world: World,
    requests: VecDeque<Fed>,
    answers: VecDeque<Fed>,
    alloc: Global,
}

impl Model for Play {
    ghost use Rattle.std.specs.Prelude.{map};
    ghost use Rattle.small_play.specs.PlayState.{PlayState};
    ghost use Rattle.small_play.specs.Waiting.{MayWait};
    ghost use Rattle.small_play.specs.FedMessages.{message};

    ghost Value = { PlayState };

    ghost view = { λ p. record { world = p.world; requests = map message p.requests.items; answers = map message p.answers.items } };

    ghost invariant = { λ p. MayWait (record { world = p.world; requests = map message p.requests.items; answers = map message p.answers.items }) };
}

impl Play {
    ghost use Rattle.small_spec.specs.History.{Line};
    ghost use Rattle.small_play.specs.PlayState.{unplayed};
    ghost use Rattle.small_play.specs.Plays.{Plays};

    /// The play of the configuration `plain`, before any command.
    pub fn new(alloc: Global) -> Result<Play, NoMemory>
        ensures { IfOk result (λ p. Plays p []) }
    {
        Ok(Play {
            world: World::plain(alloc)?,
            requests: VecDeque::new(alloc),
            answers: VecDeque::new(alloc),
            alloc,
        })
    }

    /// Plays a command. The answer is what the journal grows by. The command is refused exactly where its line doesn't
    /// stand behind the lines before it; for want of memory the play isn't used again.
    pub fn play(&mut self, command: Command) -> Result<Entries, Unplayed>
        ensures played { IfOk result (λ piece. (history : List Line) → Plays self.old history → Plays self.new (history ++ record { command = command; piece = piece } ∷ [])) }
        ensures writable { IfOk result (λ piece. each_can_be_written piece ≡ true) }
        ensures refused { result ≡ Err Unplayed.DoesNotStand → (history : List Line) → Plays self.old history → stands plain history command ≡ false }
    {
        match command {
            Command::ClientArrives { n } => self.begin(PartName::Client(n)),
            Command::UpReady { n } => self.begin(PartName::Up(n)),
            Command::ClientBytes { n, bytes } => self.feed(PartName::Client(n), bytes.as_slice()),
            Command::UpBytes { n, bytes } => self.feed(PartName::Up(n), bytes.as_slice()),
            Command::Settle => Ok(self.settle()?),
            _ => Err(Unplayed::DoesNotStand),
        }
    }
}

impl Play {
    ghost use Rattle.small_world.specs.States.{may_begin};
    ghost use Rattle.small_play.specs.Beginning.{Begins};
    ghost use Rattle.small_play.specs.FedMessages.{message};
    ghost use Rattle.small_play.specs.Feeding.{limit_of as limit_of_part, may_be_fed as may_be_fed_in, fed_with, TakesIn};
    ghost use Rattle.small_play.specs.Waiting.{waits, MayWait};
    ghost use Rattle.small_play.specs.Settling.{Settles};

    // A part begins.
    fn begin(&mut self, part: PartName) -> Result<Entries, Unplayed>
        ensures begun { IfOk result (λ piece. Begins part self.old self.new piece) }
        ensures writable { IfOk result (λ piece. each_can_be_written piece ≡ true) }
        ensures refused { result ≡ Err Unplayed.DoesNotStand → may_begin self.old.world part ≡ false }
    {
        let is_first = match part {
            PartName::Desk => false,
            PartName::Client(n) | PartName::Up(n) => n == 1,
        };
        if !is_first || self.world.stands(part) {
            return Err(Unplayed::DoesNotStand);
        }
        Ok(self.world.begin(part)?)
    }

    // A part is fed bytes, which are one message.
    fn feed(&mut self, part: PartName, bytes: &[u8]) -> Result<Entries, Unplayed>
        ensures none { IfOk result (λ piece. piece ≡ []) }
        ensures fed { OnOk result (TakesIn part bytes.now self.old self.new) }
        ensures refused { result ≡ Err Unplayed.DoesNotStand → passes (may_be_fed_in self.old part) (message_within (limit_of_part part) bytes.now) ≡ false }
    {
        let Some(message) = whole_message(bytes, limit_of(part)) else {
            return Err(Unplayed::DoesNotStand);
        };
        if !self.may_be_fed(part, message.id, message.rest) {
            return Err(Unplayed::DoesNotStand);
        }
        let rest = Body::from_slice(self.alloc, message.rest)?;
        self.wait(
            part,
            Fed {
                id: message.id,
                rest,
            },
        )?;
        Ok(Entries::new(self.alloc))
    }

    // Whether the part may be fed this message.
    fn may_be_fed(&self, part: PartName, id: u32, rest: &[u8]) -> bool
        ensures { result ≡ may_be_fed_in self.now part (record { id = id; rest = rest.now }) }
    {
        self.world.stands(part)
            && match part {
                PartName::Desk => false,
                PartName::Client(_) => {
                    id != 0
                        && is_one_element(0x4A, rest)
                        && !self.world.is_in_use(id)
                        && !self.is_waiting(id)
                }
                PartName::Up(_) => is_one_element(0x6B, rest) && self.world.was_given(id),
            }
    }

    // Whether client 1 was fed a message with this identifier that waits.
    fn is_waiting(&self, id: u32) -> bool
        ensures { result ≡ waits self.now.requests id }
    {
        has_id(&self.requests, id)
    }

    // The message waits behind the others of its part.
    fn wait(&mut self, part: PartName, fed: Fed) -> Result<(), NoMemory>
        requires { MayWait (fed_with self.old part (message fed)) }
        ensures { OnOk result (self.new ≡ fed_with self.old part (message fed)) }
    {
        match part {
            PartName::Desk => {}
            PartName::Client(_) => self.requests.push_back(fed)?,
            PartName::Up(_) => self.answers.push_back(fed)?,
        }
        Ok(())
    }

    // The desk hears what is news, and then all that waits is taken.
    fn settle(&mut self) -> Result<Entries, NoMemory>
        ensures settled { IfOk result (λ piece. Settles self.old self.new piece) }
        ensures writable { IfOk result (λ piece. each_can_be_written piece ≡ true) }
    {
        let mut piece = self.world.hear()?;
        let requests = mem::replace(&mut self.requests, VecDeque::new(self.alloc));
        let answers = mem::replace(&mut self.answers, VecDeque::new(self.alloc));
        take_each(&mut self.world, PartName::Client(1), requests, &mut piece)?;
        take_each(&mut self.world, PartName::Up(1), answers, &mut piece)?;
        Ok(piece)
    }
}
