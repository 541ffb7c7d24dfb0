ghost use Rattle.std.specs.Prelude.{◌≡◌, [], List, OnOk, OnErr};
ghost use Rattle.lload_spec.specs.Settings.{Settings};
ghost use Rattle.lload_names.specs.declared.inputs.Event.TheVariants as event;
ghost use Rattle.part_spec.specs.Merge.{PartMove, world_of};
ghost use Rattle.proxy_core.specs.Events.{Happened};
ghost use Rattle.proxy_core.specs.Runs.{Stands};
ghost use Rattle.lload_names.specs.declared.inputs.Input.TheVariants.{LetterFrom};
ghost use Rattle.part_spec.specs.World as run;
ghost use Rattle.proxy_core.specs.States.{Is, MayTake};
ghost use Rattle.proxy_core.specs.Turned.{Took, IsSame, KeepsLetters};

use crate::world::World;
use letter_queues::queues_carry_letters;
use lload_names::{Input, Letter, NoMemory, PartName};
use outbox::Outbox;
use taken_laws::{
    a_connection_that_is_up_is_of_the_plans_so_far, a_letter_that_waits_first_may_be_taken,
};

impl World {
    /// A part takes the first letter of a sender, which leaves once the turn is done; where none waits, nothing happens.
    pub fn take(
        &mut self,
        part: PartName,
        now: u64,
        word: u64,
        sender: PartName,
        out: &mut Outbox,
    ) -> Result<(), NoMemory>
        requires { out.old.letters.items ≡ [] }
        ensures happened { OnOk result ((s : Settings) (ms : List PartMove) → Stands s ms self.old → Happened s (world_of s ms) part (event.Letter now word sender) out.old out.new self.new) }
        ensures sent { out.new.letters.items ≡ [] }
        ensures out { OnErr result (IsSame out.old out.new) }
        ensures err { OnErr result ((s : Settings) (ms : List PartMove) → Stands s ms self.old → Stands s ms self.new) }
    {
        a_letter_that_waits_first_may_be_taken();
        a_connection_that_is_up_is_of_the_plans_so_far();
        queues_carry_letters();
        self.letters.sort()?;
        let Some(letter) = self.letters.take(sender, part) else {
            return Ok(());
        };
        if self
            .take_copy(part, now, word, sender, &letter, out)
            .is_err()
        {
            self.letters.put_back(sender, part, letter);
            return Err(NoMemory);
        }
        Ok(())
    }

    /// A part takes a copy of a letter. For want of memory nothing is appended, and no queue changes.
    fn take_copy(
        &mut self,
        part: PartName,
        now: u64,
        word: u64,
        sender: PartName,
        letter: &Letter,
        out: &mut Outbox,
    ) -> Result<(), NoMemory>
        requires { out.old.letters.items ≡ [] }
        ensures took { OnOk result ((s : Settings) (v : run.World) → Is s v self.old → MayTake s v part (LetterFrom now word sender letter.now) → Took s v part (LetterFrom now word sender letter.now) out.old out.new self.new) }
        ensures sent { out.new.letters.items ≡ [] }
        ensures out { OnErr result (IsSame out.old out.new) }
        ensures err { OnErr result ((s : Settings) (v : run.World) → Is s v self.old → MayTake s v part (LetterFrom now word sender letter.now) → Is s v self.new) }
        ensures kept { OnErr result (KeepsLetters self.old self.new) }
    {
        let letter = letter.copy()?;
        let input = Input::LetterFrom {
            now,
            word,
            sender,
            letter,
        };
        self.turn(part, input, out)
    }
}
