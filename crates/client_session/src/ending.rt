ghost use Rattle.std.specs.Prelude.{◌≡◌, ◌≤◌, ◌<◌, ◌&&◌, ◌++◌, ◌∷◌, not, max, true, false, [], ℕ};
ghost use Rattle.lload_names.specs.declared.names.PartName.TheVariants.{Client};
ghost use Rattle.lload_names.specs.declared.names.What.TheVariants.{Gone};
ghost use Rattle.lload_spec.specs.Settings.{Settings};
ghost use Rattle.part_spec.specs.ClientState.{ClientState, is_present};
ghost use Rattle.part_spec.specs.ClientTurn.{client_sever, client_turn};
ghost use Rattle.lload_names.specs.declared.inputs.Input.{Input};
ghost use Rattle.lload_names.specs.declared.names.EndWhy.{EndWhy};
ghost use Rattle.client_session.specs.Most.{most_of, IsWithin};
ghost use Rattle.client_session.specs.Closing.{closing, most_closing};
ghost use Rattle.client_session.specs.Ended.{IsEnded, ended};
ghost use Rattle.client_session.specs.Stands.{Stands};

use crate::part::ClientPart;
use lload_names::{EndWhy, What};
use outbox::Outbox;

impl ClientPart {
    /// Whether the client is there.
    pub(crate) fn is_present(&self) -> bool
        ensures { (s : Settings) (p : ClientState) → Stands s p self.now → result ≡ is_present p }
    {
        self.arrived && !self.gone
    }

    /// How many entries, and how many letters, a step or a sever made now gives at most. It takes no memory.
    pub fn most(&self) -> u64
        ensures most { (s : Settings) (p : ClientState) → Stands s p self.now → result ≡ most_of p }
        ensures step { (s : Settings) (p : ClientState) (input : Input) → Stands s p self.now → IsWithin result (client_turn s p input) }
        ensures sever { (s : Settings) (p : ClientState) (now : ℕ) (why : EndWhy) → Stands s p self.now → IsWithin result (client_sever p now why) }
    {
        let closing = self.most_endings() + self.paused.len();
        closing.max(3) as u64
    }

    /// The end of the link, at the moment `now` in milliseconds and for a reason that a link has: the part ends, and
    /// hands out its closing entry and letters. A part that has ended, or whose client hasn't arrived, gives nothing. It
    /// takes no memory.
    pub fn sever(&mut self, now: u64, why: EndWhy) -> Outbox
        ensures entries { (s : Settings) (p : ClientState) → Stands s p self.old → result.entries.items ≡ (client_sever p now why).entries }
        ensures letters { (s : Settings) (p : ClientState) → Stands s p self.old → result.letters.items ≡ (client_sever p now why).letters }
        ensures gone { (s : Settings) (p : ClientState) → Stands s p self.old → is_present p ≡ true → Stands s (ended (max p.moment now) p) self.new }
        ensures same { (s : Settings) (p : ClientState) → Stands s p self.old → is_present p ≡ false → Stands s p self.new }
    {
        if !self.is_present() {
            return Outbox::new(self.alloc);
        }
        let letters = self.most_endings();
        let Some(mut out) = self.kept.take(letters, self.paused.len()) else {
            return Outbox::new(self.alloc);
        };
        let at = self.moment.max(now);
        self.finish(at, why, &mut out);
        out
    }

    /// The part ends, with its closing entry and letters, for which there is room.
    pub(crate) fn finish(&mut self, at: u64, why: EndWhy, out: &mut Outbox)
        requires entry { 1 ≤ out.old.entries.spare }
        requires letters { most_closing self.old ≤ out.old.letters.spare }
        ensures entries { out.new.entries.items ≡ out.old.entries.items ++ record { part = Client self.old.number; at = at; what = Gone why } ∷ [] }
        ensures letters { out.new.letters.items ≡ out.old.letters.items ++ closing self.old }
        ensures ended { IsEnded at self.old self.new }
    {
        self.put_closing(out);
        self.put(at, What::Gone { why }, out);
        self.moment = at;
        self.gone = true;
        self.operations.clear();
        self.hold = None;
        self.stalled = false;
        self.paused.clear();
    }
}
