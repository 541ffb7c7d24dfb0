ghost use Rattle.std.specs.Prelude.{◌≡◌, ◌+◌, ◌∷◌, [], ℕ, slice_get, Some, None, MatchOption};
ghost use Rattle.desk_choice.specs.Places.{viable_at};
ghost use Rattle.lload_names.specs.declared.plans.TierPlan.{TierPlan};
ghost use Rattle.lload_names.specs.declared.plans.BackendPlan.{BackendPlan};
ghost use Rattle.std.specs.Prelude.{is_some};

use crate::tables::Tables;
use desk_tables::{Round, Server, numbered};
use lload_names::{Answer, Bound, ConnKind, Want};
use tier_select::Flags;

/// Nothing changes by a choice, and it takes no memory.
impl Tables {
    ghost use Rattle.lload_spec.specs.Settings.{Settings};
    ghost use Rattle.lload_spec.specs.Lists.{first};
    ghost use Rattle.lload_spec.specs.Choice.{DeskFacts, connection_for, or_busy, candidates, pick, is_viable_tier, pick_of_tiers, pick_of_backend, pick_of_connection, right_answer};
    ghost use Rattle.desk_tables.specs.Choices.{AreEligible};
    ghost use Rattle.desk_choice.specs.Tells.{Tells, IsTier};

    /// The right answer to a want, with a random word that draws the order of a weighted tier.
    pub fn answer(&self, want: Want, word: u64) -> Answer
        ensures { (s : Settings) (f : DeskFacts) → Tells s f self.now → result ≡ right_answer s f want word }
    {
        match want.bound {
            Bound::Free => self.pick_of_tiers(want.kind, word),
            Bound::Backend(number) => self.pick_of_backend(want.kind, number),
            Bound::Conn(conn) => self.pick_of_connection(want.kind, conn),
        }
    }

    /// The pick of the first tier that has a viable connection of a kind.
    fn pick_of_tiers(&self, kind: ConnKind, word: u64) -> Answer
        ensures { (s : Settings) (f : DeskFacts) → Tells s f self.now → result ≡ pick_of_tiers s f kind word f.tiers }
    {
        for round in self.rounds.as_slice() {
            if self.is_viable_tier(round, kind) {
                return self.pick(round, kind, word);
            }
        }
        Answer::Unavailable
    }

    /// Whether a tier has a viable connection of a kind.
    fn is_viable_tier(&self, round: &Round, kind: ConnKind) -> bool
        ensures { (s : Settings) (f : DeskFacts) (i : ℕ) (t : TierPlan) → Tells s f self.now → IsTier f self.now i t round.now → result ≡ is_viable_tier s f kind t }
    {
        for place in 0..round.count() {
            if self.has_viable(round, place, kind) {
                return true;
            }
        }
        false
    }

    /// Whether the backend at a place of a tier has a viable connection of a kind.
    fn has_viable(&self, round: &Round, place: usize, kind: ConnKind) -> bool
        ensures { result ≡ viable_at self.now.servers.items (round.now.first + place) kind }
    {
        match self.server_of(round, place) {
            Some(server) => server.lane(kind).viable > 0,
            None => false,
        }
    }

    /// The backend at a place of a tier.
    fn server_of(&self, round: &Round, place: usize) -> Option<&Server>
        ensures { MatchOption result (slice_get self.now.servers.items (round.now.first + place) ≡ None) (λ server. slice_get self.now.servers.items (round.now.first + place) ≡ Some server.now) }
    {
        let index = round.first().checked_add(place)?;
        self.server(index)
    }

    /// The backend with this index among all.
    fn server(&self, index: usize) -> Option<&Server>
        ensures { MatchOption result (slice_get self.now.servers.items index ≡ None) (λ server. slice_get self.now.servers.items index ≡ Some server.now) }
    {
        self.servers.get(index)
    }

    /// The pick of a tier.
    fn pick(&self, round: &Round, kind: ConnKind, word: u64) -> Answer
        ensures { (s : Settings) (f : DeskFacts) (i : ℕ) (t : TierPlan) → Tells s f self.now → IsTier f self.now i t round.now → result ≡ pick s f t kind word }
    {
        let eligible = self.eligible(round, kind);
        let Some(place) = round.choose(&eligible, word) else {
            return Answer::Busy;
        };
        match self.server_of(round, place as usize) {
            Some(server) => self.go(server, kind),
            None => Answer::Busy,
        }
    }

    /// Which of a tier's backends have an eligible connection of a kind, by their places in the tier.
    fn eligible(&self, round: &Round, kind: ConnKind) -> Flags
        ensures { (s : Settings) (f : DeskFacts) (i : ℕ) (t : TierPlan) → Tells s f self.now → IsTier f self.now i t round.now → AreEligible s f kind t result }
    {
        let mut eligible = Flags::new();
        for place in 0..round.count().min(64) {
            eligible.set(place as u32, self.has_eligible(round, place, kind));
        }
        eligible
    }

    /// Whether the backend at a place of a tier has an eligible connection of a kind.
    fn has_eligible(&self, round: &Round, place: usize, kind: ConnKind) -> bool
        ensures { (s : Settings) (f : DeskFacts) (i : ℕ) (t : TierPlan) (b : BackendPlan) → Tells s f self.now → IsTier f self.now i t round.now → slice_get t.backends place ≡ Some b → result ≡ is_some (connection_for s f kind b) }
    {
        match self.server_of(round, place) {
            Some(server) => self.connection_for(server, kind).is_some(),
            None => false,
        }
    }

    /// The answer with the connection that stands for a backend; Busy where there is none.
    fn go(&self, server: &Server, kind: ConnKind) -> Answer
        ensures { (s : Settings) (f : DeskFacts) (j : ℕ) → Tells s f self.now → slice_get self.now.servers.items j ≡ Some server.now → result ≡ or_busy (first (candidates s f kind (server.now.plan ∷ []))) }
    {
        match self.connection_for(server, kind) {
            Some(conn) => Answer::Go {
                conn,
                backend: server.plan.number,
            },
            None => Answer::Busy,
        }
    }

    /// The connection that stands for a backend: of the first of its places in turn that has an eligible one.
    fn connection_for(&self, server: &Server, kind: ConnKind) -> Option<u32>
        ensures { (s : Settings) (f : DeskFacts) (j : ℕ) → Tells s f self.now → slice_get self.now.servers.items j ≡ Some server.now → result ≡ connection_for s f kind server.now.plan }
    {
        if !server.is_open() {
            return None;
        }
        let lane = server.lane(kind);
        self.ready.next_in_turn(lane.last, lane.from, lane.to)
    }

    /// The answer for one backend in place of a tier.
    fn pick_of_backend(&self, kind: ConnKind, number: u32) -> Answer
        ensures { (s : Settings) (f : DeskFacts) → Tells s f self.now → result ≡ pick_of_backend s f kind number }
    {
        let Some(index) = numbered(self.servers.as_slice(), number) else {
            return Answer::Unavailable;
        };
        let server = &self.servers[index];
        if server.lane(kind).viable > 0 {
            self.go(server, kind)
        } else {
            Answer::Unavailable
        }
    }

    /// The answer for one connection in place of a tier.
    fn pick_of_connection(&self, kind: ConnKind, conn: u32) -> Answer
        ensures { (s : Settings) (f : DeskFacts) → Tells s f self.now → result ≡ pick_of_connection s f kind conn }
    {
        let Some(row) = self.conns.row(conn) else {
            return Answer::Unavailable;
        };
        if !row.is_usable(kind) {
            return Answer::Unavailable;
        }
        let Some(server) = self.server(row.spot.server) else {
            return Answer::Unavailable;
        };
        if server.is_open() && row.is_ready() {
            Answer::Go {
                conn,
                backend: row.place.backend,
            }
        } else {
            Answer::Busy
        }
    }
}
