//! The parts of the proxy, described one by one: the state of a client, of an upstream connection and of the desk, as what
//! the part's own list says; the turn that each input makes; when a letter is fit for its receiver; and what of the
//! promises one list keeps by itself.
//!
//! The definitions stand in `specs/`, one file for each topic. A state is a left fold of the list, whose entries carry the
//! letters that they mark, and a turn looks at the state alone: so a part's code holds what the state says, appends what
//! the turn gives, and is proved against both. The world of all parts and the journal of a script are functions, and the law on
//! merging is stated beside them. The functions of this crate have empty bodies: their contracts are laws of the definitions.
#![tactic(auto)]

ghost use Rattle.part_spec.specs.ClientState.{client_of};
ghost use Rattle.part_spec.specs.ClientTurn.{client_turn, client_sever};
ghost use Rattle.part_spec.specs.ConnectionState.{connection_of};
ghost use Rattle.part_spec.specs.DeskState.{desk_of};
ghost use Rattle.part_spec.specs.DeskTurn.{desk_turn};
ghost use Rattle.part_spec.specs.Fit.{is_fit};
ghost use Rattle.part_spec.specs.Gives.{gives};
ghost use Rattle.part_spec.specs.Laws.{ClientTested, ClientsFold, ClientsGive, ConnectionTested, ConnectionWaits, ConnectionsFold, ConnectionsGive, DeskPlans, DeskTested, DesksFold, DesksGive, FitIsWhole, ShareTested};
ghost use Rattle.part_spec.specs.Linked.{AtRest, Linked};
ghost use Rattle.part_spec.specs.Merge.{MergeLaw};
ghost use Rattle.part_spec.specs.Play.{Follows};
ghost use Rattle.part_spec.specs.Share.{Share};
ghost use Rattle.part_spec.specs.Stamps.{StampedLinked};
ghost use Rattle.part_spec.specs.Turn.{connection_turn, connection_sever};

/// The state behind a list and more entries is the state behind these from the state behind the list.
pub fn states_fold()
    ensures clients { ClientsFold }
    ensures connections { ConnectionsFold }
    ensures desks { DesksFold }
{}

/// What a list and more entries give is what the list gives, and then what these give.
pub fn what_is_given_grows()
    ensures clients { ClientsGive }
    ensures connections { ConnectionsGive }
    ensures desks { DesksGive }
{}

/// The states say what the lists say: of the plan in force, and of the clients for which a connection pauses.
pub fn states_say_so()
    ensures plans { DeskPlans }
    ensures waits { ConnectionWaits }
{}

/// Where each letter of a part's list was fit, its fit beginning is the whole list: then its share is of all of it.
pub fn a_fit_list_begins_with_all_of_it()
    ensures { FitIsWhole }
{}

/// Each share holds exactly where its computed test passes.
pub fn shares_are_tested()
    ensures client { ClientTested }
    ensures connection { ConnectionTested }
    ensures desk { DeskTested }
    ensures share { ShareTested }
{}
