//! More scripts of identifiers that are used again, of clients that don't read, of Cancels, and of another plan: the turns make
//! the worked journals, each letter is fit, each list keeps its share, and the letters are those that the lists stand for.

ghost use Rattle.std.specs.Prelude.{◌≡◌, ◌∷◌, [], IsTrue};
ghost use Rattle.lload_names.specs.declared.names.PartName.TheVariants.{Desk, Client, Up as Connection};
ghost use Rattle.lload_spec.specs.Plain.{plain};
ghost use Rattle.part_spec.specs.Play.{played};
ghost use Rattle.part_spec.specs.World.{journal_of};
ghost use Rattle.part_examples.specs.Shares.{are_given, are_kept, are_stamped, keeps_promises};
ghost use Rattle.spec_examples.specs.Binds.{chosen_behind_loss};
ghost use Rattle.spec_examples.specs.Configurations.{impatient, in_turn_anew, proxying, restricting_anew, writing_anew};
ghost use Rattle.spec_examples.specs.Reuses.{late_to_freed, binds_again, bound_in_turn};
ghost use Rattle.spec_examples.specs.Stalls.{two_stalled, paused_behind_loss, lost_while_paused, expired_while_paused};
ghost use Rattle.spec_examples.specs.Cancels.{bind_answered_named, success_of_upstream, canceled_by_upstream};
ghost use Rattle.spec_examples.specs.Reloads.{written_before, restricted_before, picked_anew};
ghost use Rattle.feature_examples.specs.FurtherScripts.{late_to_freed_script, binds_again_script, bound_in_turn_script, two_stalled_script, paused_behind_loss_script, lost_while_paused_script, expired_while_paused_script, bind_answered_named_script, success_of_upstream_script, canceled_by_upstream_script, written_before_script, restricted_before_script, picked_anew_script, chosen_behind_loss_script};

/// A late answer under a freed identifier that no operation has is dropped.
pub fn late_to_freed_is_played()
    ensures journal { journal_of (played plain late_to_freed_script) ≡ late_to_freed }
    ensures promises { IsTrue (keeps_promises plain (played plain late_to_freed_script)) }
    ensures shares { IsTrue (are_kept plain (Desk ∷ Client 1 ∷ Connection 1 ∷ []) (played plain late_to_freed_script)) }
    ensures letters { IsTrue (are_given plain (Desk ∷ Client 1 ∷ Connection 1 ∷ []) (played plain late_to_freed_script)) }
    ensures stamps { IsTrue (are_stamped (Desk ∷ Client 1 ∷ Connection 1 ∷ []) (played plain late_to_freed_script)) }
{}

/// Each Bind of an exchange, and each later Bind, gets the freed identifier; that of a Who Am I is not used again.
pub fn binds_again_is_played()
    ensures journal { journal_of (played proxying binds_again_script) ≡ binds_again }
    ensures promises { IsTrue (keeps_promises proxying (played proxying binds_again_script)) }
    ensures shares { IsTrue (are_kept proxying (Desk ∷ Client 1 ∷ Connection 1 ∷ Connection 2 ∷ []) (played proxying binds_again_script)) }
    ensures letters { IsTrue (are_given proxying (Desk ∷ Client 1 ∷ Connection 1 ∷ Connection 2 ∷ []) (played proxying binds_again_script)) }
    ensures stamps { IsTrue (are_stamped (Desk ∷ Client 1 ∷ Connection 1 ∷ Connection 2 ∷ []) (played proxying binds_again_script)) }
{}

/// Two clients use one bind connection in turn.
pub fn bound_in_turn_is_played()
    ensures journal { journal_of (played proxying bound_in_turn_script) ≡ bound_in_turn }
    ensures promises { IsTrue (keeps_promises proxying (played proxying bound_in_turn_script)) }
    ensures shares { IsTrue (are_kept proxying (Desk ∷ Client 1 ∷ Client 2 ∷ Connection 1 ∷ Connection 2 ∷ []) (played proxying bound_in_turn_script)) }
    ensures letters { IsTrue (are_given proxying (Desk ∷ Client 1 ∷ Client 2 ∷ Connection 1 ∷ Connection 2 ∷ []) (played proxying bound_in_turn_script)) }
    ensures stamps { IsTrue (are_stamped (Desk ∷ Client 1 ∷ Client 2 ∷ Connection 1 ∷ Connection 2 ∷ []) (played proxying bound_in_turn_script)) }
{}

/// Two clients pause one connection, which is read again when both flow.
pub fn two_stalled_is_played()
    ensures journal { journal_of (played plain two_stalled_script) ≡ two_stalled }
    ensures promises { IsTrue (keeps_promises plain (played plain two_stalled_script)) }
    ensures shares { IsTrue (are_kept plain (Desk ∷ Client 1 ∷ Client 2 ∷ Connection 1 ∷ []) (played plain two_stalled_script)) }
    ensures letters { IsTrue (are_given plain (Desk ∷ Client 1 ∷ Client 2 ∷ Connection 1 ∷ []) (played plain two_stalled_script)) }
    ensures stamps { IsTrue (are_stamped (Desk ∷ Client 1 ∷ Client 2 ∷ Connection 1 ∷ []) (played plain two_stalled_script)) }
{}

/// A client stalls and flows before it learns that its connection is lost; the connection is told so behind its end.
pub fn paused_behind_loss_is_played()
    ensures journal { journal_of (played plain paused_behind_loss_script) ≡ paused_behind_loss }
    ensures promises { IsTrue (keeps_promises plain (played plain paused_behind_loss_script)) }
    ensures shares { IsTrue (are_kept plain (Desk ∷ Client 1 ∷ Connection 1 ∷ []) (played plain paused_behind_loss_script)) }
    ensures letters { IsTrue (are_given plain (Desk ∷ Client 1 ∷ Connection 1 ∷ []) (played plain paused_behind_loss_script)) }
    ensures stamps { IsTrue (are_stamped (Desk ∷ Client 1 ∷ Connection 1 ∷ []) (played plain paused_behind_loss_script)) }
{}

/// A paused connection is lost with two operations; when its client flows, it is told so behind its end.
pub fn lost_while_paused_is_played()
    ensures journal { journal_of (played plain lost_while_paused_script) ≡ lost_while_paused }
    ensures promises { IsTrue (keeps_promises plain (played plain lost_while_paused_script)) }
    ensures shares { IsTrue (are_kept plain (Desk ∷ Client 1 ∷ Connection 1 ∷ []) (played plain lost_while_paused_script)) }
    ensures letters { IsTrue (are_given plain (Desk ∷ Client 1 ∷ Connection 1 ∷ []) (played plain lost_while_paused_script)) }
    ensures stamps { IsTrue (are_stamped (Desk ∷ Client 1 ∷ Connection 1 ∷ []) (played plain lost_while_paused_script)) }
{}

/// A Delete expires on a connection that is paused for its client.
pub fn expired_while_paused_is_played()
    ensures journal { journal_of (played impatient expired_while_paused_script) ≡ expired_while_paused }
    ensures promises { IsTrue (keeps_promises impatient (played impatient expired_while_paused_script)) }
    ensures shares { IsTrue (are_kept impatient (Desk ∷ Client 1 ∷ Connection 1 ∷ []) (played impatient expired_while_paused_script)) }
    ensures letters { IsTrue (are_given impatient (Desk ∷ Client 1 ∷ Connection 1 ∷ []) (played impatient expired_while_paused_script)) }
    ensures stamps { IsTrue (are_stamped (Desk ∷ Client 1 ∷ Connection 1 ∷ []) (played impatient expired_while_paused_script)) }
{}

/// A Cancel names the identifier of a Bind that was answered.
pub fn bind_answered_named_is_played()
    ensures journal { journal_of (played plain bind_answered_named_script) ≡ bind_answered_named }
    ensures promises { IsTrue (keeps_promises plain (played plain bind_answered_named_script)) }
    ensures shares { IsTrue (are_kept plain (Desk ∷ Client 1 ∷ Connection 1 ∷ Connection 2 ∷ []) (played plain bind_answered_named_script)) }
    ensures letters { IsTrue (are_given plain (Desk ∷ Client 1 ∷ Connection 1 ∷ Connection 2 ∷ []) (played plain bind_answered_named_script)) }
    ensures stamps { IsTrue (are_stamped (Desk ∷ Client 1 ∷ Connection 1 ∷ Connection 2 ∷ []) (played plain bind_answered_named_script)) }
{}

/// An upstream answers an extended request with the octets of a Cancel's success; its identifier is free then.
pub fn success_of_upstream_is_played()
    ensures journal { journal_of (played plain success_of_upstream_script) ≡ success_of_upstream }
    ensures promises { IsTrue (keeps_promises plain (played plain success_of_upstream_script)) }
    ensures shares { IsTrue (are_kept plain (Desk ∷ Client 1 ∷ Connection 1 ∷ []) (played plain success_of_upstream_script)) }
    ensures letters { IsTrue (are_given plain (Desk ∷ Client 1 ∷ Connection 1 ∷ []) (played plain success_of_upstream_script)) }
    ensures stamps { IsTrue (are_stamped (Desk ∷ Client 1 ∷ Connection 1 ∷ []) (played plain success_of_upstream_script)) }
{}

/// An upstream answers a Search that it is canceled; its identifier is free then.
pub fn canceled_by_upstream_is_played()
    ensures journal { journal_of (played plain canceled_by_upstream_script) ≡ canceled_by_upstream }
    ensures promises { IsTrue (keeps_promises plain (played plain canceled_by_upstream_script)) }
    ensures shares { IsTrue (are_kept plain (Desk ∷ Client 1 ∷ Connection 1 ∷ []) (played plain canceled_by_upstream_script)) }
    ensures letters { IsTrue (are_given plain (Desk ∷ Client 1 ∷ Connection 1 ∷ []) (played plain canceled_by_upstream_script)) }
    ensures stamps { IsTrue (are_stamped (Desk ∷ Client 1 ∷ Connection 1 ∷ []) (played plain canceled_by_upstream_script)) }
{}

/// A client whose write bound it to a backend of the plan before finds no connection.
pub fn written_before_is_played()
    ensures journal { journal_of (played writing_anew written_before_script) ≡ written_before }
    ensures promises { IsTrue (keeps_promises writing_anew (played writing_anew written_before_script)) }
    ensures shares { IsTrue (are_kept writing_anew (Desk ∷ Client 1 ∷ Connection 1 ∷ Connection 2 ∷ []) (played writing_anew written_before_script)) }
    ensures letters { IsTrue (are_given writing_anew (Desk ∷ Client 1 ∷ Connection 1 ∷ Connection 2 ∷ []) (played writing_anew written_before_script)) }
    ensures stamps { IsTrue (are_stamped (Desk ∷ Client 1 ∷ Connection 1 ∷ Connection 2 ∷ []) (played writing_anew written_before_script)) }
{}

/// So does a client that a request bound to a connection of the plan before, though that connection is up.
pub fn restricted_before_is_played()
    ensures journal { journal_of (played restricting_anew restricted_before_script) ≡ restricted_before }
    ensures promises { IsTrue (keeps_promises restricting_anew (played restricting_anew restricted_before_script)) }
    ensures shares { IsTrue (are_kept restricting_anew (Desk ∷ Client 1 ∷ Connection 1 ∷ Connection 2 ∷ []) (played restricting_anew restricted_before_script)) }
    ensures letters { IsTrue (are_given restricting_anew (Desk ∷ Client 1 ∷ Connection 1 ∷ Connection 2 ∷ []) (played restricting_anew restricted_before_script)) }
    ensures stamps { IsTrue (are_stamped (Desk ∷ Client 1 ∷ Connection 1 ∷ Connection 2 ∷ []) (played restricting_anew restricted_before_script)) }
{}

/// The order of backends begins anew behind another plan.
pub fn picked_anew_is_played()
    ensures journal { journal_of (played in_turn_anew picked_anew_script) ≡ picked_anew }
    ensures promises { IsTrue (keeps_promises in_turn_anew (played in_turn_anew picked_anew_script)) }
    ensures shares { IsTrue (are_kept in_turn_anew (Desk ∷ Client 1 ∷ Connection 1 ∷ Connection 2 ∷ Connection 3 ∷ Connection 4 ∷ []) (played in_turn_anew picked_anew_script)) }
    ensures letters { IsTrue (are_given in_turn_anew (Desk ∷ Client 1 ∷ Connection 1 ∷ Connection 2 ∷ Connection 3 ∷ Connection 4 ∷ []) (played in_turn_anew picked_anew_script)) }
    ensures stamps { IsTrue (are_stamped (Desk ∷ Client 1 ∷ Connection 1 ∷ Connection 2 ∷ Connection 3 ∷ Connection 4 ∷ []) (played in_turn_anew picked_anew_script)) }
{}

/// The desk chooses a bind connection behind the end of an exchange there, before it hears that the connection is lost.
pub fn chosen_behind_loss_is_played()
    ensures journal { journal_of (played proxying chosen_behind_loss_script) ≡ chosen_behind_loss }
    ensures promises { IsTrue (keeps_promises proxying (played proxying chosen_behind_loss_script)) }
    ensures shares { IsTrue (are_kept proxying (Desk ∷ Client 1 ∷ Client 2 ∷ Connection 1 ∷ Connection 2 ∷ []) (played proxying chosen_behind_loss_script)) }
    ensures letters { IsTrue (are_given proxying (Desk ∷ Client 1 ∷ Client 2 ∷ Connection 1 ∷ Connection 2 ∷ []) (played proxying chosen_behind_loss_script)) }
    ensures stamps { IsTrue (are_stamped (Desk ∷ Client 1 ∷ Client 2 ∷ Connection 1 ∷ Connection 2 ∷ []) (played proxying chosen_behind_loss_script)) }
{}
