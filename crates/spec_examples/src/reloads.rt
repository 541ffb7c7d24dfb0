//! Worked journals of another plan while the proxy runs, which keep every promise; at their ends nothing is left to be taken.

ghost use Rattle.lload_spec.specs.Journal.{family};
ghost use Rattle.lload_spec.specs.Good.{Good};
ghost use Rattle.lload_spec.specs.Settled.{Settled};
ghost use Rattle.lload_spec.specs.Strict.{Strict};
ghost use Rattle.lload_spec.specs.WellFormed.{WellFormed};
ghost use Rattle.spec_examples.specs.Configurations.{proxying_anew, reloading, writing_anew, restricting_anew, in_turn_anew};
ghost use Rattle.spec_examples.specs.Reloads.{written_before, restricted_before, picked_anew, taken_while_running, exchange_goes_on, not_ready_yet};

/// A Delete goes on at a connection of the plan before, and one behind it goes to the new plan.
pub fn taken_while_running_is_good()
    ensures good { Good reloading (family taken_while_running) }
    ensures strict { Strict reloading (family taken_while_running) }
    ensures settled { Settled reloading (family taken_while_running) }
    ensures well_formed { WellFormed taken_while_running }
{}

/// A SASL exchange goes on at its connection, which belongs to the plan before.
pub fn exchange_goes_on_is_good()
    ensures good { Good proxying_anew (family exchange_goes_on) }
    ensures strict { Strict proxying_anew (family exchange_goes_on) }
    ensures settled { Settled proxying_anew (family exchange_goes_on) }
    ensures well_formed { WellFormed exchange_goes_on }
{}

/// No connection of the new plan is ready, though one of the plan before is up.
pub fn not_ready_yet_is_good()
    ensures good { Good reloading (family not_ready_yet) }
    ensures strict { Strict reloading (family not_ready_yet) }
    ensures settled { Settled reloading (family not_ready_yet) }
    ensures well_formed { WellFormed not_ready_yet }
{}

/// A client whose write bound it to a backend of the plan before finds no connection.
pub fn written_before_is_good()
    ensures good { Good writing_anew (family written_before) }
    ensures strict { Strict writing_anew (family written_before) }
    ensures settled { Settled writing_anew (family written_before) }
    ensures well_formed { WellFormed written_before }
{}

/// So does a client that a request bound to a connection of the plan before, though that connection is up.
pub fn restricted_before_is_good()
    ensures good { Good restricting_anew (family restricted_before) }
    ensures strict { Strict restricting_anew (family restricted_before) }
    ensures settled { Settled restricting_anew (family restricted_before) }
    ensures well_formed { WellFormed restricted_before }
{}

/// The order of backends begins anew behind another plan.
pub fn picked_anew_is_good()
    ensures good { Good in_turn_anew (family picked_anew) }
    ensures strict { Strict in_turn_anew (family picked_anew) }
    ensures settled { Settled in_turn_anew (family picked_anew) }
    ensures well_formed { WellFormed picked_anew }
{}
