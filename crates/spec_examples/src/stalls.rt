//! Worked journals of clients that don't read, which keep every promise; at their ends nothing is left to be taken.

ghost use Rattle.lload_spec.specs.Journal.{family};
ghost use Rattle.lload_spec.specs.Good.{Good};
ghost use Rattle.lload_spec.specs.Settled.{Settled};
ghost use Rattle.lload_spec.specs.Strict.{Strict};
ghost use Rattle.lload_spec.specs.WellFormed.{WellFormed};
ghost use Rattle.lload_spec.specs.Plain.{plain};
ghost use Rattle.spec_examples.specs.Configurations.{impatient};
ghost use Rattle.spec_examples.specs.Stalls.{two_stalled, paused_behind_loss, lost_while_paused, expired_while_paused, stalled_and_flowing, stalled_and_gone, forwarded_while_stalled};

/// A connection is paused while its client is stalled, and read again then.
pub fn stalled_and_flowing_is_good()
    ensures good { Good plain (family stalled_and_flowing) }
    ensures strict { Strict plain (family stalled_and_flowing) }
    ensures settled { Settled plain (family stalled_and_flowing) }
    ensures well_formed { WellFormed stalled_and_flowing }
{}

/// A client that is stalled leaves: the Search is abandoned, and the connection is read again.
pub fn stalled_and_gone_is_good()
    ensures good { Good plain (family stalled_and_gone) }
    ensures strict { Strict plain (family stalled_and_gone) }
    ensures settled { Settled plain (family stalled_and_gone) }
    ensures well_formed { WellFormed stalled_and_gone }
{}

/// A Delete that is forwarded by a stalled client pauses its connection.
pub fn forwarded_while_stalled_is_good()
    ensures good { Good plain (family forwarded_while_stalled) }
    ensures strict { Strict plain (family forwarded_while_stalled) }
    ensures settled { Settled plain (family forwarded_while_stalled) }
    ensures well_formed { WellFormed forwarded_while_stalled }
{}

/// Two clients pause one connection, which is read again when both flow.
pub fn two_stalled_is_good()
    ensures good { Good plain (family two_stalled) }
    ensures strict { Strict plain (family two_stalled) }
    ensures settled { Settled plain (family two_stalled) }
    ensures well_formed { WellFormed two_stalled }
{}

/// A client stalls and flows before it learns that its connection is lost; the connection is told so behind its end.
pub fn paused_behind_loss_is_good()
    ensures good { Good plain (family paused_behind_loss) }
    ensures strict { Strict plain (family paused_behind_loss) }
    ensures settled { Settled plain (family paused_behind_loss) }
    ensures well_formed { WellFormed paused_behind_loss }
{}

/// A paused connection is lost with two operations; when its client flows, it is told so behind its end.
pub fn lost_while_paused_is_good()
    ensures good { Good plain (family lost_while_paused) }
    ensures strict { Strict plain (family lost_while_paused) }
    ensures settled { Settled plain (family lost_while_paused) }
    ensures well_formed { WellFormed lost_while_paused }
{}

/// A Delete expires on a connection that is paused for its client.
pub fn expired_while_paused_is_good()
    ensures good { Good impatient (family expired_while_paused) }
    ensures strict { Strict impatient (family expired_while_paused) }
    ensures settled { Settled impatient (family expired_while_paused) }
    ensures well_formed { WellFormed expired_while_paused }
{}
