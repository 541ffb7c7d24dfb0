//! Worked journals of Cancels (RFC 3909), which keep every promise; at their ends nothing is left to be taken.

ghost use Rattle.std.specs.Prelude.{IsFalse, IsTrue};
ghost use Rattle.lload_spec.specs.Journal.{family};
ghost use Rattle.lload_spec.specs.Good.{Good};
ghost use Rattle.lload_spec.specs.Settled.{Settled};
ghost use Rattle.lload_spec.specs.Strict.{Strict};
ghost use Rattle.lload_spec.specs.WellFormed.{WellFormed};
ghost use Rattle.lload_spec.specs.Plain.{plain};
ghost use Rattle.spec_examples.specs.Cancels.{bind_answered_named, success_of_upstream, canceled_by_upstream, bind_in_progress_canceled, bind_told_canceled, search_ended, none_named, is_ended_in, itself_named, value_unread, choice_behind_cancel};

/// A Search is canceled behind an entry; what its upstream sends then is dropped.
pub fn search_ended_is_good()
    ensures good { Good plain (family search_ended) }
    ensures strict { Strict plain (family search_ended) }
    ensures settled { Settled plain (family search_ended) }
    ensures well_formed { WellFormed search_ended }
{}

/// A Cancel names no live operation, and the Search goes on.
pub fn none_named_is_good()
    ensures good { Good plain (family none_named) }
    ensures strict { Strict plain (family none_named) }
    ensures settled { Settled plain (family none_named) }
    ensures well_formed { WellFormed none_named }
{}

/// A Cancel names itself.
pub fn itself_named_is_good()
    ensures good { Good plain (family itself_named) }
    ensures strict { Strict plain (family itself_named) }
    ensures settled { Settled plain (family itself_named) }
    ensures well_formed { WellFormed itself_named }
{}

/// A Cancel's value can't be read.
pub fn value_unread_is_good()
    ensures good { Good plain (family value_unread) }
    ensures strict { Strict plain (family value_unread) }
    ensures settled { Settled plain (family value_unread) }
    ensures well_formed { WellFormed value_unread }
{}

/// A Delete is canceled before its choice comes, which is returned.
pub fn choice_behind_cancel_is_good()
    ensures good { Good plain (family choice_behind_cancel) }
    ensures strict { Strict plain (family choice_behind_cancel) }
    ensures settled { Settled plain (family choice_behind_cancel) }
    ensures well_formed { WellFormed choice_behind_cancel }
{}

/// Whoever is told directly behind a Cancel that names it that it is canceled, was ended by its client, a Bind too; elsewhere these
/// octets are an answer.
pub fn a_cancel_ends_what_it_names()
    ensures behind_a_cancel { IsTrue (is_ended_in bind_in_progress_canceled) }
    ensures elsewhere { IsFalse (is_ended_in bind_told_canceled) }
    ensures by_an_upstream { IsFalse (is_ended_in canceled_by_upstream) }
{}

/// A Cancel names the identifier of a Bind that was answered.
pub fn bind_answered_named_is_good()
    ensures good { Good plain (family bind_answered_named) }
    ensures strict { Strict plain (family bind_answered_named) }
    ensures settled { Settled plain (family bind_answered_named) }
    ensures well_formed { WellFormed bind_answered_named }
{}

/// An upstream answers an extended request with the octets of a Cancel's success; its identifier is free then.
pub fn success_of_upstream_is_good()
    ensures good { Good plain (family success_of_upstream) }
    ensures strict { Strict plain (family success_of_upstream) }
    ensures settled { Settled plain (family success_of_upstream) }
    ensures well_formed { WellFormed success_of_upstream }
{}

/// An upstream answers a Search that it is canceled; its identifier is free then.
pub fn canceled_by_upstream_is_good()
    ensures good { Good plain (family canceled_by_upstream) }
    ensures strict { Strict plain (family canceled_by_upstream) }
    ensures settled { Settled plain (family canceled_by_upstream) }
    ensures well_formed { WellFormed canceled_by_upstream }
{}
