//! A choice that comes to a client is due: the desk was asked for its operation, and that one wasn't forwarded yet.
//! `client_session` asks this of each letter that its part takes (`IsFit` in its specs), by the client's state.
//!
//! Each function has an empty body, or calls the laws that it rests on, and its contract is a law. A layer above may
//! rely on them for each list, and for each run.
#![tactic(auto)]

ghost use Rattle.due_laws.specs.Laws.{AskedWait, FitChoicesAreDue};
ghost use Rattle.due_laws.specs.Runs.{FirstChoicesAreDue, FirstsAreFit, TakenChoicesAreDue};

/// By each list of a client, fit or not, an operation that the desk was asked for wasn't forwarded yet. So a choice
/// that is fit for a client behind its list is due there.
pub fn a_fit_choice_is_due()
    ensures waits { AskedWait }
    ensures due { FitChoicesAreDue }
{}

/// Whatever moves the parts make, the letter that waits first between two parts is fit where it will be taken. So a
/// choice that waits first for a client is due by the client's state, and so is the one that it takes from a sender.
pub fn a_choice_of_a_run_is_due()
    ensures firsts { FirstsAreFit }
    ensures choices { FirstChoicesAreDue }
    ensures taken { TakenChoicesAreDue }
{
    fitness_laws::letters_are_fit();
    link_laws::states_are_of_lists();
    a_fit_choice_is_due();
}
