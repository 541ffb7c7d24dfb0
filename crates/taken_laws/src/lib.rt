//! Which letters a part may take: what the steps of the parts ask of a letter holds of each letter that is fit, and so
//! of each that waits first in a run.
//!
//! Each function has an empty body, or calls the laws that it rests on, and its contract is a law. A layer above may
//! rely on them for each list, and for each run: they speak of the parts' states alone.
#![tactic(auto)]

ghost use Rattle.taken_laws.specs.Laws.{DeskHoldsOnce, FitForBind, FitForDesk, FitForRegular};
ghost use Rattle.taken_laws.specs.Runs.{DeskOfRunsHoldsOnce, FirstUpsAreLinked, FirstUpsAreOfPlans};
ghost use Rattle.taken_laws.specs.Runs.{FirstsForBind, FirstsForClient, FirstsForDesk, FirstsForRegular};

/// By each list of a connection, a letter that is fit behind it may be taken by the connection's state there.
pub fn a_fit_letter_may_be_taken_by_a_connection()
    ensures regular { FitForRegular }
    ensures bind { FitForBind }
{}

/// By each list of the desk's turns in which each letter was fit, an operation is pending at most once, and so is a
/// connection viable. A letter that is fit behind it may be taken by the desk's state there.
pub fn a_fit_letter_may_be_taken_by_the_desk()
    ensures once { DeskHoldsOnce }
    ensures desk { FitForDesk }
{}

/// Whatever moves the parts make, the letter that waits first from a sender may be taken by its receiver's state; and
/// at the desk an operation is pending at most once, and a connection viable at most once.
pub fn a_letter_that_waits_first_may_be_taken()
    ensures regular { FirstsForRegular }
    ensures bind { FirstsForBind }
    ensures desk { FirstsForDesk }
    ensures client { FirstsForClient }
    ensures once { DeskOfRunsHoldsOnce }
{
    fitness_laws::letters_are_fit();
    link_laws::states_are_of_lists();
    due_laws::a_choice_of_a_run_is_due();
    a_fit_letter_may_be_taken_by_a_connection();
    a_fit_letter_may_be_taken_by_the_desk();
}

/// That a connection is up waits first at the desk only where it was linked. So, where the settings agree with the
/// world, it is one of the plans so far.
pub fn a_connection_that_is_up_is_of_the_plans_so_far()
    ensures linked { FirstUpsAreLinked }
    ensures plans { FirstUpsAreOfPlans }
{
    fitness_laws::letters_are_fit();
    fitness_laws::parts_are_linked();
    link_laws::states_are_of_lists();
}
