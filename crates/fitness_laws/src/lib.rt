//! Fitness: each letter is fit where it is taken.
//!
//! A world of the machine stands for each world that the parts make: each turn is a list of moves. The machine's law
//! says that the letters which wait first are fit there; so they are fit for the parts, and each letter that is taken
//! leaves a mark. From this it follows, without any further induction, that the lists of the parts are linked.
#![tactic(auto)]

ghost use Rattle.stands_laws.specs.Laws.{BookLaw};
ghost use Rattle.fitness_laws.specs.Fitness.{FirstFitLaw, FitnessLaw, MarksLaw, RulesLaw};
ghost use Rattle.fitness_laws.specs.Linked.{AllTakenAtRest, AlwaysGives, AlwaysLater, AlwaysLinked, AlwaysLinks};
ghost use Rattle.fitness_laws.specs.Linked.{AlwaysShares};

/// Each run has a book from the beginning: the request of each of its operations, with its action, and whether it
/// goes on in an exchange.
pub fn each_run_has_a_book()
    ensures { BookLaw }
{}

/// Where the machine stands for a world, each letter that waits first is fit where it will be taken.
pub fn first_letters_are_fit()
    ensures { FirstFitLaw }
{}

/// Where the machine stands for a world, and each part's state is that of its list, each letter that waits has a
/// rule: a turn that takes it has an entry, whatever the moment.
pub fn waiting_letters_have_rules()
    ensures { RulesLaw }
{}

/// Whatever moves the parts make, each letter of each part's list was fit where it was taken, each letter that waits
/// has a rule in its receiver's state, and each that was taken left a mark.
pub fn letters_are_fit()
    ensures fitness { FitnessLaw }
    ensures marks { MarksLaw }
{}

/// So what each part gave another is what this one took, in order, and then what waits, and each mark has a greater
/// stamp than its letter. Where links end for reasons that a link has, the lists of the parts are linked, what each
/// part gave is what its list gives, where nothing waits all of it was taken, and the lists of the desk and of
/// connections keep their shares of the promises, whole.
pub fn parts_are_linked()
    ensures links { AlwaysLinks }
    ensures later { AlwaysLater }
    ensures linked { AlwaysLinked }
    ensures gives { AlwaysGives }
    ensures at_rest { AllTakenAtRest }
    ensures shares { AlwaysShares }
{
    part_spec::a_fit_list_begins_with_all_of_it();
    link_laws::links_hold();
    link_laws::worlds_are_linked();
    link_laws::the_desk_is_linked();
    link_laws::clients_are_linked();
    link_laws::connections_are_linked();
}
