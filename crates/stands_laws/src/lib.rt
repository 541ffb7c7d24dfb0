//! What it means that the machine of small moves stands for the parts, and what each part's turns owe for it.
//!
//! A part's state, with the letters that it took, says of the machine's part how far each operation is there; a letter of
//! the machine stands for each letter in flight. What is in requests and letters is said by the book of the run, which never
//! changes. A layer above proves that each turn of a part makes what some moves make.
#![tactic(auto)]

ghost use Rattle.stands_laws.specs.Laws.{ClientTouchesLaw, ConnTouchesLaw, DeskTouchesLaw, EmptyLaw};

/// The moves of a client, of a connection and of the desk are moves on this part with its queues, and change no other part
/// and no other queue.
pub fn moves_touch_one_part()
    ensures clients { ClientTouchesLaw }
    ensures connections { ConnTouchesLaw }
    ensures desk { DeskTouchesLaw }
{}

/// The empty machine stands for the world in which nothing has happened.
pub fn the_beginning_stands()
    ensures { EmptyLaw }
{}
