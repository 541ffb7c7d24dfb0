ghost use Rattle.letter_queues.specs.Laws.{HeldLettersAreCarried, SameQueuesCarryTheSame, FirstIsFound, TakenLetterIsGone, ReturnedLetterStandsAsBefore};

/// Whatever list of letters the queues carry, they go on as it does.
pub fn queues_carry_letters()
    ensures held { HeldLettersAreCarried }
    ensures same { SameQueuesCarryTheSame }
    ensures first { FirstIsFound }
    ensures taken { TakenLetterIsGone }
    ensures returned { ReturnedLetterStandsAsBefore }
{}
