ghost use Rattle.small_world.specs.Laws.{StandingIsFifo, StandingIdsRise, KnowsArrival, KnowsFirstArrival, KnowsLinking, KnowsNews, KnowsUse, KnowsGiven};

/// The journal that a world stands for keeps the first promise: each client gets a prefix of one upstream's answers,
/// or that and one refusal; and the identifiers of each connection rise from 1, each used once (this project's own).
pub fn a_world_keeps_the_first_promise()
    ensures fifo { StandingIsFifo }
    ensures identifiers { StandingIdsRise }
{}

/// A world answers what the journal that it stands for answers: whether client 1 has arrived, and whether it is the
/// next to arrive; whether connection 1 was linked, and whether that is news for the desk; whether an identifier is in
/// use at client 1, and whether it was given on connection 1 (this project's own).
pub fn a_world_knows_its_journal()
    ensures arrival { KnowsArrival }
    ensures first_arrival { KnowsFirstArrival }
    ensures linking { KnowsLinking }
    ensures news { KnowsNews }
    ensures in_use { KnowsUse }
    ensures given { KnowsGiven }
{}
