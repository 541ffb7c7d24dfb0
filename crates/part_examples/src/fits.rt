//! Letters that are fit behind a list, and letters that aren't.

ghost use Rattle.std.specs.Prelude.{◌≡◌, ◌∷◌, [], take, true, false, Some, None, IsFalse, IsTrue};
ghost use Rattle.lload_names.specs.declared.names.Answer.TheVariants.{Go, Unavailable};
ghost use Rattle.lload_names.specs.declared.names.OpKind.TheVariants as kind;
ghost use Rattle.lload_names.specs.declared.names.PartName.TheVariants.{Desk, Client, Up as Connection};
ghost use Rattle.lload_names.specs.declared.names.Refusal.TheVariants.{C1, C4, C9};
ghost use Rattle.lload_names.specs.declared.names.Letter.TheVariants.{Ask, Choice, Drop, Ended, Failed, Forward, IsDown, IsRetired, IsUp, Leave, Reply, Returned, Pause, Resume};
ghost use Rattle.lload_spec.specs.Plain.{plain};
ghost use Rattle.spec_examples.specs.Configurations.{proxying};
ghost use Rattle.spec_examples.specs.Entries.{op, regular};
ghost use Rattle.spec_examples.specs.Octets.{ann, bind_done, delete_body, delete_done, sasl_first, sasl_second, search_body, search_done};
ghost use Rattle.part_spec.specs.Fit.{is_fit};
ghost use Rattle.part_examples.specs.AloneLists.{got_while_paused};
ghost use Rattle.part_examples.specs.Scripts.{missed_bind_script, unfinished_script};
ghost use Rattle.part_examples.specs.WorkedLetters.{lost_exchange_of_connection_2};
ghost use Rattle.part_spec.specs.Gives.{gives};
ghost use Rattle.part_spec.specs.Play.{played};
ghost use Rattle.part_spec.specs.World.{list_in};
ghost use Rattle.part_examples.specs.WrongLists.{bind_choice, choice, client_answered, client_choice, connection_answered, connection_sent, desk_choice, desk_ended, forward, never_up, reply};

/// Letters to a client.
pub fn letters_to_a_client()
    ensures choice { IsTrue (is_fit plain (Client 1) (take 2 client_choice) Desk choice) }
    ensures none_up { IsTrue (is_fit plain (Client 1) (take 2 client_choice) Desk (Choice (op 1 1) Unavailable)) }
    ensures reply { IsTrue (is_fit plain (Client 1) client_choice (Connection 1) reply) }
    ensures failed { IsTrue (is_fit plain (Client 1) client_choice (Connection 1) (Failed (op 1 1) C4)) }
{}

/// Unfit: a choice before its Ask, a second one, one of a bind connection for a Delete, one with another backend, one that
/// another part sent.
pub fn unfit_choices()
    ensures unasked { IsFalse (is_fit plain (Client 1) (take 1 client_choice) Desk choice) }
    ensures second { IsFalse (is_fit plain (Client 1) client_choice Desk choice) }
    ensures bind { IsFalse (is_fit plain (Client 1) (take 2 client_choice) Desk (Choice (op 1 1) (Go 2 1))) }
    ensures backend { IsFalse (is_fit plain (Client 1) (take 2 client_choice) Desk (Choice (op 1 1) (Go 1 2))) }
    ensures sender { IsFalse (is_fit plain (Client 1) (take 2 client_choice) (Connection 1) choice) }
{}

/// Unfit: an answer before the Forward, a second last one, a refusal behind it, one of another connection, one to another
/// operation, a final one that isn't the last, one of another kind, a refusal that no connection gives.
pub fn unfit_answers()
    ensures before { IsFalse (is_fit plain (Client 1) (take 2 client_choice) (Connection 1) reply) }
    ensures second { IsFalse (is_fit plain (Client 1) client_answered (Connection 1) reply) }
    ensures behind { IsFalse (is_fit plain (Client 1) client_answered (Connection 1) (Failed (op 1 1) C4)) }
    ensures sender { IsFalse (is_fit plain (Client 1) client_choice (Connection 2) reply) }
    ensures operation { IsFalse (is_fit plain (Client 1) client_choice (Connection 1) (Reply (op 1 2) delete_done true None)) }
    ensures not_last { IsFalse (is_fit plain (Client 1) client_choice (Connection 1) (Reply (op 1 1) delete_done false None)) }
    ensures other_kind { IsFalse (is_fit plain (Client 1) client_choice (Connection 1) (Reply (op 1 1) search_done true None)) }
    ensures refusal { IsFalse (is_fit plain (Client 1) client_choice (Connection 1) (Failed (op 1 1) C1)) }
{}

/// Letters to a connection; a Bind that goes on is fit where its exchange is.
pub fn letters_to_a_connection()
    ensures forward { IsTrue (is_fit plain (Connection 1) (take 2 connection_sent) (Client 1) forward) }
    ensures drop { IsTrue (is_fit plain (Connection 1) connection_sent (Client 1) (Drop (op 1 1))) }
    ensures crossed { IsTrue (is_fit plain (Connection 1) connection_answered (Client 1) (Drop (op 1 1))) }
    ensures pinned { IsTrue (is_fit proxying (Connection 2) (take 4 (list_in (played proxying unfinished_script) (Connection 2))) (Client 1) (Forward (op 1 2) kind.Bind sasl_second true (op 1 1))) }
    ensures leave { IsTrue (is_fit proxying (Connection 2) (take 4 (list_in (played proxying unfinished_script) (Connection 2))) (Client 1) (Leave (op 1 1))) }
{}

/// Unfit: a second Forward, one of another client, of another kind, of a Bind at a regular connection, one that asks for the
/// identity of no Bind; a Bind of another holder, or one that doesn't ask for its identity.
pub fn unfit_forwards()
    ensures second { IsFalse (is_fit plain (Connection 1) connection_sent (Client 1) forward) }
    ensures sender { IsFalse (is_fit plain (Connection 1) (take 2 connection_sent) (Client 2) forward) }
    ensures other_kind { IsFalse (is_fit plain (Connection 1) (take 2 connection_sent) (Client 1) (Forward (op 1 1) kind.Search delete_body false (op 1 1))) }
    ensures bind { IsFalse (is_fit plain (Connection 1) (take 2 connection_sent) (Client 1) (Forward (op 1 1) kind.Bind sasl_first false (op 1 1))) }
    ensures identity { IsFalse (is_fit plain (Connection 1) (take 2 connection_sent) (Client 1) (Forward (op 1 1) kind.Delete delete_body true (op 1 1))) }
    ensures other_holder { IsFalse (is_fit proxying (Connection 2) (take 4 (list_in (played proxying unfinished_script) (Connection 2))) (Client 2) (Forward (op 2 1) kind.Bind sasl_first true (op 2 1))) }
    ensures unasked { IsFalse (is_fit proxying (Connection 2) (take 4 (list_in (played proxying unfinished_script) (Connection 2))) (Client 1) (Forward (op 1 2) kind.Bind sasl_second false (op 1 1))) }
{}

/// Unfit: a Drop before its Forward, or of another client, a Leave at a regular connection, a second Leave.
pub fn unfit_ends()
    ensures early_drop { IsFalse (is_fit plain (Connection 1) (take 2 connection_sent) (Client 1) (Drop (op 1 1))) }
    ensures sender { IsFalse (is_fit plain (Connection 1) connection_sent (Client 2) (Drop (op 1 1))) }
    ensures leave { IsFalse (is_fit plain (Connection 1) connection_sent (Client 1) (Leave (op 1 1))) }
    ensures second_leave { IsFalse (is_fit proxying (Connection 2) (list_in (played proxying unfinished_script) (Connection 2)) (Client 1) (Leave (op 1 1))) }
{}

/// Letters to the desk.
pub fn letters_to_the_desk()
    ensures ended { IsTrue (is_fit plain Desk desk_choice (Connection 1) (Ended (op 1 1) 1 None)) }
    ensures returned { IsTrue (is_fit plain Desk desk_choice (Client 1) (Returned (op 1 1) 1)) }
    ensures next { IsTrue (is_fit plain Desk desk_choice (Client 1) (Ask (op 1 2) regular)) }
    ensures retired { IsTrue (is_fit plain Desk desk_choice (Connection 1) (IsRetired 1)) }
    ensures down { IsTrue (is_fit plain Desk [] (Connection 1) (IsDown 1)) }
{}

/// Unfit: a second Ask, an end that was heard, of another connection or told by another, a second Up, an Up of another.
pub fn unfit_news()
    ensures second_ask { IsFalse (is_fit plain Desk desk_choice (Client 1) (Ask (op 1 1) regular)) }
    ensures second_end { IsFalse (is_fit plain Desk desk_ended (Connection 1) (Ended (op 1 1) 1 None)) }
    ensures elsewhere { IsFalse (is_fit plain Desk desk_choice (Connection 2) (Ended (op 1 1) 2 None)) }
    ensures told { IsFalse (is_fit plain Desk desk_choice (Connection 2) (Ended (op 1 1) 1 None)) }
    ensures second_up { IsFalse (is_fit plain Desk desk_choice (Connection 1) (IsUp 1)) }
    ensures other_up { IsFalse (is_fit plain Desk [] (Connection 1) (IsUp 2)) }
{}

/// Letters that no part gives: a Forward to a connection that isn't up, a success whose identity is asked for without one
/// that can be read, and a refusal for want of an identity to a request that needs none.
pub fn letters_that_nobody_gives()
    ensures not_up_yet { IsFalse (is_fit plain (Connection 1) never_up (Client 1) forward) }
    ensures identity { IsTrue (is_fit proxying (Client 1) bind_choice (Connection 2) (Reply (op 1 1) bind_done true (Some ann))) }
    ensures unreadable { IsFalse (is_fit proxying (Client 1) bind_choice (Connection 2) (Reply (op 1 1) bind_done true (Some sasl_first))) }
    ensures unknown { IsTrue (is_fit proxying (Client 1) bind_choice (Connection 2) (Failed (op 1 1) C9)) }
    ensures unasked { IsFalse (is_fit proxying (Client 1) client_choice (Connection 1) (Failed (op 1 1) C9)) }
{}

/// A Bind may go on under a holder that holds the connection, or held it when it was lost; under any other it is its own holder. The
/// end of a holder is told once.
pub fn a_holder_goes_on_where_it_was()
    ensures held { IsTrue (is_fit proxying (Connection 2) (take 4 (list_in (played proxying missed_bind_script) (Connection 2))) (Client 1) (Forward (op 1 2) kind.Bind sasl_second true (op 1 1))) }
    ensures lost { IsTrue (is_fit proxying (Connection 2) (take 5 (list_in (played proxying missed_bind_script) (Connection 2))) (Client 1) (Forward (op 1 2) kind.Bind sasl_second true (op 1 1))) }
    ensures never_held { IsFalse (is_fit proxying (Connection 2) (take 2 (list_in (played proxying missed_bind_script) (Connection 2))) (Client 1) (Forward (op 1 2) kind.Bind sasl_second true (op 1 1))) }
    ensures other_lost { IsFalse (is_fit proxying (Connection 2) (take 5 (list_in (played proxying missed_bind_script) (Connection 2))) (Client 1) (Forward (op 1 3) kind.Bind sasl_second true (op 1 2))) }
    ensures own { IsTrue (is_fit proxying (Connection 2) (take 5 (list_in (played proxying missed_bind_script) (Connection 2))) (Client 1) (Forward (op 1 2) kind.Bind sasl_second true (op 1 2))) }
    ensures told_once { gives proxying (Connection 2) (list_in (played proxying missed_bind_script) (Connection 2)) ≡ lost_exchange_of_connection_2 }
{}

/// A client pauses a regular connection, and then resumes it; each client by itself.
pub fn pauses_alternate()
    ensures pause { IsTrue (is_fit plain (Connection 1) connection_sent (Client 1) (Pause 1)) }
    ensures resume { IsTrue (is_fit plain (Connection 1) (take 4 got_while_paused) (Client 1) (Resume 1)) }
    ensures of_another { IsTrue (is_fit plain (Connection 1) (take 4 got_while_paused) (Client 2) (Pause 2)) }
    ensures resume_first { IsFalse (is_fit plain (Connection 1) connection_sent (Client 1) (Resume 1)) }
    ensures second_pause { IsFalse (is_fit plain (Connection 1) (take 4 got_while_paused) (Client 1) (Pause 1)) }
    ensures resume_of_another { IsFalse (is_fit plain (Connection 1) (take 4 got_while_paused) (Client 2) (Resume 2)) }
    ensures sender { IsFalse (is_fit plain (Connection 1) connection_sent (Client 1) (Pause 2)) }
    ensures bind { IsFalse (is_fit proxying (Connection 2) (take 2 (list_in (played proxying unfinished_script) (Connection 2))) (Client 1) (Pause 1)) }
    ensures to_the_desk { IsFalse (is_fit plain Desk desk_choice (Client 1) (Pause 1)) }
{}
