//! Laws over worked sessions: they show what the definitions mean. Each body does nothing.

ghost use Rattle.pg_spec.specs.Isolation.{IsByNames};
ghost use Rattle.pg_spec.specs.Simples.{AreSimple};
ghost use Rattle.pg_promises.specs.Rows.{meaning, named, simply};
ghost use Rattle.pg_promises.specs.Sessions.{IsRight, copied, copied_beside, copied_late, prepared_and_queried, refused_begin, shared_type, two_queries};
ghost use Rattle.pg_promises.specs.Wrong as wrong;

/// The simple query among the commands is the headline's.
pub fn simple_queries_are_simple()
    ensures { AreSimple meaning simply }
{}

/// What a command names of what its script has decides all but what the script has then.
pub fn commands_go_by_names()
    ensures { IsByNames meaning named }
{}

/// Sessions that have run as their commands mean: a statement is prepared and queried by its slot; of two handles one looks a
/// type up and the other is told it; a row is copied, also where its piece is put a turn late, and beside another handle's query and a
/// handle without commands; a begin is refused, rolled back, and the commit behind it fails; two handles query.
pub fn accepted()
    ensures by_slot { IsRight prepared_and_queried }
    ensures shared { IsRight shared_type }
    ensures copy { IsRight copied }
    ensures copy_late { IsRight copied_late }
    ensures beside { IsRight copied_beside }
    ensures no_transaction { IsRight refused_begin }
    ensures queries { IsRight two_queries }
{}

/// Sessions that haven't, whenever their commands begin and answer: a query is booked a turn late; its reply comes before it; the
/// desk forgets a type; two answers are exchanged; a copy is cut by another handle's request, or its piece stands in that; a
/// refused begin isn't rolled back; a number is drawn twice; a request is no command's, or a question; a query is answered a turn
/// late; a prepared statement is lost; a command isn't answered; requests stand in another order; one is booked twice.
pub fn refused()
    ensures late { IsRight wrong.booked_late → ⊥ }
    ensures early { IsRight wrong.replied_early → ⊥ }
    ensures forgets { IsRight wrong.forgotten → ⊥ }
    ensures other_answer { IsRight wrong.exchanged → ⊥ }
    ensures cut { IsRight wrong.copy_cut → ⊥ }
    ensures astray { IsRight wrong.copy_astray → ⊥ }
    ensures no_rollback { IsRight wrong.not_rolled_back → ⊥ }
    ensures twice { IsRight wrong.drawn_twice → ⊥ }
    ensures nobody { IsRight wrong.of_nobody → ⊥ }
    ensures asked_beside { IsRight wrong.asked_by_nobody → ⊥ }
    ensures late_answer { IsRight wrong.begun_late → ⊥ }
    ensures lost { IsRight wrong.slot_lost → ⊥ }
    ensures no_answer { IsRight wrong.unanswered → ⊥ }
    ensures order { IsRight wrong.out_of_order → ⊥ }
    ensures same_twice { IsRight wrong.booked_twice → ⊥ }
{}
