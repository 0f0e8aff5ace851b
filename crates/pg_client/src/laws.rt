//! What the events of a state's whole life say of its answer. Each body does nothing.

ghost use Rattle.std.specs.Prelude.{◌≡◌, ℕ, List, Option, Result, Err};
ghost use Rattle.pg_spec.specs.Frames.{query_frame, sync_frame};
ghost use Rattle.pg_types.specs.declared.error.Error.{Error};
ghost use Rattle.pg_query.specs.Dialogue.{Answer};
ghost use Rattle.pg_query.specs.Leaving.{AllOwed, AllLetGo};
ghost use Rattle.pg_query.specs.Scripts.{IsRead};
ghost use Rattle.pg_query.specs.Meaning.{Place};
ghost use Rattle.pg_query.specs.Requests.{Answers, Awaits};
ghost use Rattle.pg_query.specs.Lives.{Turn, Lives, deeds};
ghost use Rattle.pg_query.specs.declared.simple_message.SimpleMessage.{SimpleMessage};
ghost use Rattle.pg_client.specs.Done.{AnswersBatch, AwaitsBatch, batch_execute, check_connection, check_reading};
ghost use Rattle.pg_client.specs.Simple.{simple_query};
ghost use Rattle.pg_client.specs.SimpleLife.{AnswersBy, AwaitsBy};

/// A simple query that answered booked one request, of its text. A front of the messages that it took
/// decides its answer, unless the desk gave no more of them. A text that can't be sent books nothing.
pub fn simple_query_answers()
    ensures { (text : List ℕ) (take : Option ℕ) (begin end : Place (List SimpleMessage)) (turns : List Turn) (r : Result (List SimpleMessage) Error) →
        begin.dialogue ≡ simple_query text take → Lives begin turns end → end.dialogue ≡ Answer r →
        AnswersBy take (query_frame text) (deeds turns) r }
{}

/// Where it awaits a message, no front of those that it took decides an answer.
pub fn simple_query_awaits()
    ensures { (text : List ℕ) (take : Option ℕ) (begin end : Place (List SimpleMessage)) (turns : List Turn) →
        begin.dialogue ≡ simple_query text take → Lives begin turns end → IsRead end.dialogue →
        AwaitsBy take (query_frame text) (deeds turns) }
{}

/// A simple query that answered anything but want of memory leaves no request open: the one that it booked
/// was hung up, or its reply was read to the end. Every desk owes `AllOwed`.
pub fn simple_query_leaves_none()
    ensures { (text : List ℕ) (take : Option ℕ) (begin end : Place (List SimpleMessage)) (turns : List Turn) (r : Result (List SimpleMessage) Error) →
        begin.dialogue ≡ simple_query text take → Lives begin turns end → end.dialogue ≡ Answer r →
        (r ≡ Err Error.OutOfMemory → ⊥) → AllOwed (deeds turns) → AllLetGo (deeds turns) }
{}

/// A batch that answered booked one request, of its text. A front of the messages that it took tells its
/// answer, unless the desk gave no more of them. A text that can't be sent books nothing.
pub fn batch_execute_answers()
    ensures { (text : List ℕ) (begin end : Place (Unit {0})) (turns : List Turn) (r : Result (Unit {0}) Error) →
        begin.dialogue ≡ batch_execute text → Lives begin turns end → end.dialogue ≡ Answer r →
        AnswersBatch (query_frame text) (deeds turns) r }
{}

/// Where it awaits a message, no front of those that it took tells an answer.
pub fn batch_execute_awaits()
    ensures { (text : List ℕ) (begin end : Place (Unit {0})) (turns : List Turn) →
        begin.dialogue ≡ batch_execute text → Lives begin turns end → IsRead end.dialogue →
        AwaitsBatch (query_frame text) (deeds turns) }
{}

/// A batch that answered anything but want of memory leaves no request open, as a simple query doesn't.
pub fn batch_execute_leaves_none()
    ensures { (text : List ℕ) (begin end : Place (Unit {0})) (turns : List Turn) (r : Result (Unit {0}) Error) →
        begin.dialogue ≡ batch_execute text → Lives begin turns end → end.dialogue ≡ Answer r →
        (r ≡ Err Error.OutOfMemory → ⊥) → AllOwed (deeds turns) → AllLetGo (deeds turns) }
{}

/// A check that answered booked one request, a Sync. A front of the messages that it took tells its
/// answer, unless the desk gave no more of them.
pub fn check_connection_answers()
    ensures { (begin end : Place (Unit {0})) (turns : List Turn) (r : Result (Unit {0}) Error) →
        begin.dialogue ≡ check_connection → Lives begin turns end → end.dialogue ≡ Answer r →
        Answers check_reading sync_frame (deeds turns) r }
{}

/// Where it awaits a message, no front of those that it took tells an answer.
pub fn check_connection_awaits()
    ensures { (begin end : Place (Unit {0})) (turns : List Turn) →
        begin.dialogue ≡ check_connection → Lives begin turns end → IsRead end.dialogue →
        Awaits check_reading sync_frame (deeds turns) }
{}

/// A check that answered anything but want of memory leaves no request open, as a simple query doesn't.
pub fn check_connection_leaves_none()
    ensures { (begin end : Place (Unit {0})) (turns : List Turn) (r : Result (Unit {0}) Error) →
        begin.dialogue ≡ check_connection → Lives begin turns end → end.dialogue ≡ Answer r →
        (r ≡ Err Error.OutOfMemory → ⊥) → AllOwed (deeds turns) → AllLetGo (deeds turns) }
{}
