//! What a server of these rules does, as laws. Each body does nothing.

ghost use Rattle.std.specs.Prelude.{◌≡◌, ℕ, List, Some, map, IsTrue};
ghost use Rattle.std.specs.List.{AllByRecursion};
ghost use Rattle.pg_spec.specs.Book.{Booking};
ghost use Rattle.pg_spec.specs.Links.{LinkView};
ghost use Rattle.pg_spec.specs.RawMessages.{RawMessage, messages, groups, sync_of};
ghost use Rattle.pg_spec.specs.Settings.{Settings};
ghost use Rattle.pg_spec.specs.Startup.{session_part};
ghost use Rattle.pg_wire.specs.LinkCalls.{IsInCourse, Keeps};
ghost use Rattle.pg_machine.specs.declared.serving.Mode.TheVariants.{Normal};
ghost use Rattle.pg_machine.specs.Serving.{Service, Serving, served, joined, one_at_a_time};
ghost use Rattle.pg_machine.specs.Requests.{IsRequest, IsCopy, IsReply, SoundAlong, OnlyCopiesOpen, opens_copy};
ghost use Rattle.pg_machine.specs.Sessions.{AreRequests, IsExchange, IsStartup, IsOver, KeepsRules, alone, gives};

/// A request is answered by messages that one ReadyForQuery ends, and by no other one; frames are answered again
/// behind it.
pub fn request_gets_one_reply<S>()
    ensures reply { (service : Service S) (at : Serving S) (frames : List RawMessage) → at.mode ≡ Normal → IsRequest frames →
        SoundAlong service at frames → (IsTrue (opens_copy service at frames) → IsCopy frames) → IsReply (served service at frames).reply }
    ensures again { (service : Service S) (at : Serving S) (frames : List RawMessage) → at.mode ≡ Normal → IsRequest frames →
        SoundAlong service at frames → (IsTrue (opens_copy service at frames) → IsCopy frames) → (served service at frames).next.mode ≡ Normal }
{}

/// Pipelined equals one at a time: the groups of what all frames are replied are what each request is replied where
/// they are fed one at a time, and its only ReadyForQuery ends each of these replies.
pub fn any_server_answers_one_at_a_time<S>()
    ensures frames { (service : Service S) (at : Serving S) (requests : List (List RawMessage)) → at.mode ≡ Normal → AllByRecursion IsRequest requests →
        SoundAlong service at (joined requests) → OnlyCopiesOpen service at requests →
        groups (served service at (joined requests)).reply ≡ map sync_of (one_at_a_time service at requests) }
    ensures replies { (service : Service S) (at : Serving S) (requests : List (List RawMessage)) → at.mode ≡ Normal → AllByRecursion IsRequest requests →
        SoundAlong service at (joined requests) → OnlyCopiesOpen service at requests → AllByRecursion IsReply (one_at_a_time service at requests) }
    ensures session { (service : Service S) (begins : S) (s : Settings) (nonce : List ℕ) (book : List Booking) (bytes given taken : List ℕ) →
        IsExchange s nonce book given taken → IsStartup s nonce bytes → IsOver service begins bytes given taken → AreRequests book → KeepsRules service begins book →
        groups (session_part s nonce (messages given)) ≡ map sync_of (alone service begins book) }
{}

/// A link that told this course, and was in it before calls that keep it, is a session over that server.
pub fn link_in_course_is_over_its_server<S>()
    ensures { (service : Service S) (begins : S) (startup given taken due : List ℕ) (old new : LinkView) →
        old.course ≡ Some (gives service begins startup) → IsInCourse old → Keeps old new →
        new.given ≡ Some given → new.taken ≡ Some taken → new.due ≡ Some due → IsOver service begins startup given taken }
{}
