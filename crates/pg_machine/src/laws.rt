//! What a machine does, as laws. Each body does nothing.

ghost use Rattle.std.specs.Prelude.{◌≡◌, ℕ, List, Some, map};
ghost use Rattle.std.specs.List.{AllByRecursion};
ghost use Rattle.pg_spec.specs.Book.{Booking};
ghost use Rattle.pg_spec.specs.Links.{LinkView};
ghost use Rattle.pg_spec.specs.RawMessages.{RawMessage, messages, groups, sync_of};
ghost use Rattle.pg_spec.specs.Settings.{Settings};
ghost use Rattle.pg_spec.specs.Startup.{session_part};
ghost use Rattle.pg_wire.specs.LinkCalls.{IsInCourse, Keeps};
ghost use Rattle.pg_machine.specs.declared.serving.Mode.TheVariants.{Normal};
ghost use Rattle.pg_machine.specs.Serving.{Serving, served, joined, one_at_a_time};
ghost use Rattle.pg_machine.specs.Requests.{IsRequest, SoundAlong, OnlyCopiesOpen};
ghost use Rattle.pg_machine.specs.Sessions.{AreRequests, IsExchange, IsStartup, begun, frames_of, gives, alone};
ghost use Rattle.pg_machine.specs.Machines.{Table, IsMachine, service_of};

/// Whatever frames come, each answer of a machine is one that a server may give.
pub fn replies_of_a_machine_are_sound()
    ensures { (table : Table) (at : Serving ℕ) (frames : List RawMessage) → IsMachine table → SoundAlong (service_of table) at frames }
{}

/// Pipelined equals one at a time: the groups of what a machine replies to all frames are what it replies to each request
/// where they are fed one at a time. Of a session over a link that began in course, group k is what request k is answered.
pub fn pipelined_equals_one_at_a_time()
    ensures frames { (table : Table) (at : Serving ℕ) (requests : List (List RawMessage)) → IsMachine table → at.mode ≡ Normal → AllByRecursion IsRequest requests →
        OnlyCopiesOpen (service_of table) at requests →
        groups (served (service_of table) at (joined requests)).reply ≡ map sync_of (one_at_a_time (service_of table) at requests) }
    ensures session { (table : Table) (s : Settings) (nonce : List ℕ) (book : List Booking) (startup given taken due : List ℕ) (old new : LinkView) →
        IsMachine table → old.course ≡ Some (gives (service_of table) 0 startup) → IsInCourse old → Keeps old new →
        new.given ≡ Some given → new.taken ≡ Some taken → new.due ≡ Some due →
        IsExchange s nonce book given taken → IsStartup s nonce startup → AreRequests book → OnlyCopiesOpen (service_of table) (begun 0) (map frames_of book) →
        groups (session_part s nonce (messages given)) ≡ map sync_of (alone (service_of table) 0 book) }
{}
