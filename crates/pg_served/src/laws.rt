//! Sessions over a server, as laws. Each body does nothing.

ghost use Rattle.std.specs.Prelude.{◌≡◌, ℕ, List, true};
ghost use Rattle.pg_promises.specs.Causes.{Call};
ghost use Rattle.pg_promises.specs.ConnectionStrings.{Means};
ghost use Rattle.pg_promises.specs.EndedWell.{HasRun};
ghost use Rattle.pg_promises.specs.Promises.{EndsWell};
ghost use Rattle.pg_spec.specs.Book.{Booking};
ghost use Rattle.pg_spec.specs.Report.{Command, Report};
ghost use Rattle.pg_spec.specs.Settings.{Settings};
ghost use Rattle.pg_spec.specs.Turns.{Times};
ghost use Rattle.pg_wire.specs.LinkCalls.{Continues};
ghost use Rattle.pg_machine.specs.Serving.{Service};
ghost use Rattle.pg_machine.specs.Sessions.{IsStartup};
ghost use Rattle.pg_machine.specs.Machines as machines;
ghost use Rattle.pg_machine.specs.MachineLinks as machine_links;
ghost use Rattle.pg_server.specs.Echoes.{echo_step};
ghost use Rattle.pg_server.specs.Handlers.{Step, service_of};
ghost use Rattle.pg_server.specs.ServerLinks as server_links;
ghost use Rattle.pg_server.specs.Startups.{is_startup};
ghost use Rattle.pg_tool.specs.SessionContract.{IsEndedWell, SessionResult};
ghost use Rattle.pg_served.specs.Conforming.{Conforms, HasNoFault, IsValid, MayBook, are_texts};
ghost use Rattle.pg_served.specs.OneAtATime.{AsksInRequests};
ghost use Rattle.pg_served.specs.Promised.{SimplyOverServer};
ghost use Rattle.pg_served.specs.Runs.{Asked, IsNewMachine, IsNewServer, RanOneAtATime, call_over_server};

/// What simple queries book are requests, and they open no copy of any server.
pub fn simple_queries_are_requests<S>()
    ensures { (service : Service S) (begins : S) (scripts : List (List Command)) (turns : List ℕ) (report : Report) (schedule : List (List Times)) →
        HasRun scripts turns report schedule → AsksInRequests service begins report.book }
{}

/// Pipelined equals one at a time, over a link to a server that was just made: in a session that ended well, whose
/// bookings are requests of which only copies open a copy, the server's reply to each request is what it is where the
/// requests are fed one at a time.
pub fn a_session_over_a_server_is_one_at_a_time<S>()
    ensures { (step : Step S) (old new : server_links.Served S) (call : Call) (report : Report) (state : S) (startup : List ℕ) →
        call.before ≡ server_links.link_of step old → call.after ≡ server_links.link_of step new → Continues call.before call.after →
        IsEndedWell call report → IsNewServer old state startup → AsksInRequests (service_of step) state report.book →
        RanOneAtATime (service_of step) state startup call report }
{}

/// The same over a link to a machine.
pub fn a_session_over_a_machine_is_one_at_a_time()
    ensures { (table : machines.Table) (startup : List ℕ) (old new : machine_links.Served) (call : Call) (report : Report) →
        call.before ≡ machine_links.link_of old → call.after ≡ machine_links.link_of new → Continues call.before call.after →
        IsEndedWell call report → machines.IsMachine table → IsNewMachine old table startup → is_startup startup ≡ true →
        AsksInRequests (machines.service_of table) 0 report.book → RanOneAtATime (machines.service_of table) 0 startup call report }
{}

/// A server that echoes has no fault for what a session sends, whatever simple queries its scripts ask, in UTF-8, behind a
/// startup that asks for nothing. So over a link to it that was just made, valid input answers Ok, or OutOfMemory, if all that
/// it gives can be read and is within the limit.
pub fn a_session_over_an_echo_ends_well()
    ensures no_fault { (s : Settings) (nonce startup : List ℕ) (starts : IsStartup s nonce startup) (scripts : List (List Command)) (book : List Booking) →
        are_texts scripts ≡ true → MayBook scripts book → HasNoFault echo_step tt startup starts.frame book }
    ensures ends_well { (asked : Asked) (old new : server_links.Served (Unit {0})) (result : SessionResult) (startup : List ℕ) (s : Settings) →
        SimplyOverServer echo_step asked old new result → IsNewServer old tt startup → Means asked.config s → IsValid (call_over_server echo_step asked old new) s →
        Conforms (call_over_server echo_step asked old new) s (service_of echo_step) tt startup → are_texts (call_over_server echo_step asked old new).scripts ≡ true →
        EndsWell result }
{}
