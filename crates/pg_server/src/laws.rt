//! What a server of these rules says, as laws. Each body does nothing.

ghost use Rattle.std.specs.Prelude.{◌≡◌, ◌<◌, ℕ, List, ◌++◌, ◌∷◌, [], length, true, false, Some, None, Ok};
ghost use Rattle.std.specs.List.{AllByRecursion, concat};
ghost use Rattle.std.specs.Str.{byte};
ghost use Rattle.pg_spec.specs.ClientFrames.{ClientFrame, client_frame_at};
ghost use Rattle.pg_spec.specs.Frames.{startup_frame, terminate_frame};
ghost use Rattle.pg_spec.specs.RawMessages.{messages};
ghost use Rattle.pg_machine.specs.Serving.{served};
ghost use Rattle.pg_machine.specs.Sessions.{begun, spoken};
ghost use Rattle.pg_wire.specs.LinkCalls.{Continues, IsInCourse};
ghost use Rattle.pg_server.specs.ByteLists.{are_bytes};
ghost use Rattle.pg_server.specs.declared.fault.ServerFault.{ServerFault};
ghost use Rattle.pg_server.specs.Echoes.{IsTextQuery, echo_step};
ghost use Rattle.pg_server.specs.FaultPlaces.{ComesBehind};
ghost use Rattle.pg_server.specs.Frames.{is_text};
ghost use Rattle.pg_server.specs.Handlers.{Step, service_of};
ghost use Rattle.pg_server.specs.Hearing.{before, said_to};
ghost use Rattle.pg_server.specs.Openings.{Short, Ssl, Starts, opening_in_front};
ghost use Rattle.pg_server.specs.Parsed.{IsReadAs, is_answer};
ghost use Rattle.pg_server.specs.Servers.{Heard, fed_with, new_heard};
ghost use Rattle.pg_server.specs.ServerLinks.{Served, fault_by, link_of, new_link};
ghost use Rattle.pg_server.specs.Standings.{unfed};

/// Where the bytes of a client are cut makes no difference: what is said to more bytes is said behind what was said to the
/// first of them, and a fault in the first stays what it is. This is of what is said: `Server::feed` answers Ended to an empty
/// piece behind Terminate too.
pub fn cuttings_of_what_is_fed<S>()
    ensures whole { (step : Step S) (at : Heard S) (a b : List ℕ) → (fed_with step at a).fault ≡ None →
        fed_with step at (a ++ b)
        ≡ before (fed_with step at a).said (fed_with step (record { standing = (fed_with step at a).next; left = (fed_with step at a).left }) b) }
    ensures fault { (step : Step S) (at : Heard S) (a b : List ℕ) (fault : ServerFault) → (fed_with step at a).fault ≡ Some fault →
        ((fed_with step at (a ++ b)).fault ≡ Some fault) × ((fed_with step at (a ++ b)).said ≡ (fed_with step at a).said) }
{}

/// What is said to the bytes of a client where no fault comes: `N` to each SSLRequest, the startup to the startup frame, and
/// what the rules of a server say to the whole frames behind it; before the startup frame came nothing else.
pub fn a_server_says_what_the_rules_say<S>()
    ensures asks_for_tls { (step : Step S) (state : S) (startup bytes rest : List ℕ) → opening_in_front bytes ≡ Ssl rest →
        said_to step (unfed state startup) bytes ≡ before (byte "N" ∷ []) (said_to step (unfed state startup) rest) }
    ensures starts { (step : Step S) (state : S) (startup bytes rest : List ℕ) → opening_in_front bytes ≡ Starts rest →
        (said_to step (unfed state startup) bytes).fault ≡ None →
        (said_to step (unfed state startup) bytes).said ≡ startup ++ spoken (served (service_of step) (begun state) (messages rest)).reply }
    ensures waits { (step : Step S) (state : S) (startup bytes : List ℕ) → opening_in_front bytes ≡ Short →
        (said_to step (unfed state startup) bytes).said ≡ [] }
{}

/// Where a fault comes behind the startup frame, the startup was said, and what the rules of a server say to the first of the
/// whole frames behind it. BadEffect tells how many those are.
pub fn a_fault_comes_behind_what_was_said<S>()
    ensures { (step : Step S) (state : S) (startup bytes rest : List ℕ) (fault : ServerFault) → opening_in_front bytes ≡ Starts rest →
        (said_to step (unfed state startup) bytes).fault ≡ Some fault →
        ComesBehind step state startup rest (said_to step (unfed state startup) bytes).said fault }
{}

/// The fault of a link to a server follows from the bytes that it took: whatever calls it had from a moment on, its fault is
/// the one by the bytes taken since. Of a link that was just made, to a server that was fed with nothing, it is the fault of
/// what is said to all that was taken. `ServerLink::bytes_law` gives that these are bytes.
pub fn a_fault_follows_from_what_was_taken<S>()
    ensures since { (step : Step S) (before after : Served S) (piece : List ℕ) → IsInCourse (link_of step before) →
        Continues (link_of step before) (link_of step after) → after.crossed.taken ≡ before.crossed.taken ++ piece → are_bytes piece ≡ true →
        after.fault ≡ fault_by step before piece }
    ensures at_all { (step : Step S) (state : S) (startup : List ℕ) (cut room : ℕ) (after : Served S) →
        Continues (link_of step (new_link (new_heard state startup) cut room)) (link_of step after) → are_bytes after.crossed.taken ≡ true →
        after.fault ≡ (said_to step (unfed state startup) after.crossed.taken).fault }
{}

/// A frame that is laid out in front of some bytes, as the writers of frames write them, is what reading them gives, where
/// its texts are UTF-8. An answer to a request for authentication is read as none.
pub fn what_is_laid_out_is_read()
    ensures { (bytes rest : List ℕ) (frame : ClientFrame) → client_frame_at bytes ≡ Some (frame, rest) → is_answer frame ≡ false → is_text frame ≡ true →
        IsReadAs bytes rest frame }
{}

/// A server that echoes has no fault for a startup frame each of whose names has a byte, simple queries in UTF-8, and
/// Terminate.
pub fn an_echo_has_no_fault()
    ensures { (pairs : List (List ℕ × List ℕ)) (startup frame : List ℕ) (frames : List (List ℕ)) → AllByRecursion (λ pair. 0 < length pair.0) pairs →
        startup_frame pairs ≡ Ok frame → AllByRecursion IsTextQuery frames →
        (said_to echo_step (unfed tt startup) (frame ++ (concat frames ++ terminate_frame))).fault ≡ None }
{}
