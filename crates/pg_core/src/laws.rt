//! What the polls of a command come to: its outcome over any desk, and how it unfolds turn by turn over one
//! legal list of what all did.

ghost use Rattle.std.specs.Prelude.{◌≡◌, ◌≢◌, ◌<◌, ◌≤◌, ◌⊎◌, ◌==◌, ◌&&◌, [], ◌∷◌, ◌++◌, map, Bool, false, true, List, ℕ, Option, Result, Err, is_some, filter, length, Ok, Some};
ghost use Rattle.std.specs.List.{list_any};
ghost use Rattle.pg_core.specs.Copying.{copies, puts};
ghost use Rattle.pg_core.specs.Counters.{Counts, ToldSo, tells};
ghost use Rattle.pg_core.specs.Deeds.{Addition, Serves, IsNew, got_after, additions_in, bookings_in, answers_in};
ghost use Rattle.pg_core.specs.Lists.{IsApart, IsReached, SparesAll, came_of, events_of, got_of, state_behind};
ghost use Rattle.pg_core.specs.Outcomes.{AreBegun, LivesSo, asked};
ghost use Rattle.pg_core.specs.Runs.{At, Holds, IsTidy, MayWait, ReadsNothing, Comes, of_request, run};
ghost use Rattle.pg_core.specs.Times.{EndsFirst, EndsNone, HangsUpNone, HasCome, IsCommand, IsOff, IsSane, IsUpright, LacksMemory, Stage, TurnedWell, takes_parts};
ghost use Rattle.pg_core.specs.Trails.{AllUnder, AreMet, AreNumbered, AreToldIn, AreTurnsOf, BooksSo, CameBy, HasNoneOf, HoldsRequests, IsNext, IsRunning, IsTurnOf, Moment, OwnTurn, PollEnds, PollsOn, begun_at, goes_on, moment_of, point_of, ran_by, with_all};
ghost use Rattle.pg_spec.specs.Copies.{is_opened};
ghost use Rattle.pg_spec.specs.Dialogues.{decided_after};
ghost use Rattle.pg_spec.specs.Courses.{Asked, Course, Request, Unfolds, begun_in, nowhere, questions_of, requests_of, Who, stamp_of};
ghost use Rattle.pg_desk.specs.History.{IsFrontOf, IsLegal, IsSound, State, after_all, ended, is_copying, kept, received, reply, start};
ghost use Rattle.pg_types.specs.declared.error.Error.{Error};
ghost use Rattle.pg_types.specs.declared.error.Error.TheVariants.{OutOfMemory};
ghost use Rattle.pg_core.specs.Behind.{behind};
ghost use Rattle.pg_query.specs.Dialogue.{Dialogue, Answer, Ask, Call, Finish, HangUp, Put, Read, feed};
ghost use Rattle.pg_query.specs.Lives.{Deed, Turn, Leads, Lives, deeds};
ghost use Rattle.pg_query.specs.Meaning.{Place};
ghost use Rattle.pg_query.specs.Requests.{asks};
ghost use Rattle.pg_query.specs.Scripts.{cleanup_of};
ghost use Rattle.pg_query.specs.declared.desk_call.Cleanup.{Cleanup};
ghost use Rattle.pg_query.specs.declared.desk_call.Cleanup.TheVariants.{Release};
ghost use Rattle.pg_query.specs.declared.desk_call.DeskCall.{DeskCall};
ghost use Rattle.pg_query.specs.declared.desk_call.Reply.{Reply};
ghost use Rattle.pg_spec.specs.Book.{Booking};
ghost use Rattle.pg_spec.specs.RawMessages.{RawMessage, ends_in, groups, is_ready, sync_of};
ghost use Rattle.pg_spec.specs.Turns.{IsOwnTurn, delivered_before};

/// A walk along a dialogue, over any desk that gives of each request what comes next, comes to what the function says.
pub fn one_walk<T>()
    ensures { (came got : ℕ → List RawMessage) (at : Option ℕ) (n : ℕ) (left : List RawMessage) (d : Dialogue T) (id : ℕ) (ds : List Deed) (q : Dialogue T) (end : ℕ) →
        IsTidy d → At at id d → Holds came got at n left → Leads (feed left d) id ds q end → Serves came got ds →
        Comes came got (run came at n d (bookings_in ds) (answers_in ds) (additions_in ds)) ds q end }
{}

/// Any desk gives what its takes gave, where each request that is booked is new.
pub fn serves_itself()
    ensures { (got : ℕ → List RawMessage) (ds : List Deed) → IsNew got ds → Serves (got_after got ds) got ds }
{}

/// A life of a command over any desk that gave of each request what comes next: where nothing was refused, its bookings, questions and answer are
/// the outcome of its dialogue, or memory lacked; what it did before the first refusal is a front of that.
pub fn outcome_of_a_life<T>()
    ensures { (came : ℕ → List RawMessage) (p : Place T) (ts : List Turn) (q : Place T) (r : Result T Error) → IsTidy p.dialogue → ReadsNothing p.dialogue → Lives p ts q →
        Serves came (λ k. []) (deeds ts) → (q.dialogue ≡ Answer r) ⊎ (r ≡ Err OutOfMemory) → LivesSo came p.dialogue (deeds ts) q.dialogue r }
{}

/// A command that begins stands where its equations say.
pub fn a_begin_stands<T>()
    ensures { (d : Dialogue T) (got : ℕ → List RawMessage) (p : Place T) → p.dialogue ≡ d → IsTidy d → ReadsNothing d → IsRunning d [] got p }
{}

/// Turns of others, which take nothing of the request that it reads, keep the equations.
pub fn turns_of_others_keep<T>()
    ensures { (d : Dialogue T) (trail : List Moment) (got more : ℕ → List RawMessage) (p : Place T) →
        of_request more (ran_by d trail).at ≡ of_request got (ran_by d trail).at → IsRunning d trail got p → IsRunning d trail more p }
{}

/// A poll is one turn more in the equations: it waits, or answers as they say, or the desk refused a take or a hanging up.
pub fn a_poll_is_a_turn<T>()
    ensures { (d : Dialogue T) (trail : List Moment) (came got : ℕ → List RawMessage) (p : Place T) (place : ℕ) (ds : List Deed) (q : Place T) → IsRunning d trail got p →
        IsFrontOf (of_request got (ran_by d trail).at) (of_request came (ran_by d trail).at) → Leads p.dialogue p.reads ds q.dialogue q.reads → Serves came got ds →
        PollsOn d (moment_of place came ds) trail got ds q }
{}

/// Where the equations lead to an answer, the command unfolds, by the requests and questions that its turns name.
pub fn a_trail_unfolds<T>()
    ensures { (tells : List DeskCall → DeskCall → Reply) (course : Course DeskCall Reply) (who : Who) (d : Dialogue T) (m : Moment) (before : List Moment) (a : Result T Error) →
        AreTurnsOf tells course who d (m ∷ before) → AreMet d (m ∷ before) → (ran_by d (m ∷ before)).left ≡ Answer a →
        Unfolds course who.handle (begun_in nowhere (begun_at m before)) (asked d) ((ran_by d (m ∷ before)).whole []) (ran_by d (m ∷ before)).asked
        (record { at = point_of m.place (ran_by d (m ∷ before)); answer = a }) }
{}

/// In one legal list of the deeds of all, those of one get of each request what comes next, where nobody else takes of its requests.
pub fn a_legal_list_serves()
    ensures { (mine : ℕ → Bool) (own : Deed → Bool) (n m : ℕ) (L : List Deed) → IsLegal (start n m) (kept (events_of L)) → IsApart mine own L →
        Serves (came_of (state_behind (start n m) L)) (λ k. []) (filter own L) }
{}

/// Requests as far as they were booked, none of which is a copy, are the first ones, each whole.
pub fn requests_without_copies_are_whole()
    ensures { (copies : List Bool) (begun all : List (List (List ℕ))) → list_any (λ c. c) copies ≡ false → AreBegun copies begun all → IsFrontOf begun all }
{}

/// A life among the deeds of a legal list: the same, on the server's replies to its own requests, as far as they came.
pub fn outcome_in_a_legal_list<T>()
    ensures { (mine : ℕ → Bool) (own : Deed → Bool) (n m : ℕ) (L : List Deed) (p : Place T) (ts : List Turn) (q : Place T) (r : Result T Error) → IsLegal (start n m) (kept (events_of L)) → IsApart mine own L →
        IsTidy p.dialogue → ReadsNothing p.dialogue → Lives p ts q → deeds ts ≡ filter own L → (q.dialogue ≡ Answer r) ⊎ (r ≡ Err OutOfMemory) →
        LivesSo (λ k. reply k (received (state_behind (start n m) L).deliveries)) p.dialogue (deeds ts) q.dialogue r }
{}

/// A turn of its own, in a legal list, keeps the equations of a command.
pub fn own_turn_keeps<T>()
    ensures { (d : Dialogue T) (place : ℕ) (trail : List Moment) (s : State) (p : Place T) (ds : List Deed) (q : Place T) → IsReached s → IsRunning d trail (got_of s) p →
        Leads p.dialogue p.reads ds q.dialogue q.reads → IsLegal s (kept (events_of ds)) → PollEnds ds q → OwnTurn d place trail s ds q }
{}

/// Turns of others, in a legal list, which take nothing of the request that it reads, keep them too.
pub fn others_turn_keeps<T>()
    ensures { (d : Dialogue T) (trail : List Moment) (s : State) (p : Place T) (L : List Deed) → IsReached s → IsRunning d trail (got_of s) p → IsLegal s (kept (events_of L)) → SparesAll p.reads L →
        IsRunning d trail (got_of (state_behind s L)) p }
{}

/// What had come at a turn is what a trace counts of the replies.
pub fn what_came_is_counted()
    ensures { (course : Course DeskCall Reply) (place : ℕ) (s : State) (later : List RawMessage) → IsSound s → IsFrontOf (received s.deliveries) (sync_of later) → course.replies ≡ groups later →
        delivered_before course.trace place ≡ length (received s.deliveries) → CameBy course place (came_of s) }
{}

/// The requests of a turn, in a legal list, have the next numbers and bear its stamp, and the book grows by them and by the parts that
/// the turn added to copies.
pub fn requests_of_a_turn<T>()
    ensures { (who : Who) (turn : ℕ) (d : Dialogue T) (id : ℕ) (ds : List Deed) (q : Dialogue T) (end : ℕ) (s : State) → IsReached s → AllUnder (stamp_of who turn) ds →
        Leads d id ds q end → IsLegal s (kept (events_of ds)) → BooksSo who turn s ds }
{}

/// What is asked in a turn, in a legal list, is told by what was asked before.
pub fn questions_of_a_turn()
    ensures { (who : Who) (turn : ℕ) (ds : List Deed) (before : List DeskCall) (s : State) → AllUnder (stamp_of who turn) ds → IsLegal s (kept (events_of ds)) → Counts before s →
        ToldSo who turn before s ds }
{}

/// A command of one request that decides at its ReadyForQuery is one that the core takes.
pub fn a_request_is_a_command<T>()
    ensures { (stops : Bool) (frame : List ℕ) (reading : List RawMessage → Option (Result T Error)) → ((ms : List RawMessage) → ends_in is_ready ms ≡ true → is_some (reading ms) ≡ true) →
        IsCommand (asks stops frame reading) }
{}

/// A copy is one that the core takes, whatever its parts are, where its opening is decided exactly where it is answered, its answer is
/// decided at its ReadyForQuery, and the messages by which it is opened hold none.
pub fn a_copy_is_a_command<T>()
    ensures { (opening failing ending : List ℕ) (parts : List (List ℕ)) (opened : List RawMessage → Option (Result (Unit {0}) Error)) (reading : List RawMessage → Option (Result T Error)) →
        ((ms : List RawMessage) → decided_after (λ l. is_some (opened l)) ms ≡ decided_after is_opened ms) → ((ms : List RawMessage) (x : Unit {0}) → decided_after (λ l. is_some (opened l)) ms ≡ Some (length ms) → list_any is_ready ms ≡ true → opened ms ≡ Some (Ok x) → ⊥) →
        ((ms : List RawMessage) → ends_in is_ready ms ≡ true → is_some (reading ms) ≡ true) → IsCommand (copies opening failing ending parts opened reading) }
{}

/// What is no command: a copy that is hung up or answers before it is ended, one that gets a part, is ended, or asks something, before its opening is answered, one that
/// decides its opening elsewhere than where it is answered, one that reads before it is ended, behind any number of parts, one that gets a part
/// behind its end, and one that is hung up before it is ended where it is given up.
pub fn what_no_copy_does<T>()
    ensures hung_up { (part : List ℕ) (d : Dialogue T) → IsCommand (Ask true part (HangUp d)) → ⊥ }
    ensures answered { (part : List ℕ) (r : Result T Error) → IsCommand (Ask true part (Answer r)) → ⊥ }
    ensures put_unopened { (part more : List ℕ) (left : List Cleanup) (d : Dialogue T) → IsCommand (Ask true part (Put left more d)) → ⊥ }
    ensures ended_unopened { (part ending : List ℕ) (d : Dialogue T) → IsCommand (Ask true part (Finish ending d)) → ⊥ }
    ensures asked_unopened { (part : List ℕ) (q : DeskCall) (refused : Error → Dialogue T) (next : Reply → Dialogue T) → IsCommand (Ask true part (Call q refused next)) → ⊥ }
    ensures decided_elsewhere { (part : List ℕ) (left : List Cleanup) (decides : List RawMessage → Bool) (next : List RawMessage → Dialogue T) (ms : List RawMessage) →
        decided_after decides ms ≢ decided_after is_opened ms → IsCommand (Ask true part (Read left decides next)) → ⊥ }
    ensures read_open { (part failing : List ℕ) (parts : List (List ℕ)) (first left : List Cleanup) (opens decides : List RawMessage → Bool) (next later : List RawMessage → Dialogue T) (ms : List RawMessage) →
        decided_after opens ms ≡ Some (length ms) → next ms ≡ puts failing parts (Read left decides later) → IsCommand (Ask true part (Read first opens next)) → ⊥ }
    ensures behind_its_end { (part ending more : List ℕ) (first left : List Cleanup) (opens : List RawMessage → Bool) (next : List RawMessage → Dialogue T) (ms : List RawMessage) (d : Dialogue T) →
        decided_after opens ms ≡ Some (length ms) → next ms ≡ Finish ending (Put left more d) → IsCommand (Ask true part (Read first opens next)) → ⊥ }
    ensures given_up_open { (part : List ℕ) (left : List Cleanup) (decides : List RawMessage → Bool) (next : List RawMessage → Dialogue T) → IsCommand (Ask true part (Read (Release ∷ left) decides next)) → ⊥ }
{}

/// A command begins upright.
pub fn a_command_begins_upright<T>()
    ensures { (d : Dialogue T) (s : State) (p : Place T) → IsCommand d → p.dialogue ≡ d → IsReached s → IsUpright d [] s p }
{}

/// Where an upright command waits, its copy takes parts exactly where the desk's does, and what is left to do there ends it first. Where it reads
/// the reply to the opening, what it took doesn't answer that, and where it puts a part, that does.
pub fn its_copy_is_open_at_the_desk<T>()
    ensures { (d : Dialogue T) (trail : List Moment) (s : State) (p : Place T) → IsUpright d trail s p → MayWait p.dialogue →
        (stage : Stage) × IsSane stage p.dialogue × (is_copying p.reads s.copying ≡ takes_parts stage) × EndsFirst (takes_parts stage) (cleanup_of p.dialogue) × HasCome (got_of s p.reads) stage }
{}

/// A turn of its own, in a legal list of an open hub: it waits and stays upright, or it answers as its equations say, or memory lacked.
pub fn own_turn_stays_upright<T>()
    ensures { (d : Dialogue T) (place : ℕ) (trail : List Moment) (s : State) (p : Place T) (ds : List Deed) (q : Place T) → IsUpright d trail s p → Leads p.dialogue p.reads ds q.dialogue q.reads →
        IsLegal s (events_of ds) → ended (after_all s (events_of ds)) ≡ false → PollEnds ds q →
        OwnTurn d place trail s ds q × TurnedWell d (moment_of place (came_of (state_behind s ds)) ds ∷ trail) (state_behind s ds) q }
{}

/// Turns of others, which take nothing of its request and don't hang it up, leave it upright.
pub fn others_turn_stays_upright<T>()
    ensures { (d : Dialogue T) (trail : List Moment) (s : State) (p : Place T) (L : List Deed) → IsUpright d trail s p → IsLegal s (events_of L) → SparesAll p.reads L → HangsUpNone p.reads L →
        IsUpright d trail (after_all s (events_of L)) p }
{}

/// A poll of an upright command, in a legal list of an open hub, is a turn that the law of its life asks for, or memory lacked.
pub fn a_poll_is_a_turn_of_the_course<T>()
    ensures { (course : Course DeskCall Reply) (who : Who) (d : Dialogue T) (place : ℕ) (trail : List Moment) (s : State) (p : Place T) (ds : List Deed) (q : Place T) (former : List DeskCall) →
        IsUpright d trail s p → Leads p.dialogue p.reads ds q.dialogue q.reads → IsLegal s (events_of ds) → ended (after_all s (events_of ds)) ≡ false → PollEnds ds q →
        AllUnder (stamp_of who place) ds → Counts former s → IsOwnTurn course.trace who.handle place place → IsNext course who.handle d trail place →
        CameBy course place (came_of (state_behind s ds)) →
        IsTurnOf tells course who d trail (length s.book) former (moment_of place (came_of (state_behind s ds)) ds) ⊎ (q.dialogue ≡ Answer (Err OutOfMemory)) }
{}

/// A command's requests in a book that grew by those of its turn are those before and these.
pub fn own_requests_grow()
    ensures { (who : Who) (turn : ℕ) (book : List Booking) (rs : List Request) → AreNumbered who turn (length book) rs →
        requests_of (book ++ map (λ r. r.booking) rs) who.handle who.command ≡ requests_of book who.handle who.command ++ rs }
{}

/// A command's requests, in a book that grew by those of its turn and by the parts that it added, are those that its turns name,
/// with all their parts, whatever parts come later.
pub fn own_requests_have_their_parts<T>()
    ensures { (who : Who) (d : Dialogue T) (m : Moment) (before : List Moment) (book : List Booking) → AreNumbered who m.place (length book) (goes_on (ran_by d before) m).requests →
        HoldsRequests who book (ran_by d before) →
        HoldsRequests who (with_all (goes_on (ran_by d before) m).added (book ++ map (λ r. r.booking) (goes_on (ran_by d before) m).requests)) (ran_by d (m ∷ before)) }
{}

/// Parts that go to requests of others leave a command's requests, and their parts, as they are.
pub fn others_requests_keep_their_parts()
    ensures { (who : Who) (added : List Addition) (book : List Booking) → HasNoneOf added (requests_of book who.handle who.command) →
        requests_of (with_all added book) who.handle who.command ≡ requests_of book who.handle who.command }
{}

/// Bookings of another command leave a command's requests as they are.
pub fn others_requests_are_none()
    ensures { (who other : Who) (turn : ℕ) (book : List Booking) (rs : List Request) → ((other.handle == who.handle) && (other.command == who.command)) ≡ false →
        AreNumbered other turn (length book) rs → requests_of (book ++ map (λ r. r.booking) rs) who.handle who.command ≡ requests_of book who.handle who.command }
{}

/// Questions of another command leave a command's questions as they are.
pub fn others_questions_are_none()
    ensures { (tells : List DeskCall → DeskCall → Reply) (who other : Who) (turn : ℕ) (before : List DeskCall) (asked qs : List (Asked DeskCall Reply)) →
        ((other.handle == who.handle) && (other.command == who.command)) ≡ false → AreToldIn tells other turn before qs →
        questions_of (asked ++ qs) who.handle who.command ≡ questions_of asked who.handle who.command }
{}

/// A command's questions in a list that grew by those of its turn are those before and these.
pub fn own_questions_grow()
    ensures { (tells : List DeskCall → DeskCall → Reply) (who : Who) (turn : ℕ) (before : List DeskCall) (asked qs : List (Asked DeskCall Reply)) → AreToldIn tells who turn before qs →
        questions_of (asked ++ qs) who.handle who.command ≡ questions_of asked who.handle who.command ++ qs }
{}

/// A command behind the answer of another is one that the core takes, where what is left to do behind the first ends no copy.
pub fn a_command_behind_another<A, T>()
    ensures { (extra : List Cleanup) (f : Result A Error → Dialogue T) → EndsNone extra → ((r : Result A Error) → IsCommand (f r)) →
        ((r : Result A Error) → r ≡ Err OutOfMemory → LacksMemory (f r)) → (d : Dialogue A) → IsCommand d → IsCommand (behind extra d f) }
{}

/// A poll of another command leaves a request alone that was booked before, and that it doesn't read.
pub fn another_command_leaves_alone<T>()
    ensures { (k : ℕ) (s : State) (d : Dialogue T) (id : ℕ) (ds : List Deed) (q : Dialogue T) (end : ℕ) → IsOff k d id → k < length s.book → IsLegal s (events_of ds) → Leads d id ds q end →
        SparesAll k ds × HangsUpNone k ds }
{}
