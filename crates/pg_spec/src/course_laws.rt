//! Laws over the definitions. Each body does nothing.

ghost use Rattle.std.specs.Prelude.{◌≡◌, ℕ, List, [], Option, ⊤};
ghost use Rattle.pg_spec.specs.SimpleQuery.{SimpleAnswer};
ghost use Rattle.pg_spec.specs.Turns.{IsFirstTurn, IsOwnTurn, Times, entry_at};
ghost use Rattle.pg_spec.specs.Courses.{Asked, Course, Request, Point, Given, Unfolds, met_in, questions_of, unread};
ghost use Rattle.pg_spec.specs.Dialogues.{Answers, Dialogue, behind};
ghost use Rattle.pg_spec.specs.Isolation.{answer_alone, ComesOfIt, DidSo, IsByNames, IsOutcome, IsSame, met_by, NoPuts, RanSo};
ghost use Rattle.pg_spec.specs.Meanings.{Ending, HasRun, Meaning};
ghost use Rattle.pg_spec.specs.Simples.{AreSimple, Headline, IsAsBefore, Simply, Unmapped, UnfoldsBehind, UnfoldsSimple};

/// What a command books, asks, answers and leaves unread follows from what was left of the reply that it reads, from the
/// replies to its own requests and from what its desk told it.
pub fn what_it_met_decides<Q, R, A>()
    ensures { (course : Course Q R) (handle : ℕ) (at : Point) (d : Dialogue Q R A) (requests : List Request) (asked : List (Asked Q R)) (given : Given A) →
        Unfolds course handle at d requests asked given → ComesOfIt course at d requests asked given }
{}

/// A command that met the same in two sessions, and names the same of what its script has, booked and asked the same and gave
/// the same answer.
pub fn isolation<C, A, E, Q, R, N>()
    ensures { (meaning : Meaning C A E Q R) (named : C → E → N) → IsByNames meaning named →
        (c : C) (a b : Course Q R) (x : DidSo meaning c a) (y : DidSo meaning c b) → named c y.own ≡ named c x.own →
        met_in b y.requests y.asked ≡ met_in a x.requests x.asked → unread b y.from ≡ unread a x.from → IsSame c a b x y }
{}

/// What a command of a session booked, asked and answered is the outcome of its dialogue on what it met.
pub fn outcome_of_a_command<C, A, E, Q, R>()
    ensures { (meaning : Meaning C A E Q R) (c : C) (answers : List (List A)) (course : Course Q R) (x : RanSo meaning c answers course) → IsOutcome c answers course x }
{}

/// So in two sessions, whatever else they did, two reports say the same answer of a command that met the same and names the same.
pub fn isolation_of_answers<C, A, E, Q, R, N>()
    ensures { (meaning : Meaning C A E Q R) (named : C → E → N) → IsByNames meaning named →
        (c : C) (one two : List (List A)) (a b : Course Q R) (x : RanSo meaning c one a) (y : RanSo meaning c two b) → named c y.did.before ≡ named c x.did.before →
        met_by b y.handle y.place ≡ met_by a x.handle x.place → entry_at two y.handle y.place ≡ entry_at one x.handle x.place }
{}

/// Two dialogues that go on from one another in the same way but for what their scripts have then are the same but for that.
pub fn alone_behind<Q, R, X, A, E>()
    ensures { (d : Dialogue Q R X) (k l : X → Dialogue Q R (Ending A E)) → ((x : X) → answer_alone (k x) ≡ answer_alone (l x)) →
        answer_alone (behind d k) ≡ answer_alone (behind d l) }
{}

/// A command that begins in a turn of its handle answers in one.
pub fn answers_in_own_turn<Q, R, A>()
    ensures { (course : Course Q R) (handle : ℕ) (at : Point) (d : Dialogue Q R A) (requests : List Request) (asked : List (Asked Q R)) (given : Given A) →
        IsOwnTurn course.trace handle at.turn at.turn → Unfolds course handle at d requests asked given → IsOwnTurn course.trace handle at.turn given.at.turn }
{}

/// A command without a part that waits can unfold in one way only: its answer and its turn follow from the session.
pub fn unfolds_in_one_way<Q, R, A>()
    ensures { (course : Course Q R) (handle : ℕ) (at : Point) (d : Dialogue Q R A) (requests : List Request) (asked : List (Asked Q R)) (x y : Given A) → NoPuts d →
        Unfolds course handle at d requests asked x → Unfolds course handle at d requests asked y → x ≡ y }
{}

/// A dialogue whose answer is told in other words unfolds as it does by itself.
pub fn told_in_other_words<Q, R, A, B>()
    ensures { (course : Course Q R) (handle : ℕ) (at : Point) (d : Dialogue Q R A) (f : A → B) (requests : List Request) (asked : List (Asked Q R)) (given : Given B) →
        Unfolds course handle at (behind d (λ a. Answers (f a))) requests asked given → Unmapped course handle at d f requests asked given }
{}

/// A simple query that unfolds has one request of its own, and answers the reading of that request's reply.
pub fn simple_query_as_before<Q, R>()
    ensures { (course : Course Q R) (handle place : ℕ) (text : List ℕ) (take : Option ℕ) (times : Times) (answer : SimpleAnswer) (from : ℕ) →
        IsFirstTurn course.trace handle from (λ place. ⊤) times.begins → UnfoldsSimple course handle place text take times answer →
        IsAsBefore course handle place text take times answer }
{}

/// And one that did so, and asked its desk nothing, unfolds, wherever the former command stopped.
pub fn simple_query_unfolds<Q, R>()
    ensures { (course : Course Q R) (handle place : ℕ) (text : List ℕ) (take : Option ℕ) (times : Times) (answer : SimpleAnswer) (from : ℕ) (former : Point) →
        IsFirstTurn course.trace handle from (λ place. ⊤) times.begins → questions_of course.asked handle place ≡ [] →
        IsAsBefore course handle place text take times answer → UnfoldsBehind course handle place text take times answer former }
{}

/// Where commands have run as they mean, those among them that are simple queries did so.
pub fn headline_of_all<C, A, E, Q, R>()
    ensures { (meaning : Meaning C A E Q R) (how : Simply C A) → AreSimple meaning how →
        (scripts : List (List C)) (turns : List ℕ) (answers : List (List A)) (course : Course Q R) (run : HasRun meaning scripts turns answers course) →
        Headline how scripts answers course run.schedule }
{}
