//! What was sent where a session failed, and how the link stands then. Each body does nothing.

ghost use Rattle.std.specs.Prelude.{◌≡◌, ℕ, List, Result, Err};
ghost use Rattle.pg_promises.specs.Calls.{Call, apart};
ghost use Rattle.pg_promises.specs.Kept.{NoneKeptBack};
ghost use Rattle.pg_promises.specs.Sent.{SentInOrder};
ghost use Rattle.pg_promises.specs.Causes.{NeedsNoTls, OfDialogue};
ghost use Rattle.pg_promises.specs.ConnectionStrings.{Means};
ghost use Rattle.pg_spec.specs.Settings.{Settings};
ghost use Rattle.pg_spec.specs.Faults as faults;
ghost use Rattle.pg_spec.specs.Links.{LinkView};
ghost use Rattle.pg_spec.specs.Startup.{plain_login};
ghost use Rattle.pg_startup.specs.Startups.{Failed};
ghost use Rattle.pg_startup.specs.declared.startup.Startup.{Startup};
ghost use Rattle.pg_types.specs.declared.error.Error.{Error};
ghost use Rattle.pg_session.specs.Speeches.{AreCommands, BookWhole, LetGo, Speech, meaning_of};
ghost use Rattle.pg_session.specs.Failures.{HasBroken, StopsOpening, WasOver};
ghost use Rattle.pg_session.specs.WholeSession.{LeavesOpen, WasClosed};

/// Where a session failed in its startup, a front of the startup's frames was sent; where it failed behind it, the
/// frames and then a front of requests and Terminate, each handle's requests in the order of its script.
pub fn what_was_sent_where_it_failed<C, T, A, E>()
    ensures startup { (speech : Speech C T A E) (call : Call C) (settings : Settings) (s : Startup) (e : Error) → Means call.config settings → NeedsNoTls settings →
        Failed (plain_login settings call.nonce) 0 call.before call.after s e → OfDialogue (apart call) (λ s g t. SentInOrder (meaning_of speech) call s g t) }
    ensures stalled { (speech : Speech C T A E) (call : Call C) (settings : Settings) (s : Startup) (before after : ℕ) → Means call.config settings →
        StopsOpening settings call.nonce call.before call.after s (Error.Stalled before after) → OfDialogue (apart call) (λ s g t. SentInOrder (meaning_of speech) call s g t) }
    ensures later { (speech : Speech C T A E) → AreCommands speech → LetGo speech → BookWhole speech → (call : Call C) (settings : Settings) (e : Error) → Means call.config settings →
        (b : HasBroken speech settings call.nonce call.scripts call.before call.after e) → b.startup.bytes.max_bytes ≡ call.limit →
        OfDialogue (apart call) (λ s g t. SentInOrder (meaning_of speech) call s g t) }
{}

/// Over a steady link a session that stalled behind its startup, and whose commands copy nothing, had sent requests in
/// script order, each whole. Each script whose first command asks as soon as it begins has one of its own.
pub fn what_was_asked_where_it_stalled<C, T, A, E>()
    ensures startup { (speech : Speech C T A E) (call : Call C) (settings : Settings) (s : Startup) (before after : ℕ) (result : Result T faults.Failure) → Means call.config settings →
        StopsOpening settings call.nonce call.before call.after s (Error.Stalled before after) → result ≡ Err (faults.Stalled before after) → NoneKeptBack (meaning_of speech) call result }
    ensures later { (speech : Speech C T A E) → AreCommands speech → LetGo speech → BookWhole speech → (call : Call C) (settings : Settings) (before after : ℕ) (result : Result T faults.Failure) → Means call.config settings →
        (b : HasBroken speech settings call.nonce call.scripts call.before call.after (Error.Stalled before after)) → b.startup.bytes.max_bytes ≡ call.limit →
        result ≡ Err (faults.Stalled before after) → NoneKeptBack (meaning_of speech) call result }
{}

/// Where a session failed behind its startup, the link isn't shut down, unless memory lacked behind its end: then
/// Terminate was taken and flushed, and the link is shut down.
pub fn the_link_stays_open_where_it_failed<C, T, A, E>()
    ensures later { (speech : Speech C T A E) (settings : Settings) (nonce : List ℕ) (scripts : List (List C)) (before after : LinkView) (e : Error) →
        HasBroken speech settings nonce scripts before after e → LeavesOpen before after e }
    ensures over { (speech : Speech C T A E) (settings : Settings) (nonce : List ℕ) (scripts : List (List C)) (before after : LinkView) →
        WasOver speech settings nonce scripts before after → WasClosed before after }
{}
