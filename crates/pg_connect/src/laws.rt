//! Laws over the definitions: they show what these mean. Each body does nothing.

ghost use Rattle.std.specs.Prelude.{◌≡◌, ℕ, List, ◌++◌, IsTrue, true, false, []};
ghost use Rattle.pg_spec.specs.Frames.{terminate_frame};
ghost use Rattle.pg_spec.specs.Links.{LinkView};
ghost use Rattle.pg_spec.specs.Parameters.{AreLastValues, last_value};
ghost use Rattle.pg_spec.specs.RawMessages.{RawMessage, messages, sync_of};
ghost use Rattle.pg_desk.specs.declared.event.Event.{Event};
ghost use Rattle.pg_connect.specs.declared.streams.Streams.{Streams};
ghost use Rattle.pg_connect.specs.Answers.{fresh, left_open};
ghost use Rattle.pg_connect.specs.Passed.{delivered_by, bytes_out_by};
ghost use Rattle.pg_connect.specs.Kept.{keep_all, value_of};
ghost use Rattle.pg_connect.specs.Passes.{Passes};
ghost use Rattle.pg_connect.specs.Reads.{AllDecoded, is_full};
ghost use Rattle.pg_connect.specs.Ends.{some_is};
ghost use Rattle.pg_connect.specs.Polls.{Waits};
ghost use Rattle.pg_connect.specs.Histories.{History, Stands, Settled, extended};

/// What a session carries from poll to poll: whatever passed in a poll, the history grows by it. And what
/// it reads off: a front of the messages, and in the end all of the bytes.
pub fn history_of_a_connection()
    ensures grows { (s t : Streams) (base l m : LinkView) (events : List Event) (handed : List RawMessage) (h : History) →
        Stands s base l h → Passes (fresh s) (left_open t) l m events handed → (read : List RawMessage) × Stands t base m (extended h read events handed) }
    ensures delivered { (s : Streams) (base l : LinkView) (h : History) → Stands s base l h → (rest : List RawMessage) × (sync_of h.read ≡ delivered_by h.events ++ rest) }
    ensures all_taken { (s : Streams) (base l : LinkView) (h : History) (is : Stands s base l h) → s.closing ≡ false → s.unsent ≡ [] →
        is.taken ≡ h.opening ++ bytes_out_by h.events }
    ensures all_sent { (s : Streams) (base l : LinkView) (h : History) (is : Stands s base l h) → s.closing ≡ true → s.unsent ≡ [] →
        is.taken ≡ (h.opening ++ bytes_out_by h.events) ++ terminate_frame }
    ensures all_read { (s : Streams) (base l : LinkView) (h : History) (is : Stands s base l h) → is.lost ≡ [] → AllDecoded s → messages is.given ≡ h.startup ++ h.read }
{}

/// What is kept of reports: each reported name once, with its last value, ascending by the name's bytes.
pub fn settings_of_a_connection()
    ensures last { (reports : List (List ℕ × List ℕ)) → AreLastValues reports (keep_all [] reports) }
    ensures value { (reports : List (List ℕ × List ℕ)) (name : List ℕ) → value_of (keep_all [] reports) name ≡ last_value reports name }
{}

/// A poll over a steady link that had to wait, and met no full mailbox, left nothing to be done.
pub fn settled_poll()
    ensures { (s t : Streams) (l m : LinkView) (events : List Event) →
        Waits s t l m events → IsTrue l.steady → s.closing ≡ false → some_is is_full events ≡ false → Settled t l m events }
{}
