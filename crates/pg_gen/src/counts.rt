//! How much was answered.

ghost use Rattle.std.specs.Prelude.{◌≡◌, ◌+◌, map, fold, IfOk};
ghost use Rattle.pg_text.specs.Views.{item_of};
ghost use Rattle.pg_gen.specs.Counting as spec;

use pg_text::{Answer, SimpleMessage};
use pg_types::{List, OutOfMemory};

/// What some answers come to. A number that passes 64 bits wants more memory than there is; the sum of
/// the affected rows stays at the largest.
#[derive(Clone, Copy, Drop)]
pub(crate) struct Counts {
    pub(crate) commands: u64,
    pub(crate) failed: u64,
    pub(crate) messages: u64,
    pub(crate) rows: u64,
    pub(crate) complete: u64,
}

impl Counts {
    /// The counts of all scripts.
    pub(crate) fn of(scripts: &[List<Answer>]) -> Result<Counts, OutOfMemory>
        ensures { IfOk result (λ c. c ≡ fold spec.with_script spec.none scripts.now) }
    {
        let mut counts = Counts {
            commands: 0,
            failed: 0,
            messages: 0,
            rows: 0,
            complete: 0,
        };
        for script in scripts {
            counts = counts.with_script(script.as_slice())?;
        }
        Ok(counts)
    }

    fn with_script(self, answers: &[Answer]) -> Result<Counts, OutOfMemory>
        ensures { IfOk result (λ c. c ≡ spec.with_script self answers.now) }
    {
        let mut counts = self;
        for answer in answers {
            counts = counts.with_answer(answer)?;
        }
        Ok(counts)
    }

    fn with_answer(mut self, answer: &Answer) -> Result<Counts, OutOfMemory>
        ensures { IfOk result (λ c. c ≡ spec.with_answer self answer.now) }
    {
        self.commands = one_more(self.commands)?;
        match answer {
            Answer::Done
            | Answer::Statement(_)
            | Answer::Rows { .. }
            | Answer::Scalars(_)
            | Answer::Count(_) => Ok(self),
            Answer::Messages(messages) => self.with_messages(messages.as_slice()),
            Answer::Failed(_) => {
                self.failed = one_more(self.failed)?;
                Ok(self)
            }
        }
    }

    fn with_messages(self, messages: &[SimpleMessage]) -> Result<Counts, OutOfMemory>
        ensures { IfOk result (λ c. c ≡ fold spec.with_item self (map item_of messages.now)) }
    {
        let mut counts = self;
        for message in messages {
            counts = counts.with_message(message)?;
        }
        Ok(counts)
    }

    fn with_message(mut self, message: &SimpleMessage) -> Result<Counts, OutOfMemory>
        ensures { IfOk result (λ c. c ≡ spec.with_item self (item_of message.now)) }
    {
        self.messages = one_more(self.messages)?;
        match message {
            SimpleMessage::Columns(_) => {}
            SimpleMessage::Row(_) => self.rows = one_more(self.rows)?,
            SimpleMessage::Complete(affected) => {
                self.complete = self.complete.saturating_add(*affected);
            }
        }
        Ok(self)
    }
}

/// One more, if 64 bits hold it.
fn one_more(count: u64) -> Result<u64, OutOfMemory>
    ensures { IfOk result (λ n. n ≡ count + 1) }
{
    count.checked_add(1).ok_or(OutOfMemory)
}
