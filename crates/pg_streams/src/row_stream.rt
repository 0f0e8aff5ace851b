//! The rows of a query, one a poll.
//! A reply that was taken before is kept as the batches that came, and read once more row by row, so that one loop
//! reads both.

ghost use Rattle.std.specs.Prelude.{◌≡◌, ◌||◌, ◌++◌, [], List, None, Some, Ok, true, false, MatchResult};
ghost use Rattle.futures.specs.declared.task.Poll.TheVariants.{Ready};
ghost use Rattle.pg_spec.specs.RawMessages.{RawMessage};
ghost use Rattle.pg_query.specs.Dialogue.{Answer, feed};
ghost use Rattle.pg_query.specs.Meaning.{GoesToAnswer, MatchPoll};
ghost use Rattle.pg_query.specs.Reading.{reads};
ghost use Rattle.pg_streams.specs.Brought.{collected, joined};
ghost use Rattle.pg_streams.specs.Collecting.{NothingDone, is_last, place_of};
ghost use Rattle.pg_streams.specs.RowStates.{AwaitsRow, GivesRow, affected_of, opening_told, rows_behind, rows_given_up, rows_over, rows_place, rows_stand, rows_taken, statement_of, unread};
ghost use Rattle.pg_streams.specs.RowStates as spec;
ghost use Rattle.pg_streams.specs.RowStreams.{rows_from};

use crate::giving::Told;
use crate::items::Items;
use crate::row_giving::{RowGiving, RowOpening};
use futures::task::Poll;
use pg_desk::{Column, Desk, Stamp, Statement};
use pg_errors::Error;
use pg_rows::Row;
use pg_wire::BackendMessages;
use std::alloc::Global;
use std::collections::VecDeque;

/// The rows of a query. It must be spent: once it gave its end or an error, or before, by `hang_up`.
pub struct RowStream {
    pub(crate) items: Items<RowGiving>,
    /// The rest of the reply was taken before, and the request was hung up then.
    pub(crate) taken: bool,
    /// The batches of it behind the one that is read.
    pub(crate) later: VecDeque<BackendMessages>,
}

/// The items of rows where nothing was told yet, of which this batch is read next.
fn rows_next(statement: Statement, id: u64, batch: BackendMessages) -> Items<RowGiving>
    ensures { result ≡ record { giving = record { statement = statement; affected = None }; id = id; batch = batch; close = None; over = false } }
{
    let giving = RowGiving {
        statement,
        affected: None,
    };
    Items {
        giving,
        id,
        batch,
        close: None,
        over: false,
    }
}

impl RowStream {
    /// The rows behind BindComplete. It takes no memory.
    pub(crate) fn opened(alloc: Global, items: Items<RowOpening>) -> RowStream
        requires { items.giving.bound ≡ true }
        ensures stands { rows_place result ≡ place_of opening_told items }
        ensures is { result.items ≡ record { giving = record { statement = items.giving.statement; affected = None }; id = items.id; batch = items.batch; close = items.close; over = items.over } }
        ensures taken { result.taken ≡ false }
    {
        let Items {
            giving,
            id,
            batch,
            close,
            over,
        } = items;
        let RowOpening { statement, .. } = giving;
        let giving = RowGiving {
            statement,
            affected: None,
        };
        let items = Items {
            giving,
            id,
            batch,
            close,
            over,
        };
        RowStream {
            items,
            taken: false,
            later: VecDeque::new(alloc),
        }
    }

    /// The rows of this statement in the reply to the request of this number, behind its columns; of that these messages came, and
    /// aren't read yet. It takes no memory.
    pub fn behind_columns(
        alloc: Global,
        statement: Statement,
        id: u64,
        batch: BackendMessages,
    ) -> RowStream
        ensures stands { rows_place result ≡ record { dialogue = feed batch (reads false (rows_from statement true None)); reads = id } }
        ensures unread { unread result ≡ batch }
        ensures statement { statement_of result ≡ statement }
        ensures taken { rows_taken result ≡ false }
        ensures on { rows_over result ≡ false }
        ensures affected { affected_of result ≡ None }
    {
        RowStream {
            items: rows_next(statement, id, batch),
            taken: false,
            later: VecDeque::new(alloc),
        }
    }

    /// The rows of this statement in what was taken behind its columns, up to the end of the reply; the request was hung up then. It
    /// takes no memory.
    pub fn of_taken(statement: Statement, batches: VecDeque<BackendMessages>) -> RowStream
        ensures stands { (rows_place result).dialogue ≡ Answer (collected (feed (joined batches.items) (reads false (rows_from statement true None)))) }
        ensures unread { unread result ≡ joined batches.items }
        ensures statement { statement_of result ≡ statement }
        ensures taken { rows_taken result ≡ true }
        ensures on { rows_over result ≡ false }
        ensures affected { affected_of result ≡ None }
    {
        RowStream {
            items: rows_next(statement, 0, BackendMessages::empty()),
            taken: true,
            later: batches,
        }
    }

    /// The columns of the rows, also where no row came. It takes no memory.
    pub fn columns(&self) -> &[Column]
        ensures { result.now ≡ (statement_of self.now).columns }
    {
        self.items.giving.statement.columns()
    }

    /// How many rows the last command affected, as far as the reply was read: None until a command ended. At the end of the
    /// reply it is what one has who collected the rows.
    pub fn rows_affected(&self) -> Option<u64>
        ensures { result ≡ affected_of self.now }
    {
        self.items.giving.affected
    }

    /// What the messages that were taken tell next.
    fn told(&mut self, alloc: Global) -> Result<Told<Row>, Error>
        requires { self.old.taken ≡ true }
        ensures tells { MatchResult result (λ told. rows_stand told self.new ≡ rows_behind self.old) (λ e. e ≡ Error.OutOfMemory) }
        ensures taken { self.new.taken ≡ true }
        ensures over { self.new.items.over ≡ self.old.items.over }
        ensures statement { statement_of self.new ≡ statement_of self.old }
    {
        loop {
            if let Some(told) = self.items.read(alloc)? {
                return Ok(told);
            }
            match self.later.pop_front() {
                Some(batch) => self.items.refill(batch),
                None => return Ok(Told::Fails(Error::UnexpectedMessage)),
            }
        }
    }

    /// The next row of what was taken.
    fn next_taken(&mut self, alloc: Global) -> Option<Result<Row, Error>>
        requires { self.old.taken ≡ true }
        ensures gives { spec.GivesTaken self.old self.new result }
        ensures taken { self.new.taken ≡ true }
        ensures over { rows_over self.new ≡ (rows_over self.old || is_last (Ready result)) }
        ensures statement { statement_of self.new ≡ statement_of self.old }
    {
        match self.told(alloc) {
            Ok(Told::Item(row)) => Some(Ok(row)),
            Ok(Told::Ends) => {
                self.items.over = true;
                None
            }
            Ok(Told::Fails(error)) => {
                self.items.over = true;
                Some(Err(error))
            }
            Err(error) => {
                self.items.over = true;
                Some(Err(error))
            }
        }
    }

    /// The next row. Pending comes exactly where no message is there that tells one; None at the end of the reply, and from
    /// then on. An error is given once, and None from then on. The errors are those of a query: behind one that a message
    /// tells the request was hung up; Closed comes where the desk gives no more of the reply. Where the reply was taken before, its
    /// request was hung up then, and nothing is asked of the desk. At OutOfMemory nobody reads or hangs up what is left of the
    /// reply: the connection is to be given up, but where the reply was taken before.
    pub fn poll_next<D: Desk>(
        &mut self,
        alloc: Global,
        desk: &mut D,
        stamp: Stamp,
    ) -> Poll<Option<Result<Row, Error>>>
        ensures gives { rows_over self.old ≡ false → MatchPoll result
            (λ next. GivesRow D.becomes stamp desk.old (rows_behind self.old) desk.new self.new next)
            (AwaitsRow D.becomes stamp desk.old (rows_behind self.old) desk.new self.new) }
        ensures over { rows_over self.new ≡ (rows_over self.old || is_last result) }
        ensures nothing { rows_over self.old ≡ true → (result ≡ Ready None) × NothingDone desk.old self.old desk.new self.new }
        ensures statement { statement_of self.new ≡ statement_of self.old }
    {
        if !self.taken {
            return self.items.poll_next(alloc, desk, stamp);
        }
        if self.items.over {
            return Poll::Ready(None);
        }
        Poll::Ready(self.next_taken(alloc))
    }

    /// Gives it up: the request is hung up, and a statement is closed that was prepared for it. Behind the end and an error
    /// nothing is left to do, nor where the reply was taken before. Closed comes where the desk takes no requests any more.
    pub fn hang_up<D: Desk>(self, alloc: Global, desk: &mut D, stamp: Stamp) -> Result<(), Error>
        ensures gives_up { rows_over self ≡ false → GoesToAnswer D.becomes stamp desk.old (rows_given_up self) desk.new result }
        ensures nothing { rows_over self ≡ true → (result ≡ Ok tt) × (desk.new ≡ desk.old) }
    {
        let RowStream {
            items,
            taken,
            later: _later,
        } = self;
        if taken {
            return Ok(());
        }
        items.hang_up(alloc, desk, stamp)
    }
}
