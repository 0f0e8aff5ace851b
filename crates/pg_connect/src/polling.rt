//! One poll of the connection.

ghost use Rattle.std.specs.Prelude.{◌≡◌, ◌^◌, ◌<◌, ◌≤◌, true, false, [], ◌∷◌};
ghost use Rattle.pg_connect.specs.Calm.{MissesFew, StaysCalm};
ghost use Rattle.pg_connect.specs.Answers.{PollAnswers, IsWithinPoll, is_over};
ghost use Rattle.pg_desk.specs.declared.event.Event.TheVariants.{Fail};

use crate::{Streams, TurnEnd};
use futures::task::Poll;
use pg_desk::Engine;
use pg_errors::{AsyncMessage, Error};
use pg_wire::Link;
use std::alloc::Global;

impl Streams {
    /// It answered its end or an error, the link gave its end, or a message was left unread.
    fn is_over(&self) -> bool
        ensures { result ≡ is_over self.now }
    {
        self.ended || self.at_end || self.unread.is_some()
    }

    /// Nothing has moved yet.
    fn begin(&mut self)
        ensures { self.new ≡ record self.old { moved = false } }
    {
        self.moved = false;
    }

    /// Nothing will move any more.
    fn end(&mut self)
        ensures { self.new ≡ record self.old { ended = true } }
    {
        self.ended = true;
    }

    /// Reads, writes and flushes. Its end (`None`) or an error is answered once, and Closed from then on;
    /// an error makes the hub fail. The errors are those of `ConnectionFault`.
    #[tactic(auto, using(crate::proofs::Calm::no_lulls))]
    pub fn poll_message<L: Link, E: Engine>(
        &mut self,
        alloc: Global,
        link: &mut L,
        hub: &mut E,
    ) -> Poll<Option<Result<AsyncMessage, Error>>>
        requires limit { self.old.max_bytes < 2 ^ 63 }
        requires given { self.old.ended ≡ false → self.old.given ≤ self.old.max_bytes }
        ensures answer { PollAnswers E.becomes hub.old hub.new self.old self.new (L.view link.old) (L.view link.new) result }
        ensures limit { self.new.max_bytes ≡ self.old.max_bytes }
        ensures given { self.new.ended ≡ false → self.new.given ≤ self.new.max_bytes }
        ensures limit_kept { self.old.ended ≡ false → IsWithinPoll self.new result }
        ensures no_lull { StaysCalm (L.view link.old) (L.view link.new) }
        ensures quiet { MissesFew (L.view link.old) (L.view link.new) }
    {
        let over = self.is_over();
        self.begin();
        if over {
            return Poll::Ready(Some(Err(Error::Closed)));
        }
        match self.turn(alloc, link, hub) {
            Ok(TurnEnd::Handed(message)) => Poll::Ready(Some(Ok(message))),
            Ok(TurnEnd::Waits) => Poll::Pending,
            Ok(TurnEnd::Over) => {
                self.end();
                Poll::Ready(None)
            }
            Err(fault) => {
                self.end();
                let _ = hub.fail();
                Poll::Ready(Some(Err(fault.into_error())))
            }
        }
    }
}
