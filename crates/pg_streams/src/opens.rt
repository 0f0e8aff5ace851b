//! What the state of a command is to the one who polls it, where it hands on a stream of its reply.

ghost use Rattle.std.specs.Prelude.{◌≡◌, List, Option, Some, None, IfOk};
ghost use Rattle.pg_spec.specs.RawMessages.{RawMessage};
ghost use Rattle.pg_query.specs.Dialogue.{Dialogue};
ghost use Rattle.pg_query.specs.Meaning.{Place, GivesUp, MatchPoll};
ghost use Rattle.pg_streams.specs.Families.{PausesFor};
ghost use Rattle.pg_streams.specs.Handing.{HandsOn, HandsOnLater, PausesLater, alone, asking};
ghost use Rattle.pg_streams.specs.Hearing.{First};

use futures::task::Poll;
use pg_desk::{Desk, Stamp};
use pg_errors::Error;
use std::alloc::Global;

/// A command that is polled over a desk, until it hands on a stream of its reply. Its meaning is what one asks and is answered
/// who collects that stream.
pub trait Opens {
    type Stream;

    /// What one has who collected the stream.
    ghost Whole: { Type 0 };

    /// Where he stands, and the request that is read.
    ghost place: { Self → Place Whole };

    /// What is known of the reply before its stream is handed on, and stays.
    ghost Known: { Type 0 };

    /// That of a state. None until it was found out, where it has to be.
    ghost knows: { Self → Option Known };

    /// That of a stream.
    ghost known: { Self.Stream → Known };

    /// What he asks and is answered who found that out; or what he asks who stands there, where the reply itself tells that.
    ghost asks: { Self → Known → Dialogue Whole };

    /// Where he stands who finds that out, and the request that is read then. It is read by nobody where it is known.
    ghost finding: { Self → Place Known };

    /// By that the stream is brought whole, before all was found out.
    ghost is_whole: { Known → Type 0 };

    /// What is told first of the reply, where more messages come: the item that opens the stream, or an error.
    ghost first: { Self → Known → List RawMessage → First (Unit {0}) (Unit {0}) };

    /// Where he stands once he has the stream.
    ghost stands: { Self.Stream → Place Whole };

    /// What was told first then. The messages that are left are those that the stream reads next.
    ghost opened: { Self.Stream → List RawMessage → First (Unit {0}) (Unit {0}) };

    /// The stream gives more, and stands as one that is handed on.
    ghost is_open: { Self.Stream → Type 0 };

    /// It hasn't answered.
    ghost is_live: { Self → Type 0 };

    /// Goes on until it hands on the stream, or an error, or no message is there. Each state says when which error comes. Behind
    /// one that a message tells the request was hung up; at OutOfMemory nobody reads or hangs up what is left of the reply.
    /// Where it has to find out what it asks for, some of the events do that, and what is told first is said of the others; or all
    /// that the stream gives was brought before that, and what is told first is said of what brought it. Where the reply itself tells
    /// what is found out, both are said of all events. What is known of the
    /// stream is what one is answered who finds that out.
    fn poll<D: Desk>(
        &mut self,
        alloc: Global,
        desk: &mut D,
        stamp: Stamp,
    ) -> Poll<Result<Self::Stream, Error>>
        requires { is_live self.old }
        ensures opens { (k : Known) → knows self.old ≡ Some k → MatchPoll result
            (λ r. HandsOn D.becomes (λ s. alone (stands s) (opened s)) is_open stamp desk.old (alone (place self.old) (first self.old k)) desk.new r)
            (PausesFor D.becomes stamp desk.old (alone (place self.old) (first self.old k)) desk.new (alone (place self.new) (first self.new k)) × is_live self.new) }
        ensures known { (k : Known) → knows self.old ≡ Some k → MatchPoll result (λ r. IfOk r (λ stream. known stream ≡ k)) (knows self.new ≡ Some k) }
        ensures finds { knows self.old ≡ None → MatchPoll result
            (λ r. HandsOnLater D.becomes (λ s. alone (stands s) (opened s)) is_open known is_whole stamp desk.old (finding self.old) (place self.old) (asking (asks self.old) (first self.old)) desk.new r)
            (PausesLater D.becomes stamp desk.old (finding self.old) (place self.old) (asking (asks self.old) (first self.old)) is_whole desk.new (finding self.new) (place self.new) (asking (asks self.new) (first self.new)) (knows self.new) × is_live self.new) };

    /// Ends it without an answer, and does what is left to do.
    fn hang_up<D: Desk>(self, alloc: Global, desk: &mut D, stamp: Stamp) -> Result<(), Error>
        requires { is_live self }
        ensures { GivesUp D.becomes stamp desk.old (place self) desk.new result };
}
