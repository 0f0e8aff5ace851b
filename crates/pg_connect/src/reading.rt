//! The read step: messages come off the bytes of the link and are passed on.

ghost use Rattle.std.specs.Prelude.{◌≡◌, ◌^◌, ◌<◌, ◌≤◌, ◌++◌, ◌+◌, [], true, None, Some, Ok, length, take, OnOk};
ghost use Rattle.pg_spec.specs.Batches.{is_batch};
ghost use Rattle.pg_spec.specs.Links.{LinkView};
ghost use Rattle.pg_connect.specs.Calm.{MissesNone, MissesOne, StaysCalm};
ghost use Rattle.pg_connect.specs.Passes.{PassesOn, Goes, Hands, OnlyReads, risen, waiting};
ghost use Rattle.pg_connect.specs.Reads.{IsUnasked, HandedOff, OffEnds, DeliverEnds, HandedIn, PassEnds, IsWithin, HandedAll, AllEnds, PieceEnds, HandedBy, ReadEnds, ReadStops, ReadsOn, TakesIn, piece_size};

use crate::asides::unasked;
use crate::{ConnectionFault, Held, Off, ReadEnd, Step, Streams};
use bytes::BytesMut;
use pg_desk::{Deliver, Engine};
use pg_wire::{BackendMessage, BackendMessages, Link, LinkRead, PostgresCodec, WireFault};
use std::alloc::{AllocError, Global};

/// How many bytes are read at once, at most.
pub(crate) const PIECE: usize = 8192;

/// How much room is made at once, in bytes. Batches share the buffer that they were cut off, so a full one is
/// left to them and a new one is taken: a large one is renewed seldom.
const ROOM: usize = 32_768;

/// Makes room for a piece, where there is none: to read it into, and in the buffer.
fn make_room(piece: &mut Vec<u8>, buffer: &mut BytesMut) -> Result<(), AllocError>
    ensures items { buffer.new.items ≡ buffer.old.items }
    ensures room { OnOk result (piece_size ≤ buffer.new.spare) }
    ensures piece { OnOk result (length piece.new.items ≡ piece_size) }
{
    if piece.len() != PIECE {
        piece.resize(PIECE, 0)?;
    }
    if buffer.capacity() - buffer.len() >= PIECE {
        return Ok(());
    }
    buffer.reserve(ROOM)
}

impl Streams {
    /// Holds a batch until it can be delivered.
    fn hold(&mut self, batch: BackendMessages, complete: bool)
        requires cut { is_batch complete batch ≡ true }
        requires some { 0 < length batch }
        ensures held { waiting self.new.held ≡ batch }
        ensures same { self.new ≡ record self.old { held = self.new.held } }
    {
        self.held = Some(Held { batch, complete });
    }

    /// Takes the batch or the message in front off the bytes. A batch is held then.
    pub(crate) fn take_off(&mut self, alloc: Global) -> Result<Off, ConnectionFault>
        requires held { self.old.held ≡ None }
        requires delayed { self.old.delayed.items ≡ [] }
        requires unread { self.old.unread ≡ None }
        ensures passes { (l : LinkView) → PassesOn self.old self.new l l [] (HandedOff result) }
        ensures end { OffEnds self.old self.new result }
        ensures delayed { self.new.delayed.items ≡ [] }
        ensures unread { OnOk result (self.new.unread ≡ None) }
        ensures closing { self.new.closing ≡ self.old.closing }
        ensures at_end { self.new.at_end ≡ self.old.at_end }
    {
        match PostgresCodec::decode(&mut self.buffer) {
            Ok(None) => Ok(Off::Nothing),
            Ok(
                Some(
                    BackendMessage::Normal {
                        messages,
                        request_complete,
                    },
                ),
            ) => {
                self.hold(messages, request_complete);
                Ok(Off::Held)
            }
            Ok(Some(BackendMessage::Async(message))) => self.take_aside(alloc, message),
            Err(WireFault::BadLength) => Err(ConnectionFault::BadLength),
            Err(WireFault::Layout) => Err(ConnectionFault::Layout),
            Err(_) => Err(ConnectionFault::OutOfMemory),
        }
    }

    /// Counts messages that the hub took or discarded.
    fn count(&mut self, messages: usize)
        ensures { self.new ≡ record self.old { delivered = risen self.old.delivered messages; moved = true } }
    {
        self.delivered = self.delivered.saturating_add(messages as u64);
        self.moved = true;
    }

    /// Gives the batch that is held, if one is, to the hub. `false`: its mailbox is full.
    pub(crate) fn deliver_held<E: Engine>(
        &mut self,
        alloc: Global,
        hub: &mut E,
    ) -> Result<bool, ConnectionFault>
        requires { self.old.unread ≡ None }
        ensures goes { (l : LinkView) → Goes E.becomes hub.old hub.new self.old self.new l l [] (DeliverEnds self.new result) }
        ensures buffer { self.new.buffer ≡ self.old.buffer }
        ensures delayed { self.new.delayed.items ≡ self.old.delayed.items }
        ensures unread { self.new.unread ≡ None }
        ensures closing { self.new.closing ≡ self.old.closing }
        ensures at_end { self.new.at_end ≡ self.old.at_end }
    {
        let held = match self.held.take() {
            None => return Ok(true),
            Some(held) => held,
        };
        let Held { batch, complete } = held;
        let messages = batch.len();
        match hub.deliver(batch, complete) {
            Deliver::Taken => {
                self.count(messages);
                Ok(true)
            }
            Deliver::Full(batch) => {
                self.hold(batch, complete);
                Ok(false)
            }
            Deliver::NoRequest(batch) => {
                let fault = unasked(alloc, &batch);
                self.hold(batch, complete);
                Err(fault)
            }
            Deliver::OutOfMemory(batch) => {
                self.hold(batch, complete);
                Err(ConnectionFault::OutOfMemory)
            }
        }
    }

    /// Passes on the batch or the message in front. `None`: it went on.
    pub(crate) fn pass_on<E: Engine>(
        &mut self,
        alloc: Global,
        hub: &mut E,
    ) -> Result<Option<Step>, ConnectionFault>
        requires held { self.old.held ≡ None }
        requires delayed { self.old.delayed.items ≡ [] }
        requires unread { self.old.unread ≡ None }
        ensures goes { (l : LinkView) → Hands E.becomes hub.old hub.new self.old self.new l l (HandedIn result) (PassEnds self.old self.new result) }
        ensures delayed { self.new.delayed.items ≡ [] }
        ensures unread { OnOk result (self.new.unread ≡ None) }
        ensures closing { self.new.closing ≡ self.old.closing }
        ensures at_end { self.new.at_end ≡ self.old.at_end }
    {
        match self.take_off(alloc) {
            Ok(Off::Held) => match self.deliver_held(alloc, hub) {
                Ok(true) => Ok(None),
                Ok(false) => Ok(Some(Step::Full)),
                Err(e) => Err(e),
            },
            Ok(Off::Kept) => Ok(None),
            Ok(Off::Handed(message)) => Ok(Some(Step::Handed(message))),
            Ok(Off::Nothing) => Ok(Some(Step::Nothing)),
            Err(e) => Err(e),
        }
    }

    /// Passes on all that is buffered, up to a message to hand out or a full mailbox.
    pub(crate) fn pass_all<E: Engine>(
        &mut self,
        alloc: Global,
        hub: &mut E,
    ) -> Result<Step, ConnectionFault>
        requires held { self.old.held ≡ None }
        requires delayed { self.old.delayed.items ≡ [] }
        requires unread { self.old.unread ≡ None }
        ensures goes { (l : LinkView) → Hands E.becomes hub.old hub.new self.old self.new l l (HandedAll result) (AllEnds self.old self.new result) }
        ensures delayed { self.new.delayed.items ≡ [] }
        ensures unread { OnOk result (self.new.unread ≡ None) }
        ensures closing { self.new.closing ≡ self.old.closing }
        ensures at_end { self.new.at_end ≡ self.old.at_end }
    {
        'front: loop {
            match self.pass_on(alloc, hub) {
                Ok(None) => {}
                Ok(Some(step)) => return Ok(step),
                Err(e) => return Err(e),
            }
        }
    }

    /// Takes in a piece, for which there is room.
    fn take_in(&mut self, n: usize)
        requires there { n ≤ length self.old.piece.items }
        requires room { n ≤ self.old.buffer.spare }
        requires fits { self.old.given + n < 2 ^ 64 }
        ensures buffer { self.new.buffer.items ≡ self.old.buffer.items ++ take n self.old.piece.items }
        ensures same { self.new ≡ record self.old { buffer = self.new.buffer; given = self.old.given + n; moved = true } }
    {
        self.buffer.extend_reserved(&self.piece[..n]);
        self.given += n as u64;
        self.moved = true;
    }

    /// Reads a piece of the link into the buffer. `false`: the link isn't ready.
    #[tactic(auto, using(crate::proofs::Calm::no_lulls))]
    pub(crate) fn read_piece<L: Link>(&mut self, link: &mut L) -> Result<bool, ConnectionFault>
        requires limit { self.old.max_bytes < 2 ^ 63 }
        requires given { self.old.given ≤ self.old.max_bytes }
        requires unread { self.old.unread ≡ None }
        ensures takes { TakesIn self.old self.new (L.view link.old) (L.view link.new) }
        ensures only { OnlyReads self.old self.new (L.view link.old) (L.view link.new) }
        ensures end { PieceEnds self.old self.new (L.view link.old) (L.view link.new) result }
        ensures held { self.new.held ≡ self.old.held }
        ensures delayed { self.new.delayed.items ≡ self.old.delayed.items }
        ensures unread { self.new.unread ≡ None }
        ensures within { IsWithin self.new result }
        ensures at_end { OnOk result (self.new.at_end ≡ self.old.at_end) }
        ensures piece { self.new.given ≤ self.old.given + piece_size }
        ensures no_lull { StaysCalm (L.view link.old) (L.view link.new) }
        ensures quiet { MissesOne (L.view link.old) (L.view link.new) }
        ensures ready { result ≡ Ok true → MissesNone (L.view link.old) (L.view link.new) }
    {
        make_room(&mut self.piece, &mut self.buffer)?;
        match link.read(self.piece.as_mut_slice()) {
            LinkRead::Got(n) => {
                self.take_in(n);
                if self.given > self.max_bytes {
                    return Err(ConnectionFault::LimitReached {
                        given: self.given,
                        limit: self.max_bytes,
                    });
                }
                Ok(true)
            }
            LinkRead::NotReady => Ok(false),
            LinkRead::End => {
                self.moved = true;
                self.at_end = true;
                if self.buffer.is_empty() {
                    Err(ConnectionFault::Closed)
                } else {
                    Err(ConnectionFault::Ended)
                }
            }
            LinkRead::Failed => Err(ConnectionFault::Link),
        }
    }

    /// Reads piece after piece, with all that came passed on before the next read.
    #[tactic(auto, using(crate::proofs::Calm::no_lulls))]
    pub(crate) fn read_link<L: Link, E: Engine>(
        &mut self,
        alloc: Global,
        link: &mut L,
        hub: &mut E,
    ) -> Result<ReadEnd, ConnectionFault>
        requires limit { self.old.max_bytes < 2 ^ 63 }
        requires given { self.old.given ≤ self.old.max_bytes }
        requires held { self.old.held ≡ None }
        requires delayed { self.old.delayed.items ≡ [] }
        requires unread { self.old.unread ≡ None }
        ensures goes { ReadsOn E.becomes hub.old hub.new self.old self.new (L.view link.old) (L.view link.new) (HandedBy result)
            (ReadEnds self.new (L.view link.old) (L.view link.new) result) (ReadStops self.old self.new result) }
        ensures only { OnlyReads self.old self.new (L.view link.old) (L.view link.new) }
        ensures delayed { self.new.delayed.items ≡ [] }
        ensures unread { OnOk result (self.new.unread ≡ None) }
        ensures within { IsWithin self.new result }
        ensures at_end { OnOk result (self.new.at_end ≡ self.old.at_end) }
        ensures no_lull { StaysCalm (L.view link.old) (L.view link.new) }
        ensures quiet { MissesOne (L.view link.old) (L.view link.new) }
    {
        'pieces: loop {
            match self.pass_all(alloc, hub) {
                Ok(Step::Nothing) => {}
                Ok(Step::Full) => return Ok(ReadEnd::Full),
                Ok(Step::Handed(message)) => return Ok(ReadEnd::Handed(message)),
                Err(e) => return Err(e),
            }
            match self.read_piece(link) {
                Ok(true) => {}
                Ok(false) => return Ok(ReadEnd::Dry),
                Err(e) => return Err(e),
            }
        }
    }

    /// The read step: what is delayed and held first, then the link.
    #[tactic(auto, using(crate::proofs::Calm::no_lulls))]
    pub(crate) fn read_step<L: Link, E: Engine>(
        &mut self,
        alloc: Global,
        link: &mut L,
        hub: &mut E,
    ) -> Result<ReadEnd, ConnectionFault>
        requires limit { self.old.max_bytes < 2 ^ 63 }
        requires given { self.old.given ≤ self.old.max_bytes }
        requires unread { self.old.unread ≡ None }
        ensures goes { ReadsOn E.becomes hub.old hub.new self.old self.new (L.view link.old) (L.view link.new) (HandedBy result)
            (ReadEnds self.new (L.view link.old) (L.view link.new) result) (ReadStops self.old self.new result) }
        ensures only { OnlyReads self.old self.new (L.view link.old) (L.view link.new) }
        ensures unread { OnOk result (self.new.unread ≡ None) }
        ensures within { IsWithin self.new result }
        ensures at_end { OnOk result (self.new.at_end ≡ self.old.at_end) }
        ensures no_lull { StaysCalm (L.view link.old) (L.view link.new) }
        ensures quiet { MissesOne (L.view link.old) (L.view link.new) }
    {
        match self.hand_delayed(alloc) {
            Ok(None) => {}
            Ok(Some(message)) => return Ok(ReadEnd::Handed(message)),
            Err(e) => return Err(e),
        }
        match self.deliver_held(alloc, hub) {
            Ok(true) => self.read_link(alloc, link, hub),
            Ok(false) => Ok(ReadEnd::Full),
            Err(e) => Err(e),
        }
    }
}
