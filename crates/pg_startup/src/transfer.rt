//! The bytes on both sides of a link: they are offered to it, and read off it.

ghost use Rattle.std.specs.Prelude.{◌≡◌, ◌^◌, ◌<◌, ◌≤◌, ◌++◌, ◌+◌, [], true, false, IsTrue, MatchResult, Ok, length, drop, IfErr};
ghost use Rattle.pg_connect.specs.Calm.{MissesNone, MissesOne, StaysCalm};
ghost use Rattle.pg_connect.specs.Reads.{piece_size};
ghost use Rattle.pg_startup.specs.Transfers.{Gets, IsWithinLimit, OfferEnds, PieceEnds, Sends, SentEnds};

use bytes::BytesMut;
use pg_errors::{Cause, Error};
use pg_types::OutOfMemory;
use pg_wire::{Link, LinkRead, LinkStep, LinkWrite};
use std::alloc::Global;

/// How many bytes are read at once, at most.
const PIECE: usize = 8192;

/// The bytes on both sides of a link: those that came and weren't decoded, and those that weren't taken yet, with the
/// count and its limit. The link isn't in it.
#[derive(Drop)]
pub struct Transfer {
    /// Bytes that were given and not decoded.
    pub buffer: BytesMut,
    /// Bytes that the link hasn't taken.
    pub unsent: BytesMut,
    /// How many bytes the link gave.
    pub given: u64,
    /// The most bytes that it may give.
    pub max_bytes: u64,
    /// All that was queued was taken whole and passed on.
    pub flushed: bool,
    /// A byte was given or taken, or the end was given, since this was last set to false.
    pub moved: bool,
}

impl Transfer {
    /// Nothing is buffered and nothing is unsent. `given`: how many bytes were given before. It takes no memory.
    pub fn new(alloc: Global, given: u64, max_bytes: u64) -> Transfer
        ensures buffer { result.buffer.items ≡ [] }
        ensures unsent { result.unsent.items ≡ [] }
        ensures given { result.given ≡ given }
        ensures limit { result.max_bytes ≡ max_bytes }
        ensures flushed { result.flushed ≡ false }
        ensures moved { result.moved ≡ false }
    {
        Transfer {
            buffer: BytesMut::new(alloc),
            unsent: BytesMut::new(alloc),
            given,
            max_bytes,
            flushed: false,
            moved: false,
        }
    }

    /// Adds bytes to those that are to be sent. Where memory lacks, the bytes are as before.
    pub fn queue(&mut self, bytes: &[u8]) -> Result<(), OutOfMemory>
        ensures queued { MatchResult result
            (λ _. (self.new.unsent.items ≡ self.old.unsent.items ++ bytes.now) × (self.new.flushed ≡ false))
            (λ _. (self.new.unsent.items ≡ self.old.unsent.items) × (self.new.flushed ≡ self.old.flushed)) }
        ensures same { self.new ≡ record self.old { unsent = self.new.unsent; flushed = self.new.flushed } }
    {
        if self.unsent.reserve(bytes.len()).is_err() {
            return Err(OutOfMemory);
        }
        self.unsent.extend_reserved(bytes);
        self.flushed = false;
        Ok(())
    }

    /// Drops the first bytes that are unsent, which the link took.
    fn took(&mut self, n: usize)
        requires { n ≤ length self.old.unsent.items }
        ensures unsent { self.new.unsent.items ≡ drop n self.old.unsent.items }
        ensures same { self.new ≡ record self.old { unsent = self.new.unsent; moved = true } }
    {
        self.unsent.advance(n);
        self.moved = true;
    }

    /// Offers what is unsent until nothing is left (`true`), or until the link isn't ready (`false`).
    #[tactic(auto, using(pg_connect::proofs::Calm::no_lulls))]
    fn offer<L: Link>(&mut self, link: &mut L) -> Result<bool, Error>
        ensures sends { Sends self.old self.new (L.view link.old) (L.view link.new) }
        ensures end { OfferEnds self.new (L.view link.old) (L.view link.new) result }
        ensures no_lull { StaysCalm (L.view link.old) (L.view link.new) }
        ensures quiet { MissesOne (L.view link.old) (L.view link.new) }
        ensures ready { result ≡ Ok true → MissesNone (L.view link.old) (L.view link.new) }
    {
        while !self.unsent.is_empty() {
            match link.write(self.unsent.as_slice()) {
                LinkWrite::Took(n) => self.took(n),
                LinkWrite::NotReady => return Ok(false),
                LinkWrite::Failed => return Err(Error::Io(Cause::Link)),
                LinkWrite::OutOfMemory => return Err(Error::OutOfMemory),
            }
        }
        Ok(true)
    }

    /// Notes that all was passed on.
    fn passed_on(&mut self)
        ensures { self.new ≡ record self.old { flushed = true } }
    {
        self.flushed = true;
    }

    /// Offers what is unsent, and passes it on once it was taken whole (`true`). `false`: the link isn't ready. Io comes
    /// where a call of the link failed.
    #[tactic(auto, using(pg_connect::proofs::Calm::no_lulls))]
    pub fn send<L: Link>(&mut self, link: &mut L) -> Result<bool, Error>
        ensures sends { Sends self.old self.new (L.view link.old) (L.view link.new) }
        ensures end { SentEnds self.new (L.view link.old) (L.view link.new) result }
        ensures no_lull { StaysCalm (L.view link.old) (L.view link.new) }
        ensures quiet { MissesOne (L.view link.old) (L.view link.new) }
        ensures ready { result ≡ Ok true → MissesNone (L.view link.old) (L.view link.new) }
    {
        if self.flushed && self.unsent.is_empty() {
            return Ok(true);
        }
        match self.offer(link) {
            Ok(true) => {}
            Ok(false) => return Ok(false),
            Err(error) => return Err(error),
        }
        match link.flush() {
            LinkStep::Done => {
                self.passed_on();
                Ok(true)
            }
            LinkStep::NotReady => Ok(false),
            LinkStep::Failed => Err(Error::Io(Cause::Link)),
        }
    }

    /// Takes in a piece, for which there is room.
    fn take_in(&mut self, piece: &[u8])
        requires room { length piece.now ≤ self.old.buffer.spare }
        requires fits { self.old.given + length piece.now < 2 ^ 64 }
        ensures buffer { self.new.buffer.items ≡ self.old.buffer.items ++ piece.now }
        ensures same { self.new ≡ record self.old { buffer = self.new.buffer; given = self.old.given + length piece.now; moved = true } }
    {
        self.buffer.extend_reserved(piece);
        self.given += piece.len() as u64;
        self.moved = true;
    }

    /// Reads bytes of the link into the buffer, over this piece. `false`: the link isn't ready.
    #[tactic(auto, using(pg_connect::proofs::Calm::no_lulls))]
    fn read_over<L: Link>(&mut self, link: &mut L, piece: &mut [u8]) -> Result<bool, Error>
        requires some { 0 < length piece.old }
        requires limit { self.old.max_bytes < 2 ^ 63 }
        requires given { self.old.given ≤ self.old.max_bytes }
        ensures gets { Gets self.old self.new (L.view link.old) (L.view link.new) (length piece.old) result }
        ensures end { PieceEnds self.old self.new (L.view link.old) (L.view link.new) (length piece.old) result }
        ensures within { IfErr result (λ e. IsWithinLimit e self.new.given self.new.max_bytes) }
        ensures no_lull { StaysCalm (L.view link.old) (L.view link.new) }
        ensures quiet { MissesOne (L.view link.old) (L.view link.new) }
        ensures ready { result ≡ Ok true → MissesNone (L.view link.old) (L.view link.new) }
    {
        if self.buffer.reserve(piece.len()).is_err() {
            return Err(Error::OutOfMemory);
        }
        match link.read(piece) {
            LinkRead::Got(n) => {
                self.take_in(&piece[..n]);
                if self.given > self.max_bytes {
                    return Err(Error::LimitReached {
                        given: self.given,
                        limit: self.max_bytes,
                    });
                }
                Ok(true)
            }
            LinkRead::NotReady => Ok(false),
            LinkRead::End => {
                self.moved = true;
                if self.buffer.is_empty() {
                    Err(Error::Closed)
                } else {
                    Err(Error::Io(Cause::Ended))
                }
            }
            LinkRead::Failed => Err(Error::Io(Cause::Link)),
        }
    }

    /// Reads a piece of the link into the buffer, of at most 8,192 bytes. `false`: the link isn't ready. LimitReached
    /// comes where more bytes were given than the limit allows; where the link gave its end, Closed where nothing is
    /// buffered, else Io; Io where a call of it failed.
    pub fn read_piece<L: Link>(&mut self, link: &mut L) -> Result<bool, Error>
        requires limit { self.old.max_bytes < 2 ^ 63 }
        requires given { self.old.given ≤ self.old.max_bytes }
        ensures gets { Gets self.old self.new (L.view link.old) (L.view link.new) piece_size result }
        ensures end { PieceEnds self.old self.new (L.view link.old) (L.view link.new) piece_size result }
        ensures within { IfErr result (λ e. IsWithinLimit e self.new.given self.new.max_bytes) }
        ensures no_lull { StaysCalm (L.view link.old) (L.view link.new) }
        ensures quiet { MissesOne (L.view link.old) (L.view link.new) }
        ensures ready { result ≡ Ok true → MissesNone (L.view link.old) (L.view link.new) }
    {
        let mut piece = [0u8; PIECE];
        self.read_over(link, &mut piece)
    }

    /// Like `read_piece`, of a single byte.
    pub fn read_byte<L: Link>(&mut self, link: &mut L) -> Result<bool, Error>
        requires limit { self.old.max_bytes < 2 ^ 63 }
        requires given { self.old.given ≤ self.old.max_bytes }
        ensures gets { Gets self.old self.new (L.view link.old) (L.view link.new) 1 result }
        ensures end { PieceEnds self.old self.new (L.view link.old) (L.view link.new) 1 result }
        ensures within { IfErr result (λ e. IsWithinLimit e self.new.given self.new.max_bytes) }
        ensures no_lull { StaysCalm (L.view link.old) (L.view link.new) }
        ensures quiet { MissesOne (L.view link.old) (L.view link.new) }
        ensures ready { result ≡ Ok true → MissesNone (L.view link.old) (L.view link.new) }
    {
        let mut piece = [0u8; 1];
        self.read_over(link, &mut piece)
    }
}
