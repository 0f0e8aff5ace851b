//! A link that tells the bytes that crossed it.

ghost use Rattle.std.specs.Prelude.{◌≡◌, ◌<◌, [], length, false};
ghost use Rattle.pg_wire.specs.LinkCalls.{Keeps, KeepsPromise, ReadAnswers, WriteAnswers, FlushAnswers, ShutdownAnswers, WaitAnswers, gave, took};
ghost use Rattle.pg_stream.specs.Tellings.{view_of};

use crate::crossed::Crossed;
use pg_wire::{Link, LinkRead, LinkStep, LinkWait, LinkWrite};

/// A link that tells the bytes that crossed it since it was made, round one that may tell none. Each call is the call of
/// the link inside. The bytes are told to proofs alone: nothing is kept when it runs, so it takes no memory.
#[derive(Drop)]
pub struct Told<L> {
    link: L,
    given: Crossed,
    taken: Crossed,
}

impl<L: Link> Told<L> {
    /// Tells from here on what crosses this link.
    pub fn new(link: L) -> Told<L>
        ensures link { result.link ≡ link }
        ensures given { result.given.bytes ≡ [] }
        ensures taken { result.taken.bytes ≡ [] }
    {
        Told {
            link,
            given: Crossed::new(),
            taken: Crossed::new(),
        }
    }
}

impl<L: Link> Link for Told<L> {
    ghost view = { view_of L.view };

    /// What was given is told.
    fn read(&mut self, out: &mut [u8]) -> LinkRead
        requires { 0 < length out.old }
        ensures answer { ReadAnswers (view_of L.view self.old) (view_of L.view self.new) out.new result }
        ensures keeps { Keeps (view_of L.view self.old) (view_of L.view self.new) }
        ensures promise { KeepsPromise (view_of L.view self.old) (view_of L.view self.new) (gave result) }
        ensures inner { ReadAnswers (L.view self.old.link) (L.view self.new.link) out.new result }
    {
        let answer = self.link.read(out);
        if let LinkRead::Got(n) = answer {
            self.given.add(&out[..n]);
        }
        answer
    }

    /// What was taken is told.
    fn write(&mut self, bytes: &[u8]) -> LinkWrite
        requires { 0 < length bytes.now }
        ensures answer { WriteAnswers (view_of L.view self.old) (view_of L.view self.new) bytes.now result }
        ensures keeps { Keeps (view_of L.view self.old) (view_of L.view self.new) }
        ensures promise { KeepsPromise (view_of L.view self.old) (view_of L.view self.new) (took result) }
        ensures inner { WriteAnswers (L.view self.old.link) (L.view self.new.link) bytes.now result }
    {
        let answer = self.link.write(bytes);
        if let LinkWrite::Took(n) = answer {
            self.taken.add(&bytes[..n]);
        }
        answer
    }

    fn flush(&mut self) -> LinkStep
        ensures answer { FlushAnswers (view_of L.view self.old) (view_of L.view self.new) result }
        ensures keeps { Keeps (view_of L.view self.old) (view_of L.view self.new) }
        ensures promise { KeepsPromise (view_of L.view self.old) (view_of L.view self.new) false }
        ensures inner { FlushAnswers (L.view self.old.link) (L.view self.new.link) result }
    {
        self.link.flush()
    }

    fn shutdown(&mut self) -> LinkStep
        ensures answer { ShutdownAnswers (view_of L.view self.old) (view_of L.view self.new) result }
        ensures keeps { Keeps (view_of L.view self.old) (view_of L.view self.new) }
        ensures promise { KeepsPromise (view_of L.view self.old) (view_of L.view self.new) false }
        ensures inner { ShutdownAnswers (L.view self.old.link) (L.view self.new.link) result }
    {
        self.link.shutdown()
    }

    fn wait(&mut self) -> LinkWait
        ensures answer { WaitAnswers (view_of L.view self.old) (view_of L.view self.new) result }
        ensures keeps { Keeps (view_of L.view self.old) (view_of L.view self.new) }
        ensures inner { WaitAnswers (L.view self.old.link) (L.view self.new.link) result }
    {
        self.link.wait()
    }

    fn quiet(&self) -> u64 {
        self.link.quiet()
    }

    ghost use Rattle.pg_stream.specs.Tellings.{tells as tells_all};

    ghost tells = { λ told. tells_all (L.view told.link) told.given told.taken (L.tells told.link) };
}
