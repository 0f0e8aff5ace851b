//! Gives the bytes of a plan, entry by entry, each once it is its turn. No byte is copied but to where it
//! is read.

ghost use Rattle.std.specs.Prelude.{◌≡◌, ◌<◌, ◌≤◌, ◌++◌, [], length, take, drop, min, not, count_by, ◌==◌};
ghost use Rattle.std.specs.List.{concat};
ghost use Rattle.pg_spec.specs.Batches.{is_nothing};
ghost use Rattle.pg_wire.specs.Giving.{entry_of, has_bytes, lists, entries_of, given_of, due_of, IsGiving, PassesBy, StandsAtDue, GivesMore, Gave};

/// A plan, and the place up to which it was given.
#[derive(Drop)]
pub(crate) struct Giving {
    pub plan: Vec<Vec<u8>>,
    /// The entry that is given, and how many of its bytes were.
    pub entry: usize,
    pub at: usize,
    /// How many entries that have bytes weren't given whole.
    pub left: usize,
}

/// What is left of an entry behind its first bytes.
fn rest_of(plan: &[Vec<u8>], entry: usize, at: usize) -> &[u8]
    requires { at ≤ length (entry_of (lists plan.now) entry) }
    ensures { result.now ≡ drop at (entry_of (lists plan.now) entry) }
{
    match plan.get(entry) {
        Some(bytes) => &bytes[at..],
        None => &[],
    }
}

/// How many bytes an entry has.
fn entry_len(plan: &[Vec<u8>], entry: usize) -> usize
    ensures { result ≡ length (entry_of (lists plan.now) entry) }
{
    rest_of(plan, entry, 0).len()
}

/// How many entries have bytes.
fn count_full(plan: &[Vec<u8>]) -> usize
    ensures { result ≡ count_by has_bytes (lists plan.now) }
{
    let mut full = 0;
    for i in 0..plan.len() {
        if entry_len(plan, i) > 0 {
            full += 1;
        }
    }
    full
}

/// The first entry from this one on that has bytes, or the first that isn't due.
fn first_due(plan: &[Vec<u8>], turns: usize, entry: usize) -> usize
    ensures passes { PassesBy (lists plan.now) entry result }
    ensures stands { StandsAtDue (lists plan.now) turns result 0 }
{
    let end = turns.min(plan.len());
    let mut entry = entry;
    while entry < end && entry_len(plan, entry) == 0 {
        entry += 1;
    }
    entry
}

/// Copies as much as fits. How many bytes that were.
pub(crate) fn copy_front(from: &[u8], out: &mut [u8]) -> usize
    ensures count { result ≡ min (length from.now) (length out.old) }
    ensures front { take result out.new ≡ take result from.now }
{
    let n = from.len().min(out.len());
    out[..n].copy_from_slice(&from[..n]);
    n
}

impl Giving {
    /// Nothing of this plan was given.
    pub fn new(plan: Vec<Vec<u8>>) -> Giving
        ensures place { IsGiving result }
        ensures plan { entries_of result ≡ lists plan.items }
        ensures given { given_of result ≡ [] }
    {
        let left = count_full(&plan);
        Giving {
            plan,
            entry: 0,
            at: 0,
            left,
        }
    }

    /// All was given.
    pub fn is_over(&self) -> bool
        requires { IsGiving self.now }
        ensures { result ≡ (length (given_of self.now) == length (concat (entries_of self.now))) }
    {
        self.left == 0
    }

    /// Goes past empty entries that are due.
    fn skip(&mut self, turns: usize)
        requires { IsGiving self.old }
        ensures same { GivesMore self.old self.new [] }
        ensures stands { StandsAtDue (entries_of self.new) turns self.new.entry self.new.at }
    {
        if self.at == 0 {
            self.entry = first_due(&self.plan, turns, self.entry);
        }
    }

    /// Goes past bytes of the entry.
    fn pass(&mut self, n: usize)
        requires place { IsGiving self.old }
        requires fits { n ≤ length (drop self.old.at (entry_of (entries_of self.old) self.old.entry)) }
        ensures { GivesMore self.old self.new (take n (drop self.old.at (entry_of (entries_of self.old) self.old.entry))) }
    {
        if n == 0 {
            return;
        }
        if n < entry_len(&self.plan, self.entry) - self.at {
            self.at += n;
            return;
        }
        self.entry += 1;
        self.at = 0;
        self.left -= 1;
    }

    /// Gives a front of what is due, and as much as fits of an entry. How many bytes: none exactly where
    /// nothing is due.
    fn piece(&mut self, turns: usize, out: &mut [u8]) -> usize
        requires place { IsGiving self.old }
        requires room { 0 < length out.old }
        ensures { Gave (due_of turns self.old) self.old self.new out.new result }
    {
        self.skip(turns);
        if self.entry >= turns {
            return 0;
        }
        let n = copy_front(rest_of(&self.plan, self.entry, self.at), out);
        self.pass(n);
        n
    }

    /// Gives as much as fits of what is due. How many bytes.
    pub fn give(&mut self, turns: usize, out: &mut [u8]) -> usize
        requires { IsGiving self.old }
        ensures count { result ≡ min (length out.old) (length (due_of turns self.old)) }
        ensures front { take result out.new ≡ take result (due_of turns self.old) }
        ensures given { GivesMore self.old self.new (take result (due_of turns self.old)) }
    {
        let mut n = 0;
        while n < out.len() {
            let piece = self.piece(turns, &mut out[n..]);
            if piece == 0 {
                break;
            }
            n += piece;
        }
        n
    }

    /// Whether anything is due.
    pub fn has_due(&mut self, turns: usize) -> bool
        requires { IsGiving self.old }
        ensures answer { result ≡ not (is_nothing (due_of turns self.old)) }
        ensures same { GivesMore self.old self.new [] }
    {
        self.skip(turns);
        self.entry < turns && !rest_of(&self.plan, self.entry, self.at).is_empty()
    }
}
