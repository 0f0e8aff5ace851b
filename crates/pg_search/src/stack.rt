//! The stack of a search: the oids that are left, what was found, and what waits for the types of others.

ghost use Rattle.std.specs.Prelude.{◌≡◌, ◌≤◌, ◌+◌, ◌*◌, ◌∷◌, [], ℕ, length, IfOk};
ghost use Rattle.pg_query.specs.Dialogue.{Answer};
ghost use Rattle.pg_core.specs.Lookups.{find_all};
ghost use Rattle.pg_search.specs.Stacks.{composite_goes, find_at, may_find, next_dialogue, rest_at, searching_at, turn_dialogue};
ghost use Rattle.pg_search.specs.Steps.{finding_steps, more_at, more_over, next_steps, stack_steps, turn_steps};

use crate::asker::Asker;
use crate::frame::{Frame, OpenComposite, typed, wrapped};
use crate::rows::FieldRow;
use crate::size::{MOST_TYPES, room_once_held};
use pg_errors::Error;
use pg_types::{Field, Kind, List, Oid, Text, Type};
use std::alloc::{AllocError, Global};
use std::collections::VecDeque;
use std::mem;

/// Where a search stands between two questions.
#[derive(Drop)]
pub(crate) struct Stack {
    /// The oids whose types are found once nothing waits.
    pub(crate) left: VecDeque<Oid>,
    pub(crate) found: List<Type>,
    /// What waits, the last one first.
    pub(crate) frames: VecDeque<Frame>,
    /// For how many types there is room beside those that are held: those that were found, and those of the
    /// fields of what waits, with all that they are made of. Together they are at most 1,048,576.
    pub(crate) room: u32,
}

/// What a search does next.
#[derive(Drop)]
pub(crate) enum Next {
    /// The desk is asked for the type of this oid.
    Asks(Oid),
    /// The desk keeps the type of this oid.
    Keeps(Oid, Type),
    Ends(Result<List<Type>, Error>),
}

/// The same, where the type of another oid may have to be found first.
#[derive(Drop)]
pub(crate) enum Turn {
    Finds(Oid),
    Goes(Next),
}

/// At most so many oids are in progress at once.
const MOST_IN_PROGRESS: usize = 64;

impl Stack {
    /// These oids are left, and nothing waits.
    pub(crate) fn new(alloc: Global, oids: VecDeque<Oid>) -> Stack
        ensures left { result.left.items ≡ oids.items }
        ensures found { result.found ≡ [] }
        ensures frames { result.frames.items ≡ [] }
    {
        Stack {
            left: oids,
            found: List::empty(alloc),
            frames: VecDeque::new(alloc),
            room: MOST_TYPES,
        }
    }

    /// Whether an oid that isn't known may be looked up: fewer than 64 are in progress, and it is none of
    /// them.
    pub(crate) fn may_find(&self, oid: Oid) -> bool
        ensures { result ≡ may_find self.now oid }
    {
        let mut place = self.frames.len();
        if place >= MOST_IN_PROGRESS {
            return false;
        }
        while place > 0 {
            place -= 1;
            if self.frames[place].oid() == oid {
                return false;
            }
        }
        true
    }

    /// Where nothing waits, the next oid that is left, or the end.
    pub(crate) fn rest(&mut self, alloc: Global) -> Turn
        requires { self.old.frames.items ≡ [] }
        ensures goes { turn_dialogue self.new result ≡ rest_at self.old }
        ensures steps { (most : ℕ) → turn_steps most self.new result ≤ stack_steps most self.old }
    {
        match self.left.pop_front() {
            Some(oid) => Turn::Finds(oid),
            None => Turn::Goes(Next::Ends(Ok(mem::replace(&mut self.found, List::empty(alloc))))),
        }
    }

    /// The next field of a composite, or its end. At the end it isn't held here any more, and what its fields took
    /// of the room is given back.
    pub(crate) fn field<A: Asker>(
        &mut self,
        alloc: Global,
        asker: &A,
        composite: OpenComposite,
    ) -> Result<Turn, AllocError>
        ensures goes { IfOk result (λ turn. turn_dialogue self.new turn ≡ composite_goes self.old composite) }
        ensures steps { (most : ℕ) → IfOk result (λ turn. turn_steps most self.new turn ≤ 1 + length composite.left.items * finding_steps most (more_over self.old) + stack_steps most self.old) }
    {
        let mut composite = composite;
        match composite.left.pop_front() {
            None => {
                let OpenComposite {
                    oid,
                    row,
                    statement: _,
                    left: _,
                    found,
                    room,
                } = composite;
                let ty = typed(alloc, oid, row, Kind::Composite(found))?;
                // It is handed on, with the types of its fields.
                self.room = room;
                Ok(Turn::Goes(Next::Keeps(oid, ty)))
            }
            Some(cells) => {
                match asker.field(alloc, composite.statement.columns(), cells.as_slice())? {
                    Ok(field) => {
                        let FieldRow { name, type_oid } = field;
                        self.push(Frame::Part(composite, name))?;
                        Ok(Turn::Finds(type_oid))
                    }
                    Err(error) => Ok(Turn::Goes(Next::Ends(Err(error)))),
                }
            }
        }
    }

    /// This waits from now on.
    pub(crate) fn push(&mut self, frame: Frame) -> Result<(), AllocError>
        ensures left { IfOk result (λ _. self.new.left.items ≡ self.old.left.items) }
        ensures found { IfOk result (λ _. self.new.found ≡ self.old.found) }
        ensures frames { IfOk result (λ _. self.new.frames.items ≡ frame ∷ self.old.frames.items) }
    {
        self.frames.push_front(frame)?;
        Ok(())
    }

    /// A type was found: what waited for it goes on. Where the type is held, it takes its room; its error is want
    /// of memory, which is there too where there is no room for it.
    pub(crate) fn found<A: Asker>(
        &mut self,
        alloc: Global,
        asker: &A,
        ty: Type,
    ) -> Result<Turn, AllocError>
        ensures goes { IfOk result (λ turn. turn_dialogue self.new turn ≡ searching_at self.old (Answer (Ok ty))) }
        ensures steps { (most : ℕ) → IfOk result (λ turn. turn_steps most self.new turn ≤ stack_steps most self.old) }
    {
        match self.frames.pop_front() {
            Some(Frame::Wrapped(oid, row, wrap)) => {
                let ty = typed(alloc, oid, row, wrapped(wrap, ty))?;
                Ok(Turn::Goes(Next::Keeps(oid, ty)))
            }
            Some(Frame::Part(composite, name)) => {
                let mut composite = composite;
                self.room = room_once_held(&ty, self.room)?;
                composite.found.push(Field::new(name, ty))?;
                self.field(alloc, asker, composite)
            }
            None => {
                self.room = room_once_held(&ty, self.room)?;
                self.found.push(ty)?;
                Ok(self.rest(alloc))
            }
        }
    }

    /// Finds the type of an oid. Types that are built-in are found at once, and what waited for them goes on.
    pub(crate) fn find<A: Asker>(
        &mut self,
        alloc: Global,
        asker: &A,
        oid: Oid,
    ) -> Result<Next, AllocError>
        ensures goes { IfOk result (λ next. next_dialogue self.new next ≡ searching_at self.old (find_at self.old oid)) }
        ensures steps { (most : ℕ) → IfOk result (λ next. next_steps most self.new next ≤ finding_steps most (more_at self.old) + stack_steps most self.old) }
    {
        let mut oid = oid;
        loop {
            match Type::from_oid(alloc, oid) {
                Err(_) => return Err(AllocError),
                Ok(None) => return Ok(Next::Asks(oid)),
                Ok(Some(ty)) => match self.found(alloc, asker, ty)? {
                    Turn::Finds(inner) => oid = inner,
                    Turn::Goes(next) => return Ok(next),
                },
            }
        }
    }
}
