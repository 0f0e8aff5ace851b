//! The search for the types of several oids.

ghost use Rattle.std.specs.Prelude.{◌≡◌, ◌≤◌, ◌+◌, ◌-◌, ◌*◌, ℕ, List, [], length, Option, None, Ok, IfOk};
ghost use Rattle.pg_spec.specs.RawMessages.{RawMessage};
ghost use Rattle.pg_types.specs.declared.pg_type.PgType.{PgType};
ghost use Rattle.pg_core.specs.Lookups as spec;
ghost use Rattle.pg_core.specs.Prepares.{type_told};
ghost use Rattle.pg_query.specs.Dialogue.{Answer, Dialogue, feed_one};
ghost use Rattle.pg_query.specs.Messages.{Means};
ghost use Rattle.pg_query.specs.Scripts.{Falls, GoesOn, IsMessage};
ghost use Rattle.pg_core.specs.Behind.{behind};
ghost use Rattle.pg_core.specs.Sequences.{or_answer};
ghost use Rattle.pg_core.specs.Thens.{is_end};

use crate::asker::Asker;
use crate::frame::{Frame, OpenComposite, typed};
use crate::rows::{FieldRows, TypeRow};
use crate::sort::{Sort, sort_of};
use crate::stack::{Next, Stack, Turn};
use pg_errors::Error;
use pg_query::{Action, Cleanup, DeskCall, Reply, Script, Want};
use pg_types::{Kind, List, Oid, Text, Type};
use pg_wire::{Message, WireFault};
use std::alloc::{AllocError, Global};
use std::collections::VecDeque;
use std::mem;

/// A composite has fewer fields: with so many its type would be built of more types than a type may be.
const MOST_FIELDS: usize = 1_048_576;

/// What a search is at.
#[derive(Drop)]
pub(crate) enum Job<R, L, F> {
    /// Nothing was begun, and these oids are left.
    New(VecDeque<Oid>),
    /// The desk was asked for the type of this oid.
    Hears(Oid),
    /// The catalog is asked for the row of this oid.
    Row(Oid, R),
    /// And for its labels.
    Labels(Oid, TypeRow, L),
    /// And for the rows of its fields.
    Fields(Oid, TypeRow, F),
    /// The desk was asked to keep a type.
    Keeps,
    /// It has answered, or memory lacked.
    Over,
}

/// The search for the types of several oids, by an asker.
pub struct SearchBy<A, R, L, F> {
    pub(crate) asker: A,
    pub(crate) stack: Stack,
    pub(crate) job: Job<R, L, F>,
}

impl<A: Drop, R: Drop, L: Drop, F: Drop> Drop for SearchBy<A, R, L, F> {
    fn drop(self) {
        let SearchBy { asker, stack, job } = self;
        drop(asker);
        drop(stack);
        drop(job);
    }
}

/// The type that the desk keeps, where it was asked for one.
fn found_of(reply: Reply) -> Result<Option<Type>, Error>
    ensures { (next : Option PgType → Dialogue PgType) → type_told next reply ≡ or_answer next result }
{
    match reply {
        Reply::Type(found) => Ok(found),
        // A desk that is asked for a type tells nothing else.
        _ => Err(Error::Closed),
    }
}

/// The type that the desk handed back, where it was to keep one.
fn kept_of(reply: Reply) -> Result<Type, Error>
    ensures { spec.kept_told reply ≡ Answer result }
{
    match reply {
        Reply::Type(Some(ty)) => Ok(ty),
        // A desk that keeps a type hands it back.
        _ => Err(Error::Closed),
    }
}

impl<A: Asker> SearchBy<A, A::Row, A::Labels, A::Fields> {
    ghost use Rattle.pg_search.specs.Searching.{Searched, search_dialogue, search_steps, search_waits};
    ghost use Rattle.pg_search.specs.Stacks.{fields_goes, labels_goes, made_at, may_find, next_dialogue, row_goes, searching_at, told_goes, turn_dialogue};
    ghost use Rattle.pg_search.specs.Steps.{finding_steps, more_at, more_over, most_fields, next_steps, row_steps, stack_steps, turn_steps};

    /// The search for the types of these oids.
    pub fn new(
        alloc: Global,
        asker: A,
        oids: VecDeque<Oid>,
    ) -> SearchBy<A, A::Row, A::Labels, A::Fields>
        ensures dialogue { search_dialogue A.Row.dialogue A.Labels.dialogue A.Fields.dialogue result ≡ spec.find_all oids.items }
        ensures steps { search_steps A.most A.Row.steps A.Labels.steps A.Fields.steps result ≡ length oids.items * finding_steps A.most 64 }
    {
        SearchBy {
            asker,
            stack: Stack::new(alloc, VecDeque::new(alloc)),
            job: Job::New(oids),
        }
    }

    /// It does this next.
    fn wants(&mut self, next: Next) -> Want<List<Type>>
        ensures goes_on { Searched A.Row.dialogue A.Row.refuses A.Row.waits A.Labels.dialogue A.Labels.refuses A.Labels.waits A.Fields.dialogue A.Fields.refuses A.Fields.waits (next_dialogue self.old.stack next) result self.new }
        ensures falls { (n : ℕ) → next_steps A.most self.old.stack next ≤ n → Falls result n (search_steps A.most A.Row.steps A.Labels.steps A.Fields.steps self.new) }
    {
        match next {
            Next::Asks(oid) => {
                self.job = Job::Hears(oid);
                Want::Act(Action::Call(DeskCall::TypeOf(oid)))
            }
            Next::Keeps(oid, ty) => {
                self.job = Job::Keeps;
                Want::Act(Action::Call(DeskCall::SetType(oid, ty)))
            }
            Next::Ends(answer) => {
                self.job = Job::Over;
                Want::Answer(answer)
            }
        }
    }

    /// The same, where the type of another oid may have to be found first.
    fn turns(&mut self, alloc: Global, turn: Turn) -> Result<Want<List<Type>>, AllocError>
        ensures goes_on { IfOk result (λ w. Searched A.Row.dialogue A.Row.refuses A.Row.waits A.Labels.dialogue A.Labels.refuses A.Labels.waits A.Fields.dialogue A.Fields.refuses A.Fields.waits (turn_dialogue self.old.stack turn) w self.new) }
        ensures falls { (n : ℕ) → turn_steps A.most self.old.stack turn ≤ n → IfOk result (λ w. Falls w n (search_steps A.most A.Row.steps A.Labels.steps A.Fields.steps self.new)) }
    {
        match turn {
            Turn::Finds(oid) => {
                let next = self.stack.find(alloc, &self.asker, oid)?;
                Ok(self.wants(next))
            }
            Turn::Goes(next) => Ok(self.wants(next)),
        }
    }

    /// A type was found.
    fn finds(&mut self, alloc: Global, ty: Type) -> Result<Want<List<Type>>, AllocError>
        ensures goes_on { IfOk result (λ w. Searched A.Row.dialogue A.Row.refuses A.Row.waits A.Labels.dialogue A.Labels.refuses A.Labels.waits A.Fields.dialogue A.Fields.refuses A.Fields.waits (searching_at self.old.stack (Answer (Ok ty))) w self.new) }
        ensures falls { IfOk result (λ w. Falls w (stack_steps A.most self.old.stack) (search_steps A.most A.Row.steps A.Labels.steps A.Fields.steps self.new)) }
    {
        let turn = self.stack.found(alloc, &self.asker, ty)?;
        self.turns(alloc, turn)
    }

    /// The desk told this of the type of an oid.
    fn told(
        &mut self,
        alloc: Global,
        oid: Oid,
        reply: Reply,
    ) -> Result<Want<List<Type>>, AllocError>
        ensures goes_on { IfOk result (λ w. Searched A.Row.dialogue A.Row.refuses A.Row.waits A.Labels.dialogue A.Labels.refuses A.Labels.waits A.Fields.dialogue A.Fields.refuses A.Fields.waits (searching_at self.old.stack (type_told (spec.unless_known (may_find self.old.stack oid) (told_goes self.old.stack oid)) reply)) w self.new) }
        ensures falls { IfOk result (λ w. Falls w (finding_steps A.most (more_at self.old.stack) - 1 + stack_steps A.most self.old.stack) (search_steps A.most A.Row.steps A.Labels.steps A.Fields.steps self.new)) }
    {
        match found_of(reply) {
            Ok(Some(ty)) => self.finds(alloc, ty),
            Ok(None) => self.looks_up(alloc, oid),
            Err(error) => Ok(self.wants(Next::Ends(Err(error)))),
        }
    }

    /// The desk keeps no type of an oid.
    fn looks_up(&mut self, alloc: Global, oid: Oid) -> Result<Want<List<Type>>, AllocError>
        ensures goes_on { IfOk result (λ w. Searched A.Row.dialogue A.Row.refuses A.Row.waits A.Labels.dialogue A.Labels.refuses A.Labels.waits A.Fields.dialogue A.Fields.refuses A.Fields.waits (searching_at self.old.stack (spec.unless_known (may_find self.old.stack oid) (told_goes self.old.stack oid) None)) w self.new) }
        ensures falls { IfOk result (λ w. Falls w (finding_steps A.most (more_at self.old.stack) - 1 + stack_steps A.most self.old.stack) (search_steps A.most A.Row.steps A.Labels.steps A.Fields.steps self.new)) }
    {
        if self.stack.may_find(oid) {
            let mut script = self.asker.row(alloc, oid)?;
            let want = script.next(alloc)?;
            self.row_went(alloc, oid, script, want)
        } else {
            Ok(self.wants(Next::Ends(Err(Error::UnexpectedMessage))))
        }
    }

    /// The desk handed this back, which it was to keep.
    fn kept(&mut self, alloc: Global, reply: Reply) -> Result<Want<List<Type>>, AllocError>
        ensures goes_on { IfOk result (λ w. Searched A.Row.dialogue A.Row.refuses A.Row.waits A.Labels.dialogue A.Labels.refuses A.Labels.waits A.Fields.dialogue A.Fields.refuses A.Fields.waits (searching_at self.old.stack (spec.kept_told reply)) w self.new) }
        ensures falls { IfOk result (λ w. Falls w (stack_steps A.most self.old.stack) (search_steps A.most A.Row.steps A.Labels.steps A.Fields.steps self.new)) }
    {
        match kept_of(reply) {
            Ok(ty) => self.finds(alloc, ty),
            Err(error) => Ok(self.wants(Next::Ends(Err(error)))),
        }
    }

    /// The script of a row wants this.
    fn row_went(
        &mut self,
        alloc: Global,
        oid: Oid,
        script: A::Row,
        want: Want<TypeRow>,
    ) -> Result<Want<List<Type>>, AllocError>
        ensures goes_on { (d : Dialogue spec.TypeRow) → GoesOn A.Row.dialogue A.Row.refuses A.Row.waits d want script → IfOk result (λ w. Searched A.Row.dialogue A.Row.refuses A.Row.waits A.Labels.dialogue A.Labels.refuses A.Labels.waits A.Fields.dialogue A.Fields.refuses A.Fields.waits (behind [] d (row_goes self.old.stack oid)) w self.new) }
        ensures falls { (n : ℕ) → Falls want n (A.Row.steps script) → IfOk result (λ w. Falls w (n + (row_steps A.most (more_over self.old.stack) + stack_steps A.most self.old.stack)) (search_steps A.most A.Row.steps A.Labels.steps A.Fields.steps self.new)) }
    {
        match want {
            Want::Answer(Ok(row)) => self.row_came(alloc, oid, row),
            Want::Answer(Err(error)) => Ok(self.wants(Next::Ends(Err(error)))),
            Want::Act(action) => {
                self.job = Job::Row(oid, script);
                Ok(Want::Act(action))
            }
            Want::Read => {
                self.job = Job::Row(oid, script);
                Ok(Want::Read)
            }
        }
    }

    /// The row of an oid came.
    fn row_came(
        &mut self,
        alloc: Global,
        oid: Oid,
        row: TypeRow,
    ) -> Result<Want<List<Type>>, AllocError>
        ensures goes_on { IfOk result (λ w. Searched A.Row.dialogue A.Row.refuses A.Row.waits A.Labels.dialogue A.Labels.refuses A.Labels.waits A.Fields.dialogue A.Fields.refuses A.Fields.waits (searching_at self.old.stack (made_at self.old.stack oid row)) w self.new) }
        ensures falls { IfOk result (λ w. Falls w (row_steps A.most (more_over self.old.stack) + stack_steps A.most self.old.stack) (search_steps A.most A.Row.steps A.Labels.steps A.Fields.steps self.new)) }
    {
        match sort_of(&row) {
            Sort::Is(kind) => {
                let ty = typed(alloc, oid, row, kind)?;
                Ok(self.wants(Next::Keeps(oid, ty)))
            }
            Sort::Labels => {
                let mut script = self.asker.labels(alloc, oid)?;
                let want = script.next(alloc)?;
                self.labels_went(alloc, oid, row, script, want)
            }
            Sort::Of(wrap, inner) => {
                self.stack.push(Frame::Wrapped(oid, row, wrap))?;
                self.turns(alloc, Turn::Finds(inner))
            }
            Sort::Fields(relation) => {
                let mut script = self.asker.fields(alloc, relation)?;
                let want = script.next(alloc)?;
                self.fields_went(alloc, oid, row, script, want)
            }
        }
    }

    /// The script of labels wants this.
    fn labels_went(
        &mut self,
        alloc: Global,
        oid: Oid,
        row: TypeRow,
        script: A::Labels,
        want: Want<List<Text>>,
    ) -> Result<Want<List<Type>>, AllocError>
        ensures goes_on { (d : Dialogue (List (List ℕ))) → GoesOn A.Labels.dialogue A.Labels.refuses A.Labels.waits d want script → IfOk result (λ w. Searched A.Row.dialogue A.Row.refuses A.Row.waits A.Labels.dialogue A.Labels.refuses A.Labels.waits A.Fields.dialogue A.Fields.refuses A.Fields.waits (behind [] d (labels_goes self.old.stack oid row)) w self.new) }
        ensures falls { (n : ℕ) → Falls want n (A.Labels.steps script) → IfOk result (λ w. Falls w (n + (1 + stack_steps A.most self.old.stack)) (search_steps A.most A.Row.steps A.Labels.steps A.Fields.steps self.new)) }
    {
        match want {
            Want::Answer(Ok(labels)) => {
                let ty = typed(alloc, oid, row, Kind::Enum(labels))?;
                Ok(self.wants(Next::Keeps(oid, ty)))
            }
            Want::Answer(Err(error)) => Ok(self.wants(Next::Ends(Err(error)))),
            Want::Act(action) => {
                self.job = Job::Labels(oid, row, script);
                Ok(Want::Act(action))
            }
            Want::Read => {
                self.job = Job::Labels(oid, row, script);
                Ok(Want::Read)
            }
        }
    }

    /// The script of the rows of fields wants this.
    fn fields_went(
        &mut self,
        alloc: Global,
        oid: Oid,
        row: TypeRow,
        script: A::Fields,
        want: Want<FieldRows>,
    ) -> Result<Want<List<Type>>, AllocError>
        ensures goes_on { (d : Dialogue spec.FieldRows) → GoesOn A.Fields.dialogue A.Fields.refuses A.Fields.waits d want script → IfOk result (λ w. Searched A.Row.dialogue A.Row.refuses A.Row.waits A.Labels.dialogue A.Labels.refuses A.Labels.waits A.Fields.dialogue A.Fields.refuses A.Fields.waits (behind [] d (fields_goes self.old.stack oid row)) w self.new) }
        ensures falls { (n : ℕ) → Falls want n (A.Fields.steps script) → IfOk result (λ w. Falls w (n + (1 + most_fields * finding_steps A.most (more_over self.old.stack) + stack_steps A.most self.old.stack)) (search_steps A.most A.Row.steps A.Labels.steps A.Fields.steps self.new)) }
    {
        match want {
            Want::Answer(Ok(fields)) => self.fields_came(alloc, oid, row, fields),
            Want::Answer(Err(error)) => Ok(self.wants(Next::Ends(Err(error)))),
            Want::Act(action) => {
                self.job = Job::Fields(oid, row, script);
                Ok(Want::Act(action))
            }
            Want::Read => {
                self.job = Job::Fields(oid, row, script);
                Ok(Want::Read)
            }
        }
    }

    /// The rows of fields came.
    fn fields_came(
        &mut self,
        alloc: Global,
        oid: Oid,
        row: TypeRow,
        fields: FieldRows,
    ) -> Result<Want<List<Type>>, AllocError>
        ensures goes_on { IfOk result (λ w. Searched A.Row.dialogue A.Row.refuses A.Row.waits A.Labels.dialogue A.Labels.refuses A.Labels.waits A.Fields.dialogue A.Fields.refuses A.Fields.waits (fields_goes self.old.stack oid row (Ok fields)) w self.new) }
        ensures falls { IfOk result (λ w. Falls w (1 + most_fields * finding_steps A.most (more_over self.old.stack) + stack_steps A.most self.old.stack) (search_steps A.most A.Row.steps A.Labels.steps A.Fields.steps self.new)) }
    {
        let FieldRows { statement, rows } = fields;
        if rows.len() >= MOST_FIELDS {
            // No type that is built has so many fields.
            return Err(AllocError);
        }
        let composite = OpenComposite {
            oid,
            row,
            statement,
            left: rows,
            found: List::empty(alloc),
            room: self.stack.room,
        };
        let turn = self.stack.field(alloc, &self.asker, composite)?;
        self.turns(alloc, turn)
    }

    /// A message of the request that is read, for the script that reads it.
    fn reads(
        &mut self,
        alloc: Global,
        message: &Result<Message, WireFault>,
    ) -> Result<Want<List<Type>>, AllocError>
        ensures goes_on { (raw : RawMessage) → Means raw message.now → IsMessage (search_waits A.Row.dialogue A.Row.waits A.Labels.dialogue A.Labels.waits A.Fields.dialogue A.Fields.waits self.old) → IfOk result (λ w. Searched A.Row.dialogue A.Row.refuses A.Row.waits A.Labels.dialogue A.Labels.refuses A.Labels.waits A.Fields.dialogue A.Fields.refuses A.Fields.waits (feed_one raw (search_dialogue A.Row.dialogue A.Labels.dialogue A.Fields.dialogue self.old)) w self.new) }
    {
        match mem::replace(&mut self.job, Job::Over) {
            Job::Row(oid, mut script) => {
                let want = script.message(alloc, message)?;
                self.row_went(alloc, oid, script, want)
            }
            Job::Labels(oid, row, mut script) => {
                let want = script.message(alloc, message)?;
                self.labels_went(alloc, oid, row, script, want)
            }
            Job::Fields(oid, row, mut script) => {
                let want = script.message(alloc, message)?;
                self.fields_went(alloc, oid, row, script, want)
            }
            // It reads nothing.
            _ => Err(AllocError),
        }
    }
}

/// It is an answer, or hangs up.
fn ends<T>(want: &Want<T>) -> bool
    ensures { result ≡ is_end want.now }
{
    matches!(want, Want::Answer(_) | Want::Act(Action::HangUp))
}

impl<A: Asker> Script for SearchBy<A, A::Row, A::Labels, A::Fields> {
    ghost use Rattle.pg_search.specs.Searching.{search_dialogue, search_refuses, search_steps, search_waits};

    type Output = List<Type>;

    ghost dialogue = { search_dialogue A.Row.dialogue A.Labels.dialogue A.Fields.dialogue };

    ghost refuses = { search_refuses A.Row.refuses A.Labels.refuses A.Fields.refuses };

    ghost waits = { search_waits A.Row.dialogue A.Row.waits A.Labels.dialogue A.Labels.waits A.Fields.dialogue A.Fields.waits };

    ghost steps = { search_steps A.most A.Row.steps A.Labels.steps A.Fields.steps };

    fn next(&mut self, alloc: Global) -> Result<Want<List<Type>>, AllocError> {
        match mem::replace(&mut self.job, Job::Over) {
            Job::New(oids) => {
                self.stack = Stack::new(alloc, oids);
                let turn = self.stack.rest(alloc);
                self.turns(alloc, turn)
            }
            Job::Row(oid, mut script) => {
                let want = script.next(alloc)?;
                self.row_went(alloc, oid, script, want)
            }
            Job::Labels(oid, row, mut script) => {
                let want = script.next(alloc)?;
                self.labels_went(alloc, oid, row, script, want)
            }
            Job::Fields(oid, row, mut script) => {
                let want = script.next(alloc)?;
                self.fields_went(alloc, oid, row, script, want)
            }
            // It waits for a reply, and isn't asked again.
            Job::Hears(_) | Job::Keeps => Err(AllocError),
            Job::Over => Ok(Want::Answer(Err(Error::Closed))),
        }
    }

    fn message(
        &mut self,
        alloc: Global,
        message: &Result<Message, WireFault>,
    ) -> Result<Want<List<Type>>, AllocError> {
        let want = self.reads(alloc, message)?;
        if message.is_err() && !ends(&want) {
            // Nothing is read behind a malformed message, so nothing else is begun.
            return Err(AllocError);
        }
        Ok(want)
    }

    fn reply(&mut self, alloc: Global, reply: Reply) -> Result<Want<List<Type>>, AllocError> {
        match mem::replace(&mut self.job, Job::Over) {
            Job::Hears(oid) => self.told(alloc, oid, reply),
            Job::Keeps => self.kept(alloc, reply),
            Job::Row(oid, mut script) => {
                let want = script.reply(alloc, reply)?;
                self.row_went(alloc, oid, script, want)
            }
            Job::Labels(oid, row, mut script) => {
                let want = script.reply(alloc, reply)?;
                self.labels_went(alloc, oid, row, script, want)
            }
            Job::Fields(oid, row, mut script) => {
                let want = script.reply(alloc, reply)?;
                self.fields_went(alloc, oid, row, script, want)
            }
            // It asked nothing.
            Job::New(_) | Job::Over => Err(AllocError),
        }
    }

    fn refused(&mut self, alloc: Global, error: Error) -> Result<Want<List<Type>>, AllocError> {
        match mem::replace(&mut self.job, Job::Over) {
            Job::Row(oid, mut script) => {
                let want = script.refused(alloc, error)?;
                self.row_went(alloc, oid, script, want)
            }
            Job::Labels(oid, row, mut script) => {
                let want = script.refused(alloc, error)?;
                self.labels_went(alloc, oid, row, script, want)
            }
            Job::Fields(oid, row, mut script) => {
                let want = script.refused(alloc, error)?;
                self.fields_went(alloc, oid, row, script, want)
            }
            _ => Ok(Want::Answer(Err(error))),
        }
    }

    fn cleanup(&self, alloc: Global) -> Result<VecDeque<Cleanup>, AllocError> {
        match &self.job {
            Job::Row(_, script) => script.cleanup(alloc),
            Job::Labels(_, _, script) => script.cleanup(alloc),
            Job::Fields(_, _, script) => script.cleanup(alloc),
            // It reads nothing.
            _ => Err(AllocError),
        }
    }
}
