//! The values of Bind.

ghost use Rattle.std.specs.Prelude.{◌≡◌, ◌<◌, ◌++◌, ◌∷◌, [], ℕ, List, length, Option, Some, None, IfOk, OnOk};
ghost use Rattle.pg_execute.specs.Parameters.{given_behind, or_to_sql, params};
ghost use Rattle.pg_execute.specs.GivenValues.{Adds, AreGiven, IsGiven};

use bytes::BytesMut;
use pg_errors::{Cause, Error};
use pg_types::{IsNull, Params, Type, ValueFault};
use std::alloc::{AllocError, Global};

/// The binary form of a value.
pub const BINARY: i16 = 1;

/// Values as Bind has them: the form of each, and a length and the bytes of each, or -1 for null.
#[derive(Drop)]
pub struct GivenValues {
    pub formats: Vec<i16>,
    pub bytes: BytesMut,
}

impl GivenValues {
    /// None yet. It takes no memory.
    fn new(alloc: Global) -> GivenValues
        ensures { IsGiven [] result }
    {
        GivenValues {
            formats: Vec::new(alloc),
            bytes: BytesMut::new(alloc),
        }
    }

    /// Adds null.
    fn push_null(&mut self) -> Result<(), AllocError>
        ensures { (given : List (Option (List ℕ))) → IsGiven given self.old → OnOk result (IsGiven (given ++ None ∷ []) self.new) }
    {
        self.formats.push(BINARY)?;
        self.bytes.extend_from_slice(&[255, 255, 255, 255])?;
        Ok(())
    }

    /// Adds a value of these bytes.
    fn push(&mut self, bytes: &[u8]) -> Result<(), AllocError>
        ensures { (given : List (Option (List ℕ))) → IsGiven given self.old → OnOk result (IsGiven (given ++ Some bytes.now ∷ []) self.new) }
    {
        let Ok(length) = u32::try_from(bytes.len()) else {
            // No frame holds it, and no memory that is told of here.
            return Err(AllocError);
        };
        self.formats.push(BINARY)?;
        self.bytes.extend_from_slice(&length.to_be_bytes())?;
        self.bytes.extend_from_slice(bytes)?;
        Ok(())
    }

    /// Adds the value of the next place under the type of its parameter, or tells why it is refused.
    fn add<P: Params>(
        &mut self,
        alloc: Global,
        ty: &Type,
        values: &P,
    ) -> Result<Result<(), Error>, AllocError>
        requires { length self.old.formats.items < P.count values.now }
        ensures { (given : List (Option (List ℕ))) → IsGiven given self.old
            → IfOk result (λ told. Adds given (or_to_sql (length self.old.formats.items)
            (P.gives_at values.now (length self.old.formats.items) ty.now)) told self.new) }
    {
        let place = self.formats.len();
        let mut bytes = BytesMut::new(alloc);
        match values.to_sql_checked(place, ty, &mut bytes) {
            Ok(IsNull::Yes) => self.push_null()?,
            Ok(IsNull::No) => self.push(&bytes)?,
            Err(ValueFault::OutOfMemory) => return Err(AllocError),
            Err(fault) => return Ok(Err(Error::ToSql(place, Cause::Value(fault)))),
        }
        Ok(Ok(()))
    }
}

/// The values under the types of their parameters. The first that is refused decides.
pub fn given_values<P: Params>(
    alloc: Global,
    types: &[Type],
    values: &P,
) -> Result<Result<GivenValues, Error>, AllocError>
    ensures { IfOk result (λ told. AreGiven (given_behind [] types.now (params (P.count values.now) (P.gives_at values.now))) told) }
{
    let mut given = GivenValues::new(alloc);
    for ty in types {
        if given.formats.len() >= values.len() {
            return Ok(Ok(given));
        }
        match given.add(alloc, ty, values)? {
            Ok(()) => {}
            Err(error) => return Ok(Err(error)),
        }
    }
    Ok(Ok(given))
}
