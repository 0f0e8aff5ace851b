//! Values that may be null.

use crate::from_sql::{FromSql, FromSqlOwned};
use crate::to_sql::ToSql;
use crate::{IsNull, Type, ValueFault, WrongType};
use bytes::BytesMut;
use std::alloc::Global;

impl<T: ToSql> ToSql for Option<T> {
    ghost use Rattle.pg_types.specs.Values.{accepted_or_null, given_or_null};

    ghost gives = { λ o ty. given_or_null (λ x. T.gives x ty) o };

    ghost has_parts = { T.has_parts };

    ghost accepted = { λ o ty. accepted_or_null (λ x. T.accepted x ty) (T.stands_for ty) o };

    ghost stands_for = { T.stands_for };

    ghost rust = { T.rust };

    fn type_fault(ty: &Type) -> Option<WrongType> {
        T::type_fault(ty)
    }

    fn to_sql(&self, ty: &Type, out: &mut BytesMut) -> Result<IsNull, ValueFault> {
        match self {
            Some(value) => value.to_sql(ty, out),
            None => Ok(IsNull::Yes),
        }
    }

    fn accepts(&self, ty: &Type) -> bool {
        match self {
            Some(value) => value.accepts(ty),
            None => T::type_fault(ty).is_none(),
        }
    }

    fn to_sql_checked(&self, ty: &Type, out: &mut BytesMut) -> Result<IsNull, ValueFault> {
        match self {
            Some(value) => value.to_sql_checked(ty, out),
            None => match T::type_fault(ty) {
                None => Ok(IsNull::Yes),
                Some(wrong) => Err(ValueFault::WrongType(wrong)),
            },
        }
    }
}

impl<'a, T: FromSql<'a>> FromSql<'a> for Option<T> {
    ghost use Rattle.pg_types.specs.Values.{SpellsOption, RefusalOfBytes};

    ghost stands_for = { T.stands_for };

    ghost spelled = { λ ty raw o. SpellsOption (T.spelled ty) raw o };

    ghost refused = { λ ty raw fault. RefusalOfBytes (T.refused ty) raw fault };

    ghost owns_memory = { T.owns_memory };

    fn from_sql(alloc: Global, ty: &Type, raw: &'a [u8]) -> Result<Option<T>, ValueFault> {
        Ok(Some(T::from_sql(alloc, ty, raw)?))
    }

    fn from_sql_null(_ty: &Type) -> Result<Option<T>, ValueFault> {
        Ok(None)
    }

    fn from_sql_nullable(
        alloc: Global,
        ty: &Type,
        raw: Option<&'a [u8]>,
    ) -> Result<Option<T>, ValueFault> {
        match raw {
            Some(raw) => Self::from_sql(alloc, ty, raw),
            None => Self::from_sql_null(ty),
        }
    }

    fn accepts(ty: &Type) -> bool {
        T::accepts(ty)
    }
}

impl<T: FromSqlOwned> FromSqlOwned for Option<T> {
    ghost use Rattle.pg_types.specs.Values.{SpellsOption, RefusalOfBytes};

    ghost stands_for = { T.stands_for };

    ghost spelled = { λ ty raw o. SpellsOption (T.spelled ty) raw o };

    ghost refused = { λ ty raw fault. RefusalOfBytes (T.refused ty) raw fault };

    ghost owns_memory = { T.owns_memory };

    fn from_sql_owned(
        alloc: Global,
        ty: &Type,
        raw: Option<&[u8]>,
    ) -> Result<Option<T>, ValueFault> {
        if raw.is_none() {
            return Ok(None);
        }
        Ok(Some(T::from_sql_owned(alloc, ty, raw)?))
    }

    fn accepts_owned(ty: &Type) -> bool {
        T::accepts_owned(ty)
    }
}
