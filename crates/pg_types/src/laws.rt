//! What follows for the whole table of built-in types, and for values that are written and read back.

ghost use Rattle.std.specs.Prelude.{◌≡◌, Ok, None, Some};
ghost use Rattle.pg_types.specs.BuiltIns.{built_ins};
ghost use Rattle.pg_types.specs.Laws.{Each, IsTheOne, NamesElement, ReadsBack};
ghost use Rattle.pg_types.specs.declared.value.Value.TheVariants as value;

use crate::from_sql::{FromSql, FromSqlOwned};
use crate::to_sql::ToSql;
use crate::{Blob, Text, Type, Value};

/// No two built-in types have one oid, and each array is named by its element.
pub fn built_in_types()
    ensures oids { Each IsTheOne built_ins }
    ensures arrays { Each (λ r. NamesElement r.name r.sort) built_ins }
{}

/// What a truth value or a number wrote is read back as it.
pub fn numbers_read_back(
    truth: bool,
    char: i8,
    int2: i16,
    int4: i32,
    int8: i64,
    oid: u32,
    ty: &Type,
)
    ensures truth { ReadsBack (λ x. x) (⟦<bool as ToSql>⟧.gives truth ty.now)
        (⟦<bool as FromSqlOwned>⟧.spelled ty.now) (⟦<bool as FromSqlOwned>⟧.refused ty.now) truth }
    ensures char { ReadsBack (λ x. x) (⟦<i8 as ToSql>⟧.gives char ty.now)
        (⟦<i8 as FromSqlOwned>⟧.spelled ty.now) (⟦<i8 as FromSqlOwned>⟧.refused ty.now) char }
    ensures int2 { ReadsBack (λ x. x) (⟦<i16 as ToSql>⟧.gives int2 ty.now)
        (⟦<i16 as FromSqlOwned>⟧.spelled ty.now) (⟦<i16 as FromSqlOwned>⟧.refused ty.now) int2 }
    ensures int4 { ReadsBack (λ x. x) (⟦<i32 as ToSql>⟧.gives int4 ty.now)
        (⟦<i32 as FromSqlOwned>⟧.spelled ty.now) (⟦<i32 as FromSqlOwned>⟧.refused ty.now) int4 }
    ensures int8 { ReadsBack (λ x. x) (⟦<i64 as ToSql>⟧.gives int8 ty.now)
        (⟦<i64 as FromSqlOwned>⟧.spelled ty.now) (⟦<i64 as FromSqlOwned>⟧.refused ty.now) int8 }
    ensures oid { ReadsBack (λ x. x) (⟦<u32 as ToSql>⟧.gives oid ty.now)
        (⟦<u32 as FromSqlOwned>⟧.spelled ty.now) (⟦<u32 as FromSqlOwned>⟧.refused ty.now) oid }
{}

/// What a text or bytes wrote is read back as them.
pub fn texts_read_back(text: &str, bytes: &[u8], ty: &Type)
    ensures str { ReadsBack (λ s. s.now) (⟦<&'static str as ToSql>⟧.gives text.entry ty.now)
        (⟦<&'static str as FromSql<'static>>⟧.spelled ty.now) (⟦<&'static str as FromSql<'static>>⟧.refused ty.now) text.entry }
    ensures text { ReadsBack (λ x. x) (⟦<Text as ToSql>⟧.gives text.now ty.now)
        (⟦<Text as FromSqlOwned>⟧.spelled ty.now) (⟦<Text as FromSqlOwned>⟧.refused ty.now) text.now }
    ensures slice { ReadsBack (λ s. s.now) (⟦<&'static [u8] as ToSql>⟧.gives bytes.entry ty.now)
        (⟦<&'static [u8] as FromSql<'static>>⟧.spelled ty.now) (⟦<&'static [u8] as FromSql<'static>>⟧.refused ty.now) bytes.entry }
    ensures blob { ReadsBack (λ x. x) (⟦<Blob as ToSql>⟧.gives bytes.now ty.now)
        (⟦<Blob as FromSqlOwned>⟧.spelled ty.now) (⟦<Blob as FromSqlOwned>⟧.refused ty.now) bytes.now }
{}

/// What a `Value` of any kind wrote is read back as it, and null as null.
pub fn values_read_back(truth: bool, number: i64, text: &str, bytes: &[u8], ty: &Type)
    ensures null_given { ⟦<Value as ToSql>⟧.gives value.Null ty.now ≡ Ok None }
    ensures null { ⟦<Value as FromSqlOwned>⟧.spelled ty.now None value.Null }
    ensures truth { ReadsBack (λ x. x) (⟦<Value as ToSql>⟧.gives (value.Bool truth) ty.now)
        (⟦<Value as FromSqlOwned>⟧.spelled ty.now) (⟦<Value as FromSqlOwned>⟧.refused ty.now) (value.Bool truth) }
    ensures number { ReadsBack (λ x. x) (⟦<Value as ToSql>⟧.gives (value.Int number) ty.now)
        (⟦<Value as FromSqlOwned>⟧.spelled ty.now) (⟦<Value as FromSqlOwned>⟧.refused ty.now) (value.Int number) }
    ensures text { ReadsBack (λ x. x) (⟦<Value as ToSql>⟧.gives (value.Text text.now) ty.now)
        (⟦<Value as FromSqlOwned>⟧.spelled ty.now) (⟦<Value as FromSqlOwned>⟧.refused ty.now) (value.Text text.now) }
    ensures bytes { ReadsBack (λ x. x) (⟦<Value as ToSql>⟧.gives (value.Bytes bytes.now) ty.now)
        (⟦<Value as FromSqlOwned>⟧.spelled ty.now) (⟦<Value as FromSqlOwned>⟧.refused ty.now) (value.Bytes bytes.now) }
{}

/// What an `Option` wrote is read back as it, where that holds for the value inside; and null as None.
pub fn options_read_back<T: ToSql + FromSqlOwned>(inside: &T, ty: &Type)
    requires { ReadsBack (λ x. x) (T.gives inside.now ty.now) (T.spelled ty.now) (T.refused ty.now) inside.now }
    ensures null_given { ⟦<Option<T> as ToSql>⟧.gives None ty.now ≡ Ok None }
    ensures null { ⟦<Option<T> as FromSqlOwned>⟧.spelled ty.now None None }
    ensures inside { ReadsBack (λ x. x) (⟦<Option<T> as ToSql>⟧.gives (Some inside.now) ty.now)
        (⟦<Option<T> as FromSqlOwned>⟧.spelled ty.now) (⟦<Option<T> as FromSqlOwned>⟧.refused ty.now) (Some inside.now) }
{}
