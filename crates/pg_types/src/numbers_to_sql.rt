//! Truth values and numbers, written.

use crate::to_sql::{ToSql, fault_unless, put};
use crate::{IsNull, RustType, Type, ValueFault, WrongType, oid};
use byteorder::{BigEndian, ByteOrder};
use bytes::BytesMut;

impl ToSql for bool {
    ghost use Rattle.std.specs.Prelude.{◌==◌, false};
    ghost use Rattle.pg_types.specs.declared.fault.RustType.TheVariants as rust_type;
    ghost use Rattle.pg_types.specs.Oids as oids;
    ghost use Rattle.pg_types.specs.Values.{bytes_given, bool_bytes};

    ghost gives = { λ b _. bytes_given (bool_bytes b) };

    ghost has_parts = { false };

    ghost accepted = { λ _ ty. ty.oid == oids.bool };

    ghost stands_for = { λ ty. ty.oid == oids.bool };

    ghost rust = { rust_type.Bool };

    fn type_fault(ty: &Type) -> Option<WrongType> {
        fault_unless(ty.oid() == oid::BOOL, ty, RustType::Bool)
    }

    fn to_sql(&self, _ty: &Type, out: &mut BytesMut) -> Result<IsNull, ValueFault> {
        put(&[if *self { 1 } else { 0 }], out)
    }

    fn accepts(&self, ty: &Type) -> bool {
        ty.oid() == oid::BOOL
    }

    fn to_sql_checked(&self, ty: &Type, out: &mut BytesMut) -> Result<IsNull, ValueFault> {
        match Self::type_fault(ty) {
            None => self.to_sql(ty, out),
            Some(wrong) => Err(ValueFault::WrongType(wrong)),
        }
    }
}

impl ToSql for i8 {
    ghost use Rattle.std.specs.Prelude.{◌==◌, false};
    ghost use Rattle.std.specs.Int.{w8};
    ghost use Rattle.pg_types.specs.declared.fault.RustType.TheVariants as rust_type;
    ghost use Rattle.pg_types.specs.Oids as oids;
    ghost use Rattle.pg_types.specs.Values.{bytes_given, int_bytes};

    ghost gives = { λ n _. bytes_given (int_bytes w8 n) };

    ghost has_parts = { false };

    ghost accepted = { λ _ ty. ty.oid == oids.char };

    ghost stands_for = { λ ty. ty.oid == oids.char };

    ghost rust = { rust_type.I8 };

    fn type_fault(ty: &Type) -> Option<WrongType> {
        fault_unless(ty.oid() == oid::CHAR, ty, RustType::I8)
    }

    fn to_sql(&self, _ty: &Type, out: &mut BytesMut) -> Result<IsNull, ValueFault> {
        put(&self.to_be_bytes(), out)
    }

    fn accepts(&self, ty: &Type) -> bool {
        ty.oid() == oid::CHAR
    }

    fn to_sql_checked(&self, ty: &Type, out: &mut BytesMut) -> Result<IsNull, ValueFault> {
        match Self::type_fault(ty) {
            None => self.to_sql(ty, out),
            Some(wrong) => Err(ValueFault::WrongType(wrong)),
        }
    }
}

impl ToSql for i16 {
    ghost use Rattle.std.specs.Prelude.{◌==◌, false};
    ghost use Rattle.std.specs.Int.{w16};
    ghost use Rattle.pg_types.specs.declared.fault.RustType.TheVariants as rust_type;
    ghost use Rattle.pg_types.specs.Oids as oids;
    ghost use Rattle.pg_types.specs.Values.{bytes_given, int_bytes};

    ghost gives = { λ n _. bytes_given (int_bytes w16 n) };

    ghost has_parts = { false };

    ghost accepted = { λ _ ty. ty.oid == oids.int2 };

    ghost stands_for = { λ ty. ty.oid == oids.int2 };

    ghost rust = { rust_type.I16 };

    fn type_fault(ty: &Type) -> Option<WrongType> {
        fault_unless(ty.oid() == oid::INT2, ty, RustType::I16)
    }

    fn to_sql(&self, _ty: &Type, out: &mut BytesMut) -> Result<IsNull, ValueFault> {
        let mut bytes = [0; 2];
        BigEndian::write_i16(&mut bytes, *self);
        put(&bytes, out)
    }

    fn accepts(&self, ty: &Type) -> bool {
        ty.oid() == oid::INT2
    }

    fn to_sql_checked(&self, ty: &Type, out: &mut BytesMut) -> Result<IsNull, ValueFault> {
        match Self::type_fault(ty) {
            None => self.to_sql(ty, out),
            Some(wrong) => Err(ValueFault::WrongType(wrong)),
        }
    }
}

impl ToSql for i32 {
    ghost use Rattle.std.specs.Prelude.{◌==◌, false};
    ghost use Rattle.std.specs.Int.{w32};
    ghost use Rattle.pg_types.specs.declared.fault.RustType.TheVariants as rust_type;
    ghost use Rattle.pg_types.specs.Oids as oids;
    ghost use Rattle.pg_types.specs.Values.{bytes_given, int_bytes};

    ghost gives = { λ n _. bytes_given (int_bytes w32 n) };

    ghost has_parts = { false };

    ghost accepted = { λ _ ty. ty.oid == oids.int4 };

    ghost stands_for = { λ ty. ty.oid == oids.int4 };

    ghost rust = { rust_type.I32 };

    fn type_fault(ty: &Type) -> Option<WrongType> {
        fault_unless(ty.oid() == oid::INT4, ty, RustType::I32)
    }

    fn to_sql(&self, _ty: &Type, out: &mut BytesMut) -> Result<IsNull, ValueFault> {
        let mut bytes = [0; 4];
        BigEndian::write_i32(&mut bytes, *self);
        put(&bytes, out)
    }

    fn accepts(&self, ty: &Type) -> bool {
        ty.oid() == oid::INT4
    }

    fn to_sql_checked(&self, ty: &Type, out: &mut BytesMut) -> Result<IsNull, ValueFault> {
        match Self::type_fault(ty) {
            None => self.to_sql(ty, out),
            Some(wrong) => Err(ValueFault::WrongType(wrong)),
        }
    }
}

impl ToSql for i64 {
    ghost use Rattle.std.specs.Prelude.{◌==◌, false};
    ghost use Rattle.std.specs.Int.{w64};
    ghost use Rattle.pg_types.specs.declared.fault.RustType.TheVariants as rust_type;
    ghost use Rattle.pg_types.specs.Oids as oids;
    ghost use Rattle.pg_types.specs.Values.{bytes_given, int_bytes};

    ghost gives = { λ n _. bytes_given (int_bytes w64 n) };

    ghost has_parts = { false };

    ghost accepted = { λ _ ty. ty.oid == oids.int8 };

    ghost stands_for = { λ ty. ty.oid == oids.int8 };

    ghost rust = { rust_type.I64 };

    fn type_fault(ty: &Type) -> Option<WrongType> {
        fault_unless(ty.oid() == oid::INT8, ty, RustType::I64)
    }

    fn to_sql(&self, _ty: &Type, out: &mut BytesMut) -> Result<IsNull, ValueFault> {
        let mut bytes = [0; 8];
        BigEndian::write_i64(&mut bytes, *self);
        put(&bytes, out)
    }

    fn accepts(&self, ty: &Type) -> bool {
        ty.oid() == oid::INT8
    }

    fn to_sql_checked(&self, ty: &Type, out: &mut BytesMut) -> Result<IsNull, ValueFault> {
        match Self::type_fault(ty) {
            None => self.to_sql(ty, out),
            Some(wrong) => Err(ValueFault::WrongType(wrong)),
        }
    }
}

impl ToSql for u32 {
    ghost use Rattle.std.specs.Prelude.{◌==◌, false};
    ghost use Rattle.pg_types.specs.declared.fault.RustType.TheVariants as rust_type;
    ghost use Rattle.pg_types.specs.Oids as oids;
    ghost use Rattle.pg_types.specs.Values.{bytes_given, oid_bytes};

    ghost gives = { λ n _. bytes_given (oid_bytes n) };

    ghost has_parts = { false };

    ghost accepted = { λ _ ty. ty.oid == oids.oid };

    ghost stands_for = { λ ty. ty.oid == oids.oid };

    ghost rust = { rust_type.U32 };

    fn type_fault(ty: &Type) -> Option<WrongType> {
        fault_unless(ty.oid() == oid::OID, ty, RustType::U32)
    }

    fn to_sql(&self, _ty: &Type, out: &mut BytesMut) -> Result<IsNull, ValueFault> {
        let mut bytes = [0; 4];
        BigEndian::write_u32(&mut bytes, *self);
        put(&bytes, out)
    }

    fn accepts(&self, ty: &Type) -> bool {
        ty.oid() == oid::OID
    }

    fn to_sql_checked(&self, ty: &Type, out: &mut BytesMut) -> Result<IsNull, ValueFault> {
        match Self::type_fault(ty) {
            None => self.to_sql(ty, out),
            Some(wrong) => Err(ValueFault::WrongType(wrong)),
        }
    }
}
