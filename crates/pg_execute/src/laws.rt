//! Worked executions: they show what the definitions mean. Each body does nothing.

ghost use Rattle.std.specs.Prelude.{◌≡◌, [], ◌∷◌, ◌++◌, length, codes, Some, None, Ok, Err, pos};
ghost use Rattle.pg_spec.specs.Faults.{ColumnCount, FieldCount, Frame as OfFrame, FromSql, Layout, Parameters, Parse, RowCount, ToSql, UnexpectedMessage, Value, Wire, ZeroByte};
ghost use Rattle.pg_types.specs.declared.fault.RustType.TheVariants as rust;
ghost use Rattle.pg_types.specs.declared.fault.ValueFault.TheVariants.{BadValue, WrongType};
ghost use Rattle.pg_types.specs.declared.pg_type.Kind.{Simple};
ghost use Rattle.pg_types.specs.declared.value.Value.TheVariants as value;
ghost use Rattle.pg_core.specs.Examples as lookup;
ghost use Rattle.pg_core.specs.LookupReplies as replied;
ghost use Rattle.pg_execute.specs.Examples as example;
ghost use Rattle.pg_execute.specs.Typed.{unnamed};
ghost use Rattle.pg_execute.specs.declared.how_many.HowMany.TheVariants.{Any, AtMostOne, One};

/// A statement is queried with a value, byte by byte, and its rows come with the count of the last command, which an empty one behind it leaves. A second row is refused where one
/// may come at most, as it comes, and an end without a row where there must be one. A row of another width and one that can't be read are
/// refused.
pub fn rows_are_counted()
    ensures asks { lookup.booked (example.asked_7 Any []) ≡ example.with_7 ∷ [] }
    ensures any { (example.asked_7 Any (example.bound (example.row 1 ∷ example.suspended ∷ example.row 2 ∷ example.complete (codes "SELECT 9") ∷ example.empty ∷ example.complete (codes "SELECT 2") ∷ []))).outcome.answer
        ≡ Some (Ok (example.found example.of_one ((example.int4_cell 1 ∷ []) ∷ (example.int4_cell 2 ∷ []) ∷ []) (Some 2))) }
    ensures stays { (example.asked_7 Any (example.bound (example.row 1 ∷ example.complete (codes "SELECT 1") ∷ example.empty ∷ []))).outcome.answer
        ≡ Some (Ok (example.found example.of_one ((example.int4_cell 1 ∷ []) ∷ []) (Some 1))) }
    ensures none { (example.asked_7 AtMostOne (example.bound (example.complete (codes "SELECT 0") ∷ []))).outcome.answer ≡ Some (Ok (example.found example.of_one [] (Some 0))) }
    ensures second { (example.asked_7 AtMostOne (example.bound (example.row 1 ∷ example.row 2 ∷ []))).outcome.answer ≡ Some (Err RowCount) }
    ensures second_leaves { (example.asked_7 One (example.bound (example.row 1 ∷ example.row 2 ∷ []))).outcome.left ≡ replied.ready }
    ensures lacking { (example.asked_7 One (example.bound [])).outcome.answer ≡ Some (Err RowCount) }
    ensures one { (example.asked_7 One (example.bound (example.row 1 ∷ []))).outcome.answer ≡ Some (Ok (example.found example.of_one ((example.int4_cell 1 ∷ []) ∷ []) None)) }
    ensures wide { (example.asked_7 Any (example.bound (replied.data_row [] ∷ []))).outcome.answer ≡ Some (Err (Parse FieldCount)) }
    ensures broken { (example.asked_7 Any (example.bound (example.broken_row ∷ []))).outcome.answer ≡ Some (Err (Parse (Wire Layout))) }
    ensures early { (example.asked_7 Any (example.row 1 ∷ [])).outcome.answer ≡ Some (Err UnexpectedMessage) }
{}

/// Another number of values than the statement has parameters is refused before any value is looked at, and a value by the place of its
/// parameter. Nothing is booked.
pub fn refused_values_ask_nothing()
    ensures number { (example.asked_with (value.Int (pos 1) ∷ value.Text [] ∷ [])).outcome.answer ≡ Some (Err (Parameters 2 1)) }
    ensures number_books { lookup.booked (example.asked_with (value.Int (pos 1) ∷ value.Text [] ∷ [])) ≡ [] }
    ensures wrong { (example.asked_with (value.Text [] ∷ [])).outcome.answer ≡ Some (Err (ToSql 0 (Value (WrongType (record { postgres = 23; rust = rust.Value }))))) }
    ensures wide { (example.asked_with (value.Int (pos 2147483648) ∷ [])).outcome.answer ≡ Some (Err (ToSql 0 (Value BadValue))) }
    ensures wide_books { lookup.booked (example.asked_with (value.Int (pos 2147483648) ∷ [])) ≡ [] }
{}

/// Of the first rows so many are read: then the request is hung up, and where none is wanted behind BindComplete. Where there are fewer the
/// reply is read to its end. A text is closed behind.
pub fn first_rows_are_taken()
    ensures two { (example.first_of 2 (example.bound (example.row 1 ∷ example.row 2 ∷ example.broken_row ∷ []))).outcome.answer
        ≡ Some (Ok (example.found example.of_one ((example.int4_cell 1 ∷ []) ∷ (example.int4_cell 2 ∷ []) ∷ []) None)) }
    ensures two_leave { (example.first_of 2 (example.bound (example.row 1 ∷ example.row 2 ∷ example.broken_row ∷ []))).outcome.left ≡ example.broken_row ∷ replied.ready }
    ensures none { (example.first_of 0 (example.bound (example.row 1 ∷ []))).outcome.answer ≡ Some (Ok (example.found example.of_one [] None)) }
    ensures none_leaves { (example.first_of 0 (example.bound (example.row 1 ∷ []))).outcome.left ≡ example.row 1 ∷ replied.ready }
    ensures fewer { (example.first_of 3 (example.bound (example.row 1 ∷ example.complete (codes "SELECT 1") ∷ []))).outcome.answer
        ≡ Some (Ok (example.found example.of_one ((example.int4_cell 1 ∷ []) ∷ []) (Some 1))) }
    ensures early { (example.first_of 0 (example.row 1 ∷ [])).outcome.answer ≡ Some (Err UnexpectedMessage) }
    ensures closed { lookup.booked (example.text_first 1 (example.bound (example.row 1 ∷ example.row 2 ∷ []))) ≡ example.q_as_s0 ∷ example.with_7 ∷ example.close_s0 ∷ [] }
{}

/// The values of one column are answered once all rows came: rows of two columns are ColumnCount, a value that can't be read is FromSql of
/// its column, and without rows there are no values, whatever the columns.
pub fn values_of_one_column()
    ensures found { (example.scalars_of Any example.of_one (value.Int (pos 7) ∷ []) (example.bound (example.row 1 ∷ replied.data_row (None ∷ []) ∷ []))).outcome.answer
        ≡ Some (Ok (value.Int (pos 1) ∷ value.Null ∷ [])) }
    ensures wide { (example.scalars_of Any example.of_two_columns [] (example.bound (replied.data_row (None ∷ None ∷ []) ∷ []))).outcome.answer ≡ Some (Err ColumnCount) }
    ensures unread { (example.scalars_of Any example.of_one (value.Int (pos 7) ∷ []) (example.bound (replied.data_row (Some (0 ∷ []) ∷ []) ∷ []))).outcome.answer ≡ Some (Err (FromSql 0 (Value BadValue))) }
    ensures empty { (example.scalars_of AtMostOne example.of_two_columns [] (example.bound [])).outcome.answer ≡ Some (Ok []) }
    ensures lacking { (example.scalars_of One example.of_two_columns [] (example.bound [])).outcome.answer ≡ Some (Err RowCount) }
{}

/// An execute answers the count of the last command, 0 behind an empty one, and reads no row; a portal that is suspended has no place in it.
pub fn executes_are_counted()
    ensures last { (example.executed (example.broken_row ∷ example.complete (codes "INSERT 0 3") ∷ example.complete (codes "UPDATE 2") ∷ [])).outcome.answer ≡ Some (Ok 2) }
    ensures empty { (example.executed (example.complete (codes "UPDATE 2") ∷ example.empty ∷ [])).outcome.answer ≡ Some (Ok 0) }
    ensures suspended { (example.executed (example.suspended ∷ [])).outcome.answer ≡ Some (Err UnexpectedMessage) }
{}

/// A text is prepared, executed and closed, byte by byte. It is closed behind a refused value and behind an error of the server too, and not
/// where it couldn't be prepared.
pub fn statements_of_texts_are_closed()
    ensures count { (example.text_executed (value.Int (pos 7) ∷ []) (example.q_described ∷ example.bound (example.complete (codes "UPDATE 2") ∷ []) ∷ [])).outcome.answer ≡ Some (Ok 2) }
    ensures closed { lookup.booked (example.text_executed (value.Int (pos 7) ∷ []) (example.q_described ∷ example.bound [] ∷ [])) ≡ example.q_as_s0 ∷ example.with_7 ∷ example.close_s0 ∷ [] }
    ensures refused { lookup.booked (example.text_executed (value.Int (pos 7) ∷ []) (example.q_described ∷ replied.refused (codes "22012") ∷ [])) ≡ example.q_as_s0 ∷ example.with_7 ∷ example.close_s0 ∷ [] }
    ensures parameters { (example.text_executed [] (example.q_described ∷ [])).outcome.answer ≡ Some (Err (Parameters 0 1)) }
    ensures parameters_closed { lookup.booked (example.text_executed [] (example.q_described ∷ [])) ≡ example.q_as_s0 ∷ example.close_s0 ∷ [] }
    ensures unprepared { lookup.booked (example.text_executed [] (replied.refused (codes "42601") ∷ [])) ≡ example.q_as_s0 ∷ [] }
{}

/// A text is queried in one request, byte by byte. Where the type of its column is known its rows are read on; otherwise all of them are taken
/// first, then the type is looked up by requests of their own, and then they are read: a second row is refused behind the lookup. A text that
/// can't be sent is Parse, and a value that is refused ToSql.
pub fn typed_queries_look_up_later()
    ensures known { example.rows_in (example.typed_query Any ((example.headed 23 ++ example.row 1 ∷ example.row 2 ∷ replied.ready) ∷ [])).outcome.answer ≡ (example.int4_cell 1 ∷ []) ∷ (example.int4_cell 2 ∷ []) ∷ [] }
    ensures known_books { lookup.booked (example.typed_query Any ((example.headed 23 ++ replied.ready) ∷ [])) ≡ example.q_typed ∷ [] }
    ensures without_rows { (example.typed_query Any ((example.headed_without_rows ++ replied.ready) ∷ [])).outcome.answer ≡ Some (Ok (example.found (unnamed [] []) [] None)) }
    ensures lacking { (example.typed_query One ((example.headed_without_rows ++ replied.ready) ∷ [])).outcome.answer ≡ Some (Err RowCount) }
    ensures later { example.rows_in (example.typed_query Any ((example.headed 90000 ++ example.row 1 ∷ example.row 2 ∷ replied.ready) ∷ replied.info_described ∷ replied.type_row replied.base ∷ [])).outcome.answer
        ≡ (example.int4_cell 1 ∷ []) ∷ (example.int4_cell 2 ∷ []) ∷ [] }
    ensures later_kinds { example.kinds_in (example.typed_query Any ((example.headed 90000 ++ replied.ready) ∷ replied.info_described ∷ replied.type_row replied.base ∷ [])).outcome.answer ≡ Simple ∷ [] }
    ensures later_books { length (lookup.booked (example.typed_query Any ((example.headed 90000 ++ replied.ready) ∷ replied.info_described ∷ replied.type_row replied.base ∷ []))) ≡ 3 }
    ensures second { (example.typed_query AtMostOne ((example.headed 90000 ++ example.row 1 ∷ example.row 2 ∷ replied.ready) ∷ replied.info_described ∷ replied.type_row replied.base ∷ [])).outcome.answer ≡ Some (Err RowCount) }
    ensures second_books { length (lookup.booked (example.typed_query AtMostOne ((example.headed 90000 ++ example.row 1 ∷ example.row 2 ∷ replied.ready) ∷ replied.info_described ∷ replied.type_row replied.base ∷ []))) ≡ 3 }
    ensures text { (example.typed_with (97 ∷ 0 ∷ []) (value.Text [] ∷ [])).outcome.answer ≡ Some (Err (Parse (OfFrame ZeroByte))) }
    ensures refused { (example.typed_with (codes "q") (value.Text [] ∷ [])).outcome.answer ≡ Some (Err (ToSql 0 (Value (WrongType (record { postgres = 23; rust = rust.Value }))))) }
    ensures refused_books { lookup.booked (example.typed_with (codes "q") (value.Text [] ∷ [])) ≡ [] }
{}

/// A text is executed in one request: the count of its last command, 0 where that is empty, where NoData stands behind it, or where none ended. Nothing is read of its columns and rows.
pub fn typed_executes_are_counted()
    ensures last { (example.typed_executed (example.headed 90000 ++ example.broken_row ∷ example.complete (codes "SELECT 3") ∷ replied.ready)).outcome.answer ≡ Some (Ok 3) }
    ensures without_rows { (example.typed_executed (example.complete (codes "UPDATE 2") ∷ example.headed_without_rows ++ replied.ready)).outcome.answer ≡ Some (Ok 0) }
    ensures suspended { (example.typed_executed (example.suspended ∷ replied.ready)).outcome.answer ≡ Some (Err UnexpectedMessage) }
{}
