//! Worked lookups, and a search as a stack: they show what the definitions mean. Each body does nothing.

ghost use Rattle.std.specs.Prelude.{◌≡◌, ◌++◌, ◌-◌, ◌^◌, List, [], ◌∷◌, ℕ, length, codes, true, false, Some, None, Ok, Err};
ghost use Rattle.pg_types.specs.declared.error.Error.{Error};
ghost use Rattle.pg_core.specs.Cells.{Cells};
ghost use Rattle.pg_core.specs.Examples as example;
ghost use Rattle.pg_core.specs.Lookups as search;
ghost use Rattle.pg_core.specs.LookupReplies as replied;
ghost use Rattle.pg_core.specs.Searches.{Frame, Part, Wrapped, find_above, searching, unwind};
ghost use Rattle.pg_core.specs.Sent as sent;
ghost use Rattle.pg_spec.specs.Courses.{outcome_of};
ghost use Rattle.pg_core.specs.Outcomes.{asked};
ghost use Rattle.pg_core.specs.Worlds.{OwnDesk};
ghost use Rattle.pg_query.specs.Dialogue.{Answer, Dialogue};
ghost use Rattle.pg_spec.specs.RawMessages.{RawMessage};
ghost use Rattle.pg_desk.specs.declared.statement.Described.{Described as Statement};
ghost use Rattle.pg_spec.specs.Faults.{Column, Counter, Encode, Frame as OfFrame, FromSql, Parameters, ToSql, UnexpectedMessage, Value, ZeroByte};
ghost use Rattle.pg_desk.specs.declared.column.Column as column;
ghost use Rattle.pg_types.specs.declared.fault.RustType.TheVariants as rust;
ghost use Rattle.pg_types.specs.declared.fault.ValueFault.TheVariants.{WasNull, WrongType};
ghost use Rattle.pg_types.specs.declared.pg_type.Field.{Field};
ghost use Rattle.pg_types.specs.declared.pg_type.Kind as kind;
ghost use Rattle.pg_types.specs.declared.pg_type.PgType.{PgType};

/// A type of each kind is found: a base type, an enumeration, an array, a range, a domain over a domain, a composite of an int4 and of
/// a composite. A label that is null is refused.
pub fn kinds_are_found()
    ensures base { example.kinds (example.one_column (replied.type_row replied.base ∷ [])).outcome.answer ≡ kind.Simple ∷ [] }
    ensures enumeration { example.kinds (example.labelled (Some (codes "blue"))).outcome.answer ≡ kind.Enum (codes "red" ∷ codes "blue" ∷ []) ∷ [] }
    ensures null_label { (example.labelled None).outcome.answer ≡ Some (Err (FromSql 0 (Value WasNull))) }
    ensures array { example.kinds (example.one_column (replied.array 23 ∷ [])).outcome.answer ≡ kind.Array example.int4 ∷ [] }
    ensures range { example.kinds (example.one_column (replied.range 23 ∷ [])).outcome.answer ≡ kind.Range example.int4 ∷ [] }
    ensures domain { example.kinds (example.one_column (replied.domains 2 90000 23)).outcome.answer ≡ kind.Domain (example.named_a 90001 (kind.Domain example.int4)) ∷ [] }
    ensures composite { example.kinds example.composites.outcome.answer ≡ example.composites_kind ∷ [] }
    ensures composite_books { length (example.booked example.composites) ≡ 7 }
{}

/// A type whose element it is itself, and a composite that has a field of its own type, are refused. What is sent stands byte by byte.
pub fn types_of_themselves_are_refused()
    ensures element { (example.one_column (replied.array 90000 ∷ [])).outcome.answer ≡ Some (Err UnexpectedMessage) }
    ensures element_books { example.booked (example.one_column (replied.array 90000 ∷ [])) ≡ sent.q_as_s0 ∷ sent.info_as_s1 ∷ sent.row_by_s1 ∷ [] }
    ensures field { example.composite_of_itself.outcome.answer ≡ Some (Err UnexpectedMessage) }
    ensures field_books { example.booked example.composite_of_itself ≡ sent.q_as_s0 ∷ sent.info_as_s1 ∷ sent.row_by_s1 ∷ sent.fields_as_s2 ∷ sent.fields_by_s2 ∷ [] }
{}

/// Sixty-four domains, each over the next, are found. Of sixty-five the last isn't asked for.
pub fn at_most_64_are_in_progress()
    ensures few { example.is_statement (example.one_column (replied.domains 64 90000 23)).outcome.answer ≡ true }
    ensures few_books { length (example.booked (example.one_column (replied.domains 64 90000 23))) ≡ 66 }
    ensures many { (example.one_column (replied.domains 65 90000 23)).outcome.answer ≡ Some (Err UnexpectedMessage) }
    ensures many_books { length (example.booked (example.one_column (replied.domains 65 90000 23))) ≡ 66 }
{}

/// The second text of a type's own row is prepared at 42P01, that of labels at 42703, and at any other code the server's error is the
/// answer. Fields have no second text.
pub fn second_texts()
    ensures info { example.booked (example.second_info (codes "42P01")) ≡ sent.q_as_s0 ∷ sent.info_as_s1 ∷ sent.second_info_as_s2 ∷ sent.row_by_s2 ∷ [] }
    ensures info_found { example.kinds (example.second_info (codes "42P01")).outcome.answer ≡ kind.Simple ∷ [] }
    ensures labels { example.booked (example.second_labels (codes "42703")) ≡ sent.q_as_s0 ∷ sent.info_as_s1 ∷ sent.row_by_s1 ∷ sent.labels_as_s2 ∷ sent.second_labels_as_s3 ∷ sent.row_by_s3 ∷ [] }
    ensures labels_found { example.kinds (example.second_labels (codes "42703")).outcome.answer ≡ kind.Enum (codes "red" ∷ []) ∷ [] }
    ensures syntax { example.is_db (example.second_info (codes "42601")).outcome.answer ≡ true }
    ensures syntax_books { length (example.booked (example.second_info (codes "42601"))) ≡ 2 }
    ensures no_column { example.is_db (example.second_info (codes "42703")).outcome.answer ≡ true }
    ensures no_table { example.is_db (example.second_labels (codes "42P01")).outcome.answer ≡ true }
    ensures fields { example.is_db (example.no_second_fields (codes "42P01")).outcome.answer ≡ true }
{}

/// A text with a zero byte is refused, books nothing and uses its number up. A counter at its last value is refused too.
pub fn numbers_are_used_up()
    ensures refused { example.refused_text.outcome.answer ≡ Some (Err (Encode (OfFrame ZeroByte))) }
    ensures books_nothing { example.booked example.refused_text ≡ [] }
    ensures next { example.booked example.behind_refused ≡ sent.b_as_s1 ∷ [] }
    ensures next_answers { example.behind_refused.outcome.answer ≡ Some (Ok (record { name = codes "s1"; params = []; columns = [] })) }
    ensures spent { example.spent.outcome.answer ≡ Some (Err (Encode Counter)) }
    ensures spent_books { example.booked example.spent ≡ [] }
{}

/// A type that was found is kept up to a clear, and the statement that looked it up beyond it.
pub fn types_are_kept()
    ensures books { example.booked example.first ++ example.booked example.again ++ example.booked example.dropped ++ example.booked example.once_more ≡ sent.q_as_s0 ∷ sent.info_as_s1 ∷ sent.row_by_s1 ∷ sent.q_as_s2 ∷ sent.q_as_s3 ∷ sent.row_by_s1 ∷ [] }
    ensures found { example.kinds example.first.outcome.answer ≡ kind.Simple ∷ [] }
    ensures kept { example.kinds example.again.outcome.answer ≡ kind.Simple ∷ [] }
    ensures found_again { example.kinds example.once_more.outcome.answer ≡ kind.Simple ∷ [] }
{}

/// A column that isn't there, an own column of a type that isn't known, two parameters and one that is no oid are refused. The statement
/// stays kept once its types are known.
pub fn refused_lookups()
    ensures column { example.three_columns.outcome.answer ≡ Some (Err (Column (codes "3"))) }
    ensures column_books { length (example.booked example.three_columns) ≡ 3 }
    ensures unknown { example.unknown_column.outcome.answer ≡ Some (Err UnexpectedMessage) }
    ensures unknown_books { length (example.booked example.unknown_column) ≡ 2 }
    ensures unknown_kept { example.keeps_info example.unknown_column ≡ false }
    ensures parameters { (example.of_params (26 ∷ 26 ∷ [])).outcome.answer ≡ Some (Err (Parameters 1 2)) }
    ensures parameters_books { length (example.booked (example.of_params (26 ∷ 26 ∷ []))) ≡ 2 }
    ensures parameters_kept { example.keeps_info (example.of_params (26 ∷ 26 ∷ [])) ≡ true }
    ensures of_int4 { (example.of_params (23 ∷ [])).outcome.answer ≡ Some (Err (ToSql 0 (Value (WrongType (record { postgres = 23; rust = rust.U32 }))))) }
{}

/// A search as a stack: a type that was found is handed to the frame below, whose type is kept, or whose next field is found; below them all
/// the next oid is. A type that is made of another waits for it on the stack.
pub fn a_search_is_a_stack()
    ensures wrapped { (fs : List Frame) (oid : ℕ) (row : search.TypeRow) (wrap : search.Wrap) (ty : PgType) → unwind (Wrapped oid row wrap ∷ fs) (Answer (Ok ty)) ≡ unwind fs (search.keeps oid row (search.wraps wrap ty)) }
    ensures last_field { (fs : List Frame) (oid : ℕ) (row : search.TypeRow) (columns : List column.Column) (name : List ℕ) (found : List Field) (ty : PgType) → unwind (Part oid row columns name [] found ∷ fs) (Answer (Ok ty)) ≡ unwind fs (search.keeps oid row (kind.Composite (found ++ record { name = name; type_ = ty } ∷ []))) }
    ensures next_field { (fs : List Frame) (oid : ℕ) (row : search.TypeRow) (columns : List column.Column) (name : List ℕ) (cells : Cells) (left : List Cells) (found : List Field) (ty : PgType) (f : search.FieldRow) → search.field_row columns cells ≡ Ok f → unwind (Part oid row columns name (cells ∷ left) found ∷ fs) (Answer (Ok ty)) ≡ unwind (Part oid row columns f.name left (found ++ record { name = name; type_ = ty } ∷ []) ∷ fs) (find_above (Part oid row columns f.name left (found ++ record { name = name; type_ = ty } ∷ []) ∷ fs) f.type_oid) }
    ensures next_oid { (oid : ℕ) (left : List ℕ) (found : List PgType) (ty : PgType) → searching (oid ∷ left) found [] (Answer (Ok ty)) ≡ searching left (found ++ ty ∷ []) [] (find_above [] oid) }
    ensures waits { (fs : List Frame) (oid : ℕ) (row : search.TypeRow) (wrap : search.Wrap) (inner : ℕ) → unwind fs (search.made_by (find_above (Wrapped oid row wrap ∷ fs)) oid row (search.Of wrap inner)) ≡ unwind (Wrapped oid row wrap ∷ fs) (find_above (Wrapped oid row wrap ∷ fs) inner) }
{}

/// What comes of a command over a desk by itself is its outcome on what that desk told.
pub fn what_comes_is_its_outcome()
    ensures { (desk : OwnDesk) (d : Dialogue Statement) (replies : List (List RawMessage)) → (example.over desk d replies).outcome ≡ outcome_of (asked d) (record { replies = replies; told = (example.over desk d replies).told }) }
{}
