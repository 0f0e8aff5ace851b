//! Laws of session texts and reports, proved.

ghost use Rattle.pg_text.specs.Laws.{OneLine, OneSession, PrintsSimply, RefusalsStay, RefusedIsNone, TextsStay};

/// A text has at most one session.
pub fn one_session()
    ensures { OneSession }
{}

/// What is refused at a line is no session text.
pub fn refused_is_none()
    ensures { RefusedIsNone }
{}

/// A line is spelled by at most one line of a session.
pub fn one_line()
    ensures { OneLine }
{}

/// A report on simple queries alone prints as the definition on these says.
pub fn simple_reports_print_so()
    ensures { PrintsSimply }
{}

/// A text is that of a session of simple queries alone exactly where the definition on these says so.
pub fn simple_texts_stay()
    ensures { TextsStay }
{}

/// A text that is refused behind lines of simple queries alone is refused there by the definition on these.
pub fn simple_refusals_stay()
    ensures { RefusalsStay }
{}
