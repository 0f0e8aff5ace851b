//! Severities that aren't translated, by their names.

ghost use Rattle.std.specs.Prelude.{◌≡◌};
ghost use Rattle.pg_spec.specs.DbErrors.{severity_named};

use pg_types::Severity;

/// The severity of this name, in capitals.
pub(crate) fn named_severity(name: &str) -> Option<Severity>
    ensures { result ≡ severity_named name.now }
{
    if name == "PANIC" {
        return Some(Severity::Panic);
    }
    if name == "FATAL" {
        return Some(Severity::Fatal);
    }
    if name == "ERROR" {
        return Some(Severity::Error);
    }
    if name == "WARNING" {
        return Some(Severity::Warning);
    }
    if name == "NOTICE" {
        return Some(Severity::Notice);
    }
    if name == "DEBUG" {
        return Some(Severity::Debug);
    }
    if name == "INFO" {
        return Some(Severity::Info);
    }
    if name == "LOG" {
        return Some(Severity::Log);
    }
    None
}
