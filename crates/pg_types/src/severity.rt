//! Severities that aren't translated.

ghost use Rattle.std.specs.Prelude.{◌≡◌};
ghost use Rattle.pg_types.specs.Getters.{severity_name};

use std::fmt;

/// How grave an error or a notice is (PostgreSQL documentation, "Error and Notice Message Fields",
/// field V).
#[derive(Clone, Copy, Debug, PartialEq, Eq, Drop)]
pub enum Severity {
    /// All sessions of the server end.
    Panic,
    /// The session ends.
    Fatal,
    /// The command ends.
    Error,
    /// A likely problem.
    Warning,
    /// What may help the user.
    Notice,
    /// What may help a developer.
    Debug,
    /// What the user asked to be told.
    Info,
    /// What concerns who runs the server.
    Log,
}

impl Severity {
    /// Its name, in capitals.
    pub(crate) fn name(self) -> &'static str
        ensures { result.now ≡ severity_name self }
    {
        match self {
            Severity::Panic => "PANIC",
            Severity::Fatal => "FATAL",
            Severity::Error => "ERROR",
            Severity::Warning => "WARNING",
            Severity::Notice => "NOTICE",
            Severity::Debug => "DEBUG",
            Severity::Info => "INFO",
            Severity::Log => "LOG",
        }
    }
}

impl fmt::Display for Severity {
    fn fmt<W: fmt::Write>(&self, f: &mut fmt::Formatter<W>) -> fmt::Result {
        f.write_str(self.name())
    }
}
