//! What the program alone says on standard error.

use pg_diagnostics::VERSION;
use std::io;

/// The name by which the program says it.
pub(crate) const PROGRAM: &str = "pgplay";

/// A report is whole but couldn't take its place.
pub(crate) fn tell_beside(rt: &HostRuntime, report: &str, beside: &str, error: &io::Error) {
    let _said = eprintln!(rt;
        "{PROGRAM}: {report}: can't be written: {error}; what is due stands in {beside}"
    );
}

/// What the words mean.
const MEANINGS: &str = "
play                a session text on standard input is played over its own link; the report goes to standard output
pipe FILE REPORT    the text in FILE is played over standard input and output, which a server is joined to; at the end
                    the report takes the place of REPORT
threads             isn't built: a usage error
gen N SEED          a session of N queries, 1 to 100000, that SEED, 0 to 4294967295, makes; counts go to standard output

Exit status: 0 the session answered Ok, whatever its commands answered; 1 it answered an error; 2 the words or the text
are refused; 3 the text can't be read; 4 the report can't be written; 5 out of memory.

Any other words, --help and --version too, print this on standard error, and the usage line on standard output, with
status 2.";

/// What the words mean, the exit statuses and the version.
pub(crate) fn tell_usage(rt: &HostRuntime) {
    let _said = eprintln!(rt;
        "{PROGRAM} {VERSION}, over a port of tokio-postgres 0.7.18\n{MEANINGS}"
    );
}
