//! What the program alone says on standard error.

use pg_diagnostics::VERSION;
use pg_machine::FileFault;

/// The name by which the program says it.
pub(crate) const PROGRAM: &str = "pgserve";

/// What is wrong with the file of a machine, and in which line.
pub(crate) fn tell_fault(rt: &HostRuntime, file: &str, fault: FileFault) {
    let _said = match fault {
        FileFault::Line { number, fault } => eprintln!(rt; "{PROGRAM}: {file}:{number}: {fault}"),
        _ => eprintln!(rt; "{PROGRAM}: {file}: {fault}"),
    };
}

/// What the words mean.
const MEANINGS: &str = "
echo [CUT ROOM]            a session text on standard input is played against a server that echoes each query
machine FILE [CUT ROOM]    against the table of replies in FILE
CUT, ROOM                  how many bytes the link gives at a read and takes at a write, at most, from 1; 8192 without

The report goes to standard output.

Exit status: 0 the session answered Ok, whatever its commands answered; 1 it answered an error; 2 the words, FILE or the
text are refused; 3 FILE or the text can't be read; 4 the report can't be written; 5 out of memory.

Any other words, --help and --version too, print this on standard error, and the usage line on standard output, with
status 2.";

/// What the words mean, the exit statuses and the version.
pub(crate) fn tell_usage(rt: &HostRuntime) {
    let _said = eprintln!(rt;
        "{PROGRAM} {VERSION}, over a port of tokio-postgres 0.7.18\n{MEANINGS}"
    );
}
