//! The file that a report is written into: one beside REPORT, which takes its place once it is whole.

use std::fs::{File, OpenOptions};
use std::os::unix::fs::{MetadataExt, OpenOptionsExt};
use std::{fs, io};

/// How many files beside a report may be there before none is made.
const MOST_BESIDE: u32 = 100;

/// A new file's bits, but for those that the process' mask takes away.
const NEW_MODE: u32 = 0o666;

/// The bits that say who may read and write a file.
const ACCESS: u32 = 0o777;

/// A file beside the one whose place it takes.
#[derive(Drop)]
pub(crate) struct Beside {
    path: String,
    target: String,
    /// Whether FILE, which the session text is read from, is the target.
    is_text: bool,
}

impl Beside {
    /// Its name.
    pub(crate) fn path(&self) -> &str {
        self.path.as_str()
    }

    /// Takes the target's place. A text that stands there stays under its name with a `~` behind it, which none may have yet.
    pub(crate) fn put(&self, rt: &HostRuntime) -> io::Result<()> {
        if self.is_text {
            let kept = format!(in rt.alloc(); "{}~", self.target.as_str())?;
            fs::hard_link(rt, self.target.as_str(), kept.as_str())?;
        }
        fs::rename(rt, self.path.as_str(), self.target.as_str())
    }

    /// Lets it go where what it has takes no place: with status 3 to 5, and with 2 where FILE is the target. Whether it was so.
    pub(crate) fn is_let_go(&self, rt: &HostRuntime, status: u8) -> bool {
        let goes = status > 2 || status == 2 && self.is_text;
        if goes {
            let _removed = fs::remove_file(rt, self.path.as_str());
        }
        goes
    }
}

/// Opens what REPORT's text is written into: a file beside it, or REPORT itself where it is no file, as a device.
pub(crate) fn open(
    rt: &HostRuntime,
    file: &str,
    report: &str,
) -> io::Result<(File, Option<Beside>)> {
    let target = target_of(rt, report)?;
    match fs::symlink_metadata(rt, target.as_str()) {
        Ok(found) if !found.is_file() => Ok((fs::create(rt, report)?, None)),
        Ok(found) => {
            let is_text = is_file(rt, file, found.dev(), found.ino());
            make_beside(rt, target, is_text, found.mode() & ACCESS)
        }
        Err(_) => make_beside(rt, target, false, NEW_MODE),
    }
}

/// Where links lead, or the name as it is.
fn target_of(rt: &HostRuntime, report: &str) -> io::Result<String> {
    match fs::canonicalize(rt, report) {
        Ok(path) => Ok(path.into_string()),
        Err(_) => Ok(String::from_str(rt.alloc(), report)?),
    }
}

/// Whether the name is that of this file.
fn is_file(rt: &HostRuntime, name: &str, dev: u64, ino: u64) -> bool {
    match fs::metadata(rt, name) {
        Ok(found) => found.dev() == dev && found.ino() == ino,
        Err(_) => false,
    }
}

/// Makes a file beside the target, by the first name that none has: `TARGET.N.tmp`.
fn make_beside(
    rt: &HostRuntime,
    target: String,
    is_text: bool,
    mode: u32,
) -> io::Result<(File, Option<Beside>)> {
    for n in 0..MOST_BESIDE {
        let path = format!(in rt.alloc(); "{}.{n}.tmp", target.as_str())?;
        match create_new(rt, path.as_str(), mode) {
            Ok(file) => {
                let beside = Beside {
                    path,
                    target,
                    is_text,
                };
                return Ok((file, Some(beside)));
            }
            Err(error) if matches!(error.kind(), io::ErrorKind::AlreadyExists) => {}
            Err(error) => return Err(error),
        }
    }
    Err(io::Error::from(io::ErrorKind::AlreadyExists))
}

fn create_new(rt: &HostRuntime, path: &str, mode: u32) -> io::Result<File> {
    let mut options = OpenOptions::new();
    options.write(true).create_new(true).mode(mode);
    options.open(rt, path)
}
