//! What must be alike in two outputs of a session over links that give and take other numbers of bytes at a time.

/// The line tells turns, which may differ.
fn is_of_turns(line: &str) -> bool {
    line.starts_with("turn ") || line.starts_with("book ")
}

/// The lines of two outputs are equal, but for those that tell turns.
pub(crate) fn are_alike(one: &str, other: &str) -> bool {
    let mut others = other.lines().filter(|line| !is_of_turns(line));
    for line in one.lines().filter(|line| !is_of_turns(line)) {
        if others.next() != Some(line) {
            return false;
        }
    }
    others.next().is_none()
}
