//! What a desk answers may cross threads: an event that another thread made comes back to the one that joins it.
#![tactic(auto)]

use pg_desk::Event;
use std::sync::Wait;
use std::thread;
use std::thread::Threads;

fn none_made() -> Option<Event> {
    None
}

/// An event that another thread hands over, or `None` where that thread can't be started.
pub fn event_there<R: Threads + Wait + Sync>(rt: &R) -> Option<Option<Event>> {
    thread::scope(thread::scope_env(), rt, |scope| {
        match scope.spawn(move || none_made()) {
            Ok(child) => Some(child.join(rt)),
            Err(_) => None,
        }
    })
}
