//! What a line says.

use crate::session::POLLS;
use pg_asking::{Given, split};
use pg_cases::words::text_at;
use std::alloc::{AllocError, Global};

/// How a statement is handed in.
#[derive(Clone, Copy, PartialEq, Eq, Drop)]
pub(crate) enum Form {
    /// By its text.
    Query,
    /// It was prepared before, and is lent.
    Borrowed,
    /// It was prepared before, and is handed over.
    Owned,
}

/// What stands before the call.
#[derive(Clone, Copy, Drop)]
pub(crate) struct Setting<'a> {
    /// What another client asks first, whose answer is read last.
    pub(crate) beside: Option<&'a str>,
    pub(crate) form: Form,
    /// The call is given up behind so many polls.
    pub(crate) polls: u64,
    /// It is polled by hand.
    pub(crate) by_hand: bool,
    /// Its stream is given up behind so many items.
    pub(crate) take: u64,
    /// The hub takes no requests.
    pub(crate) closed: bool,
    /// The hub has failed.
    pub(crate) failed: bool,
    /// The numbers of statements are used up.
    pub(crate) spent: bool,
    /// The link ends behind what the server gives.
    pub(crate) ends: bool,
}

/// A call, with what stands before it, its words, and what the server gives.
#[derive(Clone, Copy, Drop)]
pub(crate) struct Case<'a> {
    pub(crate) setting: Setting<'a>,
    pub(crate) call: &'a str,
    pub(crate) text: &'a str,
    pub(crate) values: &'a [Vec<u8>],
    pub(crate) types: &'a [Vec<u8>],
    pub(crate) plan: &'a [Vec<u8>],
}

impl<'a> Setting<'a> {
    fn new() -> Setting<'a> {
        Setting {
            beside: None,
            form: Form::Query,
            polls: POLLS,
            by_hand: false,
            take: u64::MAX,
            closed: false,
            failed: false,
            spent: false,
            ends: false,
        }
    }

    /// The call is given up behind so many polls.
    fn give_up(&mut self, polls: u64) {
        self.polls = polls;
        self.by_hand = true;
    }

    /// Takes a word that stands alone. False: it is none.
    fn take_flag(&mut self, word: &str) -> bool {
        match word {
            "borrowed" => self.form = Form::Borrowed,
            "owned" => self.form = Form::Owned,
            "closed" => self.closed = true,
            "failed" => self.failed = true,
            "spent" => self.spent = true,
            "ends" => self.ends = true,
            _ => return false,
        }
        true
    }

    /// Takes a word, and the one behind it where it has one. How many words these are: none if it is the call.
    fn take_word(&mut self, word: &str, next: &'a str) -> usize {
        match word {
            "beside" => self.beside = Some(next),
            "polls" => self.give_up(next.parse::<u64>().unwrap_or(0)),
            "take" => self.take = next.parse::<u64>().unwrap_or(0),
            _ => return if self.take_flag(word) { 1 } else { 0 },
        }
        2
    }
}

/// The answer of this call is a stream.
pub(crate) fn hands_on(call: &str) -> bool {
    matches!(call, "simple_query_raw" | "query_raw" | "query_typed_raw")
}

impl<'a> Case<'a> {
    /// The case of these words: the setting, the call, its text and its values, `types` and their oids, `:` and what the server gives.
    pub(crate) fn read(words: &'a [Vec<u8>]) -> Case<'a> {
        let (asked, plan) = split(words, ":");
        let (asked, types) = split(asked, "types");
        let mut setting = Setting::new();
        let mut rest = asked;
        for _ in 0..asked.len() {
            match setting.take_word(text_at(rest, 0), text_at(rest, 1)) {
                0 => break,
                n => rest = rest.get(n..).unwrap_or(&[]),
            }
        }
        let call = text_at(rest, 0);
        setting.by_hand |= hands_on(call);
        Case {
            setting,
            call,
            text: text_at(rest, 1),
            values: rest.get(2..).unwrap_or(&[]),
            types,
            plan,
        }
    }

    /// What it hands in.
    pub(crate) fn given(&self, alloc: Global) -> Result<Given, AllocError> {
        Given::read(alloc, self.values, self.types)
    }
}
