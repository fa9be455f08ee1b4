//! The calls, each with its words, and what one comes to.

use crate::common::specs_of;
use Names::{Cloned, Server};
use rationed::{Call, Ended, Rationed};
use std::alloc::{Allocator, Global};
use std::fmt::Debug;
use virtiofs_map::cmdline;
use virtiofs_map::id_types::{GuestUid, HostUid};
use virtiofs_map::soft_idmap::IdMap;
use virtiofs_map::xattrmap::XattrMap;

type Users<A> = IdMap<GuestUid, HostUid, A>;

/// A call by its name, with its words. Texts of specifications have a bar between each two.
#[derive(Clone, Copy, Debug)]
pub(super) enum Asked {
    FromStr(&'static str),
    TryFrom(&'static str),
    FromSpecs(&'static str),
    /// `XattrMap::try_from`.
    Rules(&'static str),
    /// A question to the map of these rules.
    Of(&'static str, Names),
}

/// What is asked of a map of names.
#[derive(Clone, Copy, Debug)]
pub(super) enum Names {
    Cloned,
    Server(&'static str),
}

impl Call for Asked {
    fn run<'h>(&self, ample: &'h Rationed<Global>, scarce: &'h Rationed<Global>) -> Ended {
        let Some(text) = self.told(ample, scarce) else {
            return Ended::Wrong;
        };
        if is_refusal(text.as_str()) {
            return Ended::OutOfMemory;
        }
        Ended::of(self.told(ample, ample) == Some(text))
    }
}

/// Whether an answer is out of memory, in the form of one of the calls.
fn is_refusal(text: &str) -> bool {
    REFUSALS.iter().any(|refusal| *refusal == text)
        || text.starts_with("Err(Spec { index: ") && text.ends_with(", cause: OutOfMemory })")
}

/// Out of memory blames no rule.
static REFUSALS: [&str; 4] = [
    "Err(AllocError)",
    "Err(OutOfMemory)",
    "Err(Build(OutOfMemory))",
    "Err(Error { cause: OutOfMemory, rule: None })",
];

impl Asked {
    /// What the call comes to with the memory of `alloc`, as a text; `None` where the test itself
    /// goes wrong. All that is done beside the call has its memory from `ample`.
    fn told<A: Allocator + Copy + Debug>(&self, ample: A, alloc: A) -> Option<String<A>> {
        match *self {
            Asked::FromStr(text) => printed(ample, &cmdline::IdMap::from_str(alloc, text)),
            Asked::TryFrom(texts) => try_from(ample, alloc, texts),
            Asked::FromSpecs(texts) => from_specs(ample, alloc, texts),
            Asked::Rules(text) => printed(ample, &XattrMap::try_from(alloc, text)),
            Asked::Of(rules, asked) => about_names(ample, alloc, asked, rules),
        }
    }
}

/// The numbers for which a map that was made is asked, on both sides.
static NUMBERS: [u32; 12] = [0, 5, 7, 9, 22, 100, 105, 1000, 1009, 5001, 5002, 4294967295];

fn printed<T: Debug, A: Allocator + Copy>(ample: A, answer: &T) -> Option<String<A>> {
    format!(in ample; "{answer:?}").ok()
}

fn try_from<A: Allocator + Copy>(ample: A, alloc: A, texts: &str) -> Option<String<A>> {
    made(ample, &Users::try_from(alloc, specs_of(ample, texts)?))
}

fn from_specs<A: Allocator + Copy + Debug>(ample: A, alloc: A, texts: &str) -> Option<String<A>> {
    let texts = texts.split('|').collect::<Vec<&str, A>>(ample).ok()?;
    made(ample, &Users::from_specs(alloc, texts.as_slice()))
}

/// What a map that was made makes of the numbers, or why none was made.
fn made<E: Debug, A: Allocator + Copy>(
    ample: A,
    answer: &Result<Users<A>, E>,
) -> Option<String<A>> {
    match answer {
        Ok(map) => lookups(ample, map),
        Err(error) => format!(in ample; "Err({error:?})").ok(),
    }
}

fn lookups<A: Allocator + Copy>(ample: A, map: &Users<A>) -> Option<String<A>> {
    let mut text = String::new(ample);
    for &number in &NUMBERS {
        let host = map.map_guest(GuestUid::from(number));
        let guest = map.map_host(HostUid::from(number));
        write!(text, "{number}: {host:?} {guest:?}; ").ok()?;
    }
    Some(text)
}

fn about_names<A: Allocator + Copy>(
    ample: A,
    alloc: A,
    asked: Names,
    rules: &str,
) -> Option<String<A>> {
    let map = XattrMap::try_from(ample, rules).ok()?;
    match asked {
        Cloned => printed(ample, &map.clone(alloc)),
        Server(list) => server(ample, alloc, &map, list),
    }
}

/// What a map makes of a list of the host.
fn server<A: Allocator + Copy>(
    ample: A,
    alloc: A,
    map: &XattrMap<A>,
    list: &str,
) -> Option<String<A>> {
    let list = Vec::from_slice(ample, list.as_bytes()).ok()?;
    printed(ample, &map.map_server_xattrlist(alloc, list))
}
