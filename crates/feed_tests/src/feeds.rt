//! Deliveries that are given to a feed in pieces.

ghost use Rattle.std.specs.Prelude.{◌<◌, ◌≤◌, ◌^◌, length};

use capsule_feed::{Events, Feed, Span};
use capsule_grammar::{DecodeFault, Refusal, Why};
use std::alloc::Global;
use std::process::Abort;

/// The answer of a feed of the delivery in pieces of this size.
pub fn fed(alloc: Global, whole: &[u8], size: usize, events: &mut Events) -> Result<(), DecodeFault>
    requires long { length whole.now < 2 ^ 32 }
    requires some { 0 < size }
{
    let mut feed = Feed::new(alloc, whole.len() as u32);
    let mut at = 0usize;
    while at < whole.len() {
        let length = size.min(whole.len() - at);
        feed.feed(&whole[at..at + length], events)?;
        at += length;
    }
    feed.end()
}

/// The answer of a feed of the delivery in two pieces, and empty ones before, between and behind
/// them.
pub fn fed_at(
    alloc: Global,
    whole: &[u8],
    cut: usize,
    events: &mut Events,
) -> Result<(), DecodeFault>
    requires long { length whole.now < 2 ^ 32 }
    requires within { cut ≤ length whole.now }
{
    let mut feed = Feed::new(alloc, whole.len() as u32);
    feed.feed(&[], events)?;
    feed.feed(&whole[..cut], events)?;
    feed.feed(&[], events)?;
    feed.feed(&whole[cut..], events)?;
    feed.feed(&[], events)?;
    feed.end()
}

/// The answer is this refusal.
pub fn refuses(rt: &impl Abort, answer: Result<(), DecodeFault>, at: u32, why: Why) {
    assert!(rt; answer == Err(DecodeFault::Refused(Refusal { at, why })));
}

/// The spans, those of one structure joined.
pub fn joined(rt: &impl Abort, alloc: Global, spans: &[Span]) -> Events {
    let mut all = Events::new(alloc);
    let mut last: Option<Span> = None;
    for span in spans {
        last = match last {
            None => Some(*span),
            Some(before) => Some(with_next(rt, &mut all, before, *span)),
        };
    }
    match last {
        None => {}
        Some(before) => pushed(rt, &mut all, before),
    }
    all
}

fn with_next(rt: &impl Abort, all: &mut Events, before: Span, span: Span) -> Span {
    let is_same = before.kind == span.kind && before.item == span.item;
    if is_same && before.capsule == span.capsule {
        assert!(rt; before.at.saturating_add(before.length) == span.at);
        return Span {
            length: before.length.saturating_add(span.length),
            ..before
        };
    }
    pushed(rt, all, before);
    span
}

fn pushed(rt: &impl Abort, all: &mut Events, span: Span) {
    match all.push(span) {
        Ok(()) => {}
        Err(_) => panic!(rt; "no memory"),
    }
}
