//! The events of a script, each by its first word.

ghost use Rattle.std.specs.Prelude.{◌≡◌, [], ◌∷◌, ok_or};
ghost use Rattle.reset_play.specs.ScriptAnswers.{Gives};
ghost use Rattle.reset_play.specs.ScriptEvents.{one, two, none, choice, time_event, drop_event};
ghost use Rattle.reset_play.specs.ScriptEvents.{lay_event, poke_event, stage_event, arm_event};
ghost use Rattle.reset_play.specs.ScriptEvents.{fail_event, reset_event};
ghost use Rattle.reset_play.specs.ScriptText.{event_of_words};
ghost use Rattle.reset_play.specs.ScriptWords.{words, words_behind};
ghost use Rattle.reset_play.specs.declared.script.faults.ScriptKind.TheVariants.{BadOperand};

use super::faults::{LineFault, ScriptKind};
use super::limits::MAX_COUNT;
use super::names::{is_file_name, is_input_name, text_of};
use super::numbers::{bytes_of_hex, hex_number, is_hex_bytes, number_within};
use super::operands::{both_words, next_word, only_word};
use super::parts::cut;
use crate::Event;
use bench_model::Choice;
use cu_base::EfiTime;
use std::alloc::Global;

const BAD_OPERAND: LineFault = LineFault::Refused(ScriptKind::BadOperand);

fn time_event(rest: &[u8]) -> Option<Event>
    ensures { result ≡ one time_event (words_behind rest.now) }
{
    let word = only_word(rest)?;
    Some(Event::Time(EfiTime::from_ascii(word).ok()?))
}

fn stage_event(rest: &[u8]) -> Option<Event>
    ensures { result ≡ one stage_event (words_behind rest.now) }
{
    let at = hex_number(1, 16, only_word(rest)?)?;
    Some(Event::Stage { at })
}

fn fail_event(rest: &[u8]) -> Option<Event>
    ensures { result ≡ one fail_event (words_behind rest.now) }
{
    let nth = number_within(1, MAX_COUNT, only_word(rest)?)?;
    Some(Event::Fail { nth })
}

fn reset_event(rest: &[u8]) -> Option<Event>
    ensures { result ≡ one reset_event (words_behind rest.now) }
{
    let how = only_word(rest)?;
    if how == b"warm".as_slice() {
        Some(Event::Reset { cold: false })
    } else if how == b"cold".as_slice() {
        Some(Event::Reset { cold: true })
    } else {
        None
    }
}

fn kept_choice(word: &[u8]) -> Option<Choice>
    ensures { result ≡ choice (word.now ∷ []) }
{
    if word == b"new".as_slice() {
        Some(Choice::New)
    } else if word == b"old".as_slice() {
        Some(Choice::Old)
    } else if word == b"mix".as_slice() {
        Some(Choice::Mix)
    } else {
        None
    }
}

fn filled_choice(word: &[u8], digits: &[u8]) -> Option<Choice>
    ensures { result ≡ choice (word.now ∷ digits.now ∷ []) }
{
    if word != b"fill".as_slice() {
        return None;
    }
    Some(Choice::Fill(hex_number(2, 2, digits)? as u8))
}

// The choice of `new`, `old`, `mix`, or `fill` and a byte.
fn choice(rest: &[u8]) -> Option<Choice>
    ensures { result ≡ choice (words_behind rest.now) }
{
    let (word, more) = next_word(rest)?;
    let Some((digits, more)) = next_word(more) else {
        return kept_choice(word);
    };
    match next_word(more) {
        None => filled_choice(word, digits),
        Some(_) => None,
    }
}

fn arm_event(rest: &[u8]) -> Option<Event>
    ensures { result ≡ arm_event (words_behind rest.now) }
{
    let (count, more) = next_word(rest)?;
    let after = number_within(0, MAX_COUNT, count)?;
    let choice = choice(more)?;
    Some(Event::Arm { after, choice })
}

fn drop_event(alloc: Global, rest: &[u8]) -> Result<Event, LineFault>
    ensures { Gives result (ok_or (two drop_event (words_behind rest.now)) BadOperand) }
{
    let (file, input) = both_words(rest).ok_or(BAD_OPERAND)?;
    if !is_file_name(file) || !is_input_name(input) {
        return Err(BAD_OPERAND);
    }
    let file = text_of(alloc, file)?;
    let input = text_of(alloc, input)?;
    Ok(Event::Drop { file, input })
}

fn lay_event(alloc: Global, rest: &[u8]) -> Result<Event, LineFault>
    ensures { Gives result (ok_or (two lay_event (words_behind rest.now)) BadOperand) }
{
    let (place, input) = both_words(rest).ok_or(BAD_OPERAND)?;
    let at = hex_number(1, 16, place).ok_or(BAD_OPERAND)?;
    if !is_input_name(input) {
        return Err(BAD_OPERAND);
    }
    let input = text_of(alloc, input)?;
    Ok(Event::Lay { at, input })
}

fn poke_event(alloc: Global, rest: &[u8]) -> Result<Event, LineFault>
    ensures { Gives result (ok_or (two poke_event (words_behind rest.now)) BadOperand) }
{
    let (place, digits) = both_words(rest).ok_or(BAD_OPERAND)?;
    let at = hex_number(1, 16, place).ok_or(BAD_OPERAND)?;
    if !is_hex_bytes(digits) {
        return Err(BAD_OPERAND);
    }
    let bytes = bytes_of_hex(alloc, digits)?;
    Ok(Event::Poke { at, bytes })
}

fn bare_event(event: Event, rest: &[u8]) -> Option<Event>
    ensures { result ≡ none event (words_behind rest.now) }
{
    match next_word(rest) {
        None => Some(event),
        Some(_) => None,
    }
}

// The answer where an event's operands are read without memory.
fn or_bad_operand(event: Option<Event>) -> Result<Event, LineFault>
    ensures { Gives result (ok_or event BadOperand) }
{
    match event {
        Some(event) => Ok(event),
        None => Err(BAD_OPERAND),
    }
}

/// The event of a line's words.
pub(crate) fn read_event(alloc: Global, line: &[u8]) -> Result<Event, LineFault>
    ensures { Gives result (event_of_words (words line.now)) }
{
    let (word, rest) = cut(line, b' ');
    if word == b"time".as_slice() {
        return or_bad_operand(time_event(rest));
    }
    if word == b"drop".as_slice() {
        return drop_event(alloc, rest);
    }
    if word == b"signal".as_slice() {
        return or_bad_operand(bare_event(Event::Signal, rest));
    }
    if word == b"lay".as_slice() {
        return lay_event(alloc, rest);
    }
    if word == b"poke".as_slice() {
        return poke_event(alloc, rest);
    }
    if word == b"stage".as_slice() {
        return or_bad_operand(stage_event(rest));
    }
    if word == b"boot".as_slice() {
        return or_bad_operand(bare_event(Event::Boot, rest));
    }
    if word == b"arm".as_slice() {
        return or_bad_operand(arm_event(rest));
    }
    if word == b"fail".as_slice() {
        return or_bad_operand(fail_event(rest));
    }
    if word == b"reset".as_slice() {
        return or_bad_operand(reset_event(rest));
    }
    if word == b"show".as_slice() {
        return or_bad_operand(bare_event(Event::Show, rest));
    }
    Err(LineFault::Refused(ScriptKind::BadEvent))
}
