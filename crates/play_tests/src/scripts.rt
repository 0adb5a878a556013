//! What is read of a script: each event in form, the inputs, and the messages of its faults. Which
//! scripts are refused is shown by runs of the built program.

use bench_model::Choice;
use cu_base::{EfiTime, UNSPECIFIED_ZONE};
use reset_play::{Event, Script, ScriptFault, read_script, script_inputs};
use std::alloc::Global;
use std::process::Abort;
use std::test::Fail;

// An event with borrowed names and bytes.
#[derive(Clone, Copy)]
enum Wanted<'a> {
    Time(EfiTime),
    Drop(&'a str, &'a str),
    Signal,
    Lay(u64, &'a str),
    Poke(u64, &'a [u8]),
    Stage(u64),
    Boot,
    Arm(u32, Choice),
    Fail(u32),
    Reset(bool),
    Show,
}

fn is_wanted(event: &Event, wanted: &Wanted<'_>) -> bool {
    match (event, wanted) {
        (Event::Time(a), Wanted::Time(b)) => a == b,
        (Event::Drop { file, input }, Wanted::Drop(a, b)) => {
            file.as_str() == *a && input.as_str() == *b
        }
        (Event::Signal, Wanted::Signal) => true,
        (Event::Lay { at, input }, Wanted::Lay(a, b)) => at == a && input.as_str() == *b,
        (Event::Poke { at, bytes }, Wanted::Poke(a, b)) => at == a && bytes.as_slice() == *b,
        (Event::Stage { at }, Wanted::Stage(a)) => at == a,
        (Event::Boot, Wanted::Boot) => true,
        (Event::Arm { after, choice }, Wanted::Arm(a, b)) => after == a && choice == b,
        (Event::Fail { nth }, Wanted::Fail(a)) => nth == a,
        (Event::Reset { cold }, Wanted::Reset(a)) => cold == a,
        (Event::Show, Wanted::Show) => true,
        _ => false,
    }
}

// Reads the text of a test, which is short.
fn read(rt: &impl Abort, alloc: Global, text: &str) -> Result<Script, ScriptFault> {
    assert!(rt; text.len() < 1_000_000);
    read_script(alloc, text.as_bytes())
}

// The line says this event alone.
fn says(rt: &impl Abort, alloc: Global, line: &str, wanted: Wanted<'_>) {
    match read(rt, alloc, line) {
        Ok(script) => {
            assert_eq!(rt; script.len(), 1, "{line}");
            let event = script.at(0).expect(rt, "an event");
            assert!(rt; is_wanted(event, &wanted), "{line}");
        }
        Err(fault) => panic!(rt; "{line}: {fault}"),
    }
}

fn noon() -> EfiTime {
    EfiTime {
        year: 2024,
        month: 2,
        day: 29,
        hour: 12,
        minute: 0,
        second: 0,
        nanosecond: 0,
        zone: UNSPECIFIED_ZONE,
        daylight: 0,
        pad1: 0,
        pad2: 0,
    }
}

#[test]
fn events_of_deliveries_are_read(rt: HostRuntime) {
    says(
        &rt,
        rt.alloc(),
        "time 2024-02-29T12:00:00",
        Wanted::Time(noon()),
    );
    says(
        &rt,
        rt.alloc(),
        "drop a.CAP c4",
        Wanted::Drop("a.CAP", "c4"),
    );
    says(&rt, rt.alloc(), "drop _-.9 !~", Wanted::Drop("_-.9", "!~"));
    says(&rt, rt.alloc(), "signal", Wanted::Signal);
    says(&rt, rt.alloc(), "lay 0 c4", Wanted::Lay(0, "c4"));
    says(
        &rt,
        rt.alloc(),
        "lay ffffFFFFffffFFFF c4",
        Wanted::Lay(0xffff_ffff_ffff_ffff, "c4"),
    );
    says(
        &rt,
        rt.alloc(),
        "poke 0010 00fFA0",
        Wanted::Poke(0x10, b"\x00\xff\xa0"),
    );
    says(&rt, rt.alloc(), "stage 1000", Wanted::Stage(0x1000));
    says(&rt, rt.alloc(), "boot", Wanted::Boot);
}

#[test]
fn events_of_faults_are_read(rt: HostRuntime) {
    says(&rt, rt.alloc(), "arm 0 new", Wanted::Arm(0, Choice::New));
    says(
        &rt,
        rt.alloc(),
        "arm 1000000 old",
        Wanted::Arm(1_000_000, Choice::Old),
    );
    says(&rt, rt.alloc(), "arm 7 mix", Wanted::Arm(7, Choice::Mix));
    says(
        &rt,
        rt.alloc(),
        "arm 7 fill a0",
        Wanted::Arm(7, Choice::Fill(0xa0)),
    );
    says(&rt, rt.alloc(), "fail 1", Wanted::Fail(1));
    says(&rt, rt.alloc(), "fail 1000000", Wanted::Fail(1_000_000));
    says(&rt, rt.alloc(), "reset warm", Wanted::Reset(false));
    says(&rt, rt.alloc(), "reset cold", Wanted::Reset(true));
    says(&rt, rt.alloc(), "show", Wanted::Show);
}

#[test]
fn faults_are_told_in_words(rt: HostRuntime) -> Result<(), Fail> {
    let cases = [
        (
            "caf\u{e9}",
            "line 1: a byte that is no printable ASCII character",
        ),
        ("\nbot", "line 2: the first word is no event"),
        (
            "fail 0",
            "line 1: the operands are too many, too few or out of form",
        ),
    ];
    for (text, wanted) in cases {
        match read(&rt, rt.alloc(), text) {
            Ok(_) => panic!(&rt; "{text}"),
            Err(fault) => {
                assert_eq!(rt; format!(in rt.alloc(); "{fault}")?.as_str(), wanted);
            }
        }
    }
    Ok(())
}

#[test]
fn inputs_are_named_once(rt: HostRuntime) -> Result<(), Fail> {
    let text = "drop a c2\nlay 0 c1\ndrop b c2\nboot\ndrop c c10\nlay 1 c1\n";
    let script = read(&rt, rt.alloc(), text)?;
    let names = script_inputs(rt.alloc(), &script)?;
    assert_eq!(rt; names.len(), 3);
    for (i, wanted) in ["c2", "c1", "c10"].into_iter().enumerate() {
        let name = names.at(i).ok_or("no name")?;
        assert_eq!(rt; name.as_str(), wanted);
    }
    let none = read(&rt, rt.alloc(), "")?;
    assert!(rt; script_inputs(rt.alloc(), &none)?.is_empty());
    Ok(())
}
