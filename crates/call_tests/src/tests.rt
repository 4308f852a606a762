//! Calls on a small list and a small graph, with answers from the rules.
use events::EventList;
use graph::{Exit, Exits, Graph};
use image::{Kind, Load};
use image_graph::ImageGraph;
use name::{Name, NoName};
use refusal::{Cause, NoCause, Reason, Refusal};
use report::{refused_text, state_text, texts_by_state};
use std::alloc::Global;
use std::test::Fail;

// Two events, a and b.
const NAMES: [u8; 22] = [
    1, 0, 2, 0, 20, 0, 0, 0, 1, 0, 0, 0, 21, 0, 0, 0, 1, 0, 0, 0, b'a', b'b',
];

// State 0 (line 10) leaves by event 0 to 1 and by event 1 to 2, state 1 is closed, state 2 (line 30) has no exits.
const STATES: [u8; 44] = [
    2, 0, 3, 0, 28, 0, 0, 0, 12, 0, 0, 0, 40, 0, 0, 0, 0, 0, 0, 0, 40, 0, 0, 0, 4, 0, 0, 0, 10, 0,
    0, 0, 0, 0, 1, 0, 1, 0, 2, 0, 30, 0, 0, 0,
];

// What these bytes are an image of.
fn loaded<T: Load>(heap: Global, bytes: &[u8]) -> Result<T, Fail> {
    Ok(T::load(bytes.to_vec(heap)?)?)
}

fn two_events(heap: Global) -> Result<EventList, Fail> {
    loaded(heap, &NAMES)
}

fn three_states(heap: Global) -> Result<ImageGraph, Fail> {
    loaded(heap, &STATES)
}

// Number, place and depth of a refusal.
fn told(why: Refusal) -> (u8, usize, u8) {
    (why.reason.number(), why.place, why.depth)
}

fn exit(event: u8, target: u16) -> Exit {
    Exit { event, target }
}

// The first letter of an event's name.
fn named(list: &EventList, event: u8) -> Option<u8> {
    list.name(event)?.as_bytes().first().copied()
}

#[test]
fn names_and_events(rt: HostRuntime) -> Result<(), Fail> {
    let list = two_events(rt.alloc())?;
    assert_eq!(rt; list.len(), 2);
    assert_eq!(rt; list.find(b"a"), Some(0));
    assert_eq!(rt; list.find(b"b"), Some(1));
    assert_eq!(rt; list.find(b"ab"), None);
    assert_eq!(rt; list.find(b""), None);
    assert_eq!(rt; named(&list, 0), Some(b'a'));
    assert_eq!(rt; named(&list, 1), Some(b'b'));
    assert_eq!(rt; named(&list, 2), None);
    assert_eq!(rt; named(&list, 255), None);
    Ok(())
}

#[test]
fn names_are_formed(rt: HostRuntime) -> Result<(), Fail> {
    let long = Name::try_from(b"abcdefghij_12345".as_slice())?;
    assert_eq!(rt; long.as_str(), "abcdefghij_12345");
    assert_eq!(rt; long.to_string(rt.alloc())?.as_str(), "abcdefghij_12345");
    let shown = format!(in rt.alloc(); "{long:?}")?;
    assert_eq!(rt; shown.as_str(), "Name { text: \"abcdefghij_12345\" }");
    assert_eq!(rt; Name::try_from(b"a".as_slice()), Ok(Name::default()));
    assert_eq!(rt; Name::try_from(b"".as_slice()), Err(NoName));
    assert_eq!(rt;
        Name::try_from(b"abcdefghij_123456".as_slice()),
        Err(NoName)
    );
    assert_eq!(rt; Name::try_from(b"_a".as_slice()), Err(NoName));
    assert_eq!(rt; Name::try_from(b"1a".as_slice()), Err(NoName));
    assert_eq!(rt; Name::try_from(b"aB".as_slice()), Err(NoName));
    Ok(())
}

#[test]
fn names_in_order(rt: HostRuntime) -> Result<(), Fail> {
    let list = two_events(rt.alloc())?;
    let mut letters = list
        .names()
        .iter()
        .map(|name| name.as_bytes().first().copied());
    assert_eq!(rt; letters.next(), Some(Some(b'a')));
    assert_eq!(rt; letters.next(), Some(Some(b'b')));
    assert_eq!(rt; letters.next(), None);
    Ok(())
}

#[test]
fn exits_one_by_one(rt: HostRuntime) -> Result<(), Fail> {
    let graph = three_states(rt.alloc())?;
    assert_eq!(rt; graph.states(), 3);
    assert_eq!(rt; graph.exit(0, 0), Ok(Some(exit(0, 1))));
    assert_eq!(rt; graph.exit(0, 1), Ok(Some(exit(1, 2))));
    assert_eq!(rt; graph.exit(0, 2), Ok(None));
    assert_eq!(rt; graph.exit(0, 65535), Ok(None));
    assert_eq!(rt; graph.exit(2, 0), Ok(None));
    Ok(())
}

#[test]
fn exits_at_once(rt: HostRuntime) -> Result<(), Fail> {
    let graph = three_states(rt.alloc())?;
    let mut exits = Exits::new();
    assert_eq!(rt; graph.exits(0, &mut exits), Ok(()));
    assert_eq!(rt; exits.len(), 2);
    assert_eq!(rt; exits.get(0), Some(exit(0, 1)));
    assert_eq!(rt; exits.get(1), Some(exit(1, 2)));
    assert_eq!(rt; exits.get(2), None);
    assert_eq!(rt; graph.exits(1, &mut exits).map_err(told), Err((31, 1, 0)));
    assert_eq!(rt; exits.len(), 0);
    assert_eq!(rt; graph.exits(0, &mut exits), Ok(()));
    assert_eq!(rt; graph.exits(3, &mut exits).map_err(told), Err((30, 3, 0)));
    assert_eq!(rt; exits.len(), 0);
    assert_eq!(rt; graph.exits(2, &mut exits), Ok(()));
    assert_eq!(rt; exits.as_slice().len(), 0);
    Ok(())
}

#[test]
fn lines_of_states(rt: HostRuntime) -> Result<(), Fail> {
    let graph = three_states(rt.alloc())?;
    assert_eq!(rt; graph.line(0).map_err(told), Ok(10));
    assert_eq!(rt; graph.line(1).map_err(told), Ok(0));
    assert_eq!(rt; graph.line(2).map_err(told), Ok(30));
    assert_eq!(rt; graph.line(3).map_err(told), Err((30, 3, 0)));
    assert_eq!(rt; graph.line(65535).map_err(told), Err((30, 65535, 0)));
    Ok(())
}

#[test]
fn at_most_1024_exits(rt: HostRuntime) {
    let mut exits = Exits::new();
    for target in 0..1025u16 {
        exits.push(exit(7, target));
    }
    assert_eq!(rt; exits.len(), 1024);
    assert_eq!(rt; exits.get(1023), Some(exit(7, 1023)));
    assert_eq!(rt; exits.get(1024), None);
    exits.clear();
    assert_eq!(rt; exits.len(), 0);
}

#[test]
fn numbers_of_reasons(rt: HostRuntime) {
    assert_eq!(rt; Reason::ImageShort.number(), 1);
    assert_eq!(rt; Reason::NameRepeated.number(), 8);
    assert_eq!(rt; Reason::TextLong.number(), 10);
    assert_eq!(rt; Reason::StepsMany.number(), 17);
    assert_eq!(rt; Reason::StartOutside.number(), 20);
    assert_eq!(rt; Reason::StateOutside.number(), 30);
    assert_eq!(rt; Reason::Closed(Cause::empty_part()).number(), 31);
    assert_eq!(rt; Cause::try_from(30), Err(NoCause(30)));
    assert!(rt; Cause::try_from(31).is_ok());
    assert!(rt; Cause::try_from(39).is_ok());
    assert_eq!(rt; Cause::try_from(40), Err(NoCause(40)));
}

#[test]
fn texts_of_refusals(rt: HostRuntime) -> Result<(), Fail> {
    let outside = refused_text(
        rt.alloc(),
        Kind::Graph,
        Refusal::at(Reason::PartIllFormed, 16826368),
    )?;
    assert_eq!(rt; outside.as_str(), "refused graph 7 16826368\n");
    let repeated = refused_text(
        rt.alloc(),
        Kind::Events,
        Refusal::at(Reason::NameRepeated, 12),
    )?;
    assert_eq!(rt; repeated.as_str(), "refused events 8 12\n");
    Ok(())
}

#[test]
fn refusals_shown_and_compared(rt: HostRuntime) -> Result<(), Fail> {
    let outside = Refusal::at(Reason::StateOutside, 65535);
    let closed = Refusal::closed(Cause::empty_part(), 4095, 255);
    assert_eq!(rt; outside.to_string(rt.alloc())?.as_str(), "30 65535 0");
    assert_eq!(rt; closed.to_string(rt.alloc())?.as_str(), "31 4095 255");
    assert_eq!(rt; closed, Refusal::closed(Cause::empty_part(), 4095, 255));
    assert_ne!(rt; closed, Refusal::closed(Cause::empty_part(), 4095, 254));
    assert_ne!(rt; outside, Refusal::at(Reason::StateOutside, 65534));
    assert_ne!(rt; outside, Refusal::at(Reason::EntryOutside, 65535));
    Ok(())
}

#[test]
fn texts_of_states(rt: HostRuntime) -> Result<(), Fail> {
    let list = two_events(rt.alloc())?;
    let graph = three_states(rt.alloc())?;
    let mut exits = Exits::new();
    let open = state_text(rt.alloc(), &list, &graph, 0, &mut exits)?;
    assert_eq!(rt;
        open.as_str(),
        "state 0 line 10 exits 2\nexit 0 a 1\nexit 1 b 2\n"
    );
    let closed = state_text(rt.alloc(), &list, &graph, 1, &mut exits)?;
    assert_eq!(rt; closed.as_str(), "state 1 closed 31 0\n");
    let missing = state_text(rt.alloc(), &list, &graph, 3, &mut exits)?;
    assert_eq!(rt; missing.as_str(), "");
    Ok(())
}

#[test]
fn texts_of_all_states(rt: HostRuntime) -> Result<(), Fail> {
    let list = two_events(rt.alloc())?;
    let graph = three_states(rt.alloc())?;
    let mut all = String::new(rt.alloc());
    for text in texts_by_state(rt.alloc(), &list, &graph) {
        all.push_str(text?.as_str())?;
    }
    assert_eq!(rt;
        all.as_str(),
        "state 0 line 10 exits 2\nexit 0 a 1\nexit 1 b 2\nstate 1 closed 31 0\nstate 2 line 30 exits 0\n"
    );
    Ok(())
}
