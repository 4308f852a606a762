//! Loads images that stand in a table, and prints what becomes of each.
//!
//! Each line of the input is a label, `events` or `graph`, and the bytes of an image in hexadecimal. Each answer is the
//! label and `accepted` or `refused NUMBER PLACE DEPTH`. Under `show` in place of `graph`, the text of an accepted
//! graph follows, with the names of the last list that was accepted. Under `sweep-events` and `sweep-graph` each byte
//! of the image takes each value in turn.
#![tactic(auto)]

mod sweeps;

use crate::sweeps::sweep;
use anyhow::anyhow;
use events::EventList;
use image::Load;
use image_graph::ImageGraph;
use report::{events_text, states_text, texts_by_state};
use std::alloc::{AllocError, Global};
use std::io::{BufRead, BufReader};

// The value of a hexadecimal digit.
fn digit(b: u8) -> u8 {
    match b {
        b'0'..=b'9' => b - b'0',
        b'a'..=b'f' => b - b'a' + 10,
        _ => 0,
    }
}

// The bytes that hexadecimal digits write, two for each.
fn decoded(heap: Global, digits: &[u8]) -> Result<Vec<u8>, AllocError> {
    let (pairs, _) = digits.as_chunks::<2>();
    pairs
        .iter()
        .map(|[high, low]| digit(*high) << 4 | digit(*low))
        .collect(heap)
}

// The number of states, and the text of each.
fn print_states(rt: &HostRuntime, list: &EventList, graph: &ImageGraph) -> anyhow::Result<()> {
    rt.print(states_text(rt.alloc(), graph)?)?;
    for text in texts_by_state(rt.alloc(), list, graph) {
        rt.print(text?)?;
    }
    Ok(())
}

// What these bytes are an image of, or nothing where they are refused; either is printed.
fn tried<T: Load>(rt: &HostRuntime, label: &str, bytes: Vec<u8>) -> anyhow::Result<Option<T>> {
    match T::load(bytes) {
        Ok(loaded) => {
            println!(rt; "{label} accepted")?;
            Ok(Some(loaded))
        }
        Err(back) => {
            let why = back.why;
            println!(rt; "{label} refused {why}")?;
            Ok(None)
        }
    }
}

// One line of the table. The list that is accepted last takes the place of `names`.
fn judge(rt: &HostRuntime, line: &str, names: &mut Option<EventList>) -> anyhow::Result<()> {
    let mut words = line.split(' ');
    let (Some(label), Some(task), Some(digits)) = (words.next(), words.next(), words.next()) else {
        return Err(anyhow!("a line has three words"));
    };
    let bytes = decoded(rt.alloc(), digits.as_bytes())?;
    match task {
        "events" => {
            if let Some(list) = tried::<EventList>(rt, label, bytes)? {
                rt.print(events_text(rt.alloc(), &list)?)?;
                *names = Some(list);
            }
            Ok(())
        }
        "graph" => {
            tried::<ImageGraph>(rt, label, bytes)?;
            Ok(())
        }
        "show" => match (tried::<ImageGraph>(rt, label, bytes)?, names.as_ref()) {
            (Some(graph), Some(list)) => print_states(rt, list, &graph),
            _ => Ok(()),
        },
        "sweep-events" => sweep::<EventList>(rt, label, bytes.as_slice()),
        "sweep-graph" => sweep::<ImageGraph>(rt, label, bytes.as_slice()),
        _ => Err(anyhow!("a task has no such word")),
    }
}

fn main(rt: HostRuntime) -> anyhow::Result<()> {
    let mut names: Option<EventList> = None;
    for line in BufReader::new(rt.alloc(), rt.stdin())?.lines(rt.alloc()) {
        judge(&rt, line?.as_str(), &mut names)?;
    }
    Ok(())
}
