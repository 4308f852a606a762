//! `inspect EVENTS GRAPH` prints the events and the states of a controller build, from its two images.
#![tactic(auto)]

use anyhow::anyhow;
use events::EventList;
use image::Load;
use image_graph::ImageGraph;
use report::{events_text, refused_text, states_text, texts_by_state};
use std::process::ExitCode;
use std::{env, fs, io};
use thiserror::Error;

// Why nothing, or not all, is printed.
#[derive(Debug, Drop, Error)]
enum Fault {
    #[error("cannot read {0}: {1}")]
    Unreadable(String, io::Error),
    #[error("{0}")]
    Other(#[from] anyhow::Error),
}

// The paths of the two images.
#[derive(Drop)]
struct Paths {
    events: String,
    graph: String,
}

// The two words behind the program's name.
fn two_paths(rt: &HostRuntime) -> anyhow::Result<Paths> {
    let mut words = env::args(rt)?;
    let (_, events, graph, more) = (words.next(), words.next(), words.next(), words.next());
    match (events, graph, more) {
        (Some(events), Some(graph), None) => Ok(Paths { events, graph }),
        _ => Err(anyhow!("usage: inspect EVENTS GRAPH")),
    }
}

// The bytes of a file.
fn read(rt: &HostRuntime, path: String) -> Result<Vec<u8>, Fault> {
    fs::read(rt, path.as_str()).map_err(|why| Fault::Unreadable(path, why))
}

// What these bytes are an image of. Where they are refused, the line that says so ends the output.
fn load<T: Load>(rt: &HostRuntime, bytes: Vec<u8>) -> anyhow::Result<Option<T>> {
    match T::load(bytes) {
        Ok(loaded) => Ok(Some(loaded)),
        Err(back) => {
            rt.print(refused_text(rt.alloc(), T::KIND, back.why)?)?;
            Ok(None)
        }
    }
}

// The events and the states of a build, from the bytes of its two images.
fn print_build(rt: &HostRuntime, event_bytes: Vec<u8>, graph_bytes: Vec<u8>) -> anyhow::Result<()> {
    let Some(events) = load::<EventList>(rt, event_bytes)? else {
        return Ok(());
    };
    rt.print(events_text(rt.alloc(), &events)?)?;
    let Some(graph) = load::<ImageGraph>(rt, graph_bytes)? else {
        return Ok(());
    };
    rt.print(states_text(rt.alloc(), &graph)?)?;
    for text in texts_by_state(rt.alloc(), &events, &graph) {
        rt.print(text?)?;
    }
    Ok(())
}

fn inspect(rt: &HostRuntime) -> Result<(), Fault> {
    let Paths { events, graph } = two_paths(rt)?;
    let event_bytes = read(rt, events)?;
    let graph_bytes = read(rt, graph)?;
    print_build(rt, event_bytes, graph_bytes)?;
    Ok(())
}

fn main(rt: HostRuntime) -> ExitCode {
    match inspect(&rt) {
        Ok(()) => ExitCode::SUCCESS,
        Err(why) => {
            let _ = eprintln!(rt; "inspect: {why}");
            ExitCode::FAILURE
        }
    }
}
