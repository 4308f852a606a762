//! The texts of a graph's states.
ghost use Rattle.std.specs.Prelude.{◌≡◌, ◌++◌, IfOk, string_bytes, OnOk};
ghost use Rattle.events.specs.Held.{names_in};
ghost use Rattle.graph.specs.Answers.{exits_of};
ghost use Rattle.graph.specs.Buffers.{exits_in};
ghost use Rattle.report.specs.Texts.{states_text, state_text, open_text, closed_line, exit_line, exit_lines};

use events::EventList;
use graph::{Exit, Exits, Graph};
use std::alloc::{AllocError, Global};

/// `states N`.
pub fn states_text<G: Graph>(heap: Global, graph: &G) -> Result<String, AllocError>
    ensures { IfOk result (λ t. string_bytes t ≡ states_text (G.meaning graph.now)) }
{
    let states = graph.states();
    format!(in heap; "states {states}\n")
}

/// `state S line L exits K` and `exit EVENT NAME TARGET` for each exit, or `state S closed CAUSE DEPTH`.
///
/// A state that is not below the number of states has the empty text. `exits` takes in the exits of the state, also where memory fails.
pub fn state_text<G: Graph>(
    heap: Global,
    events: &EventList,
    graph: &G,
    s: u16,
    exits: &mut Exits,
) -> Result<String, AllocError>
    ensures text { IfOk result (λ t. string_bytes t ≡ state_text (names_in events.now) (G.meaning graph.now) (G.lines graph.now) s) }
    ensures exits { exits_in exits.new ≡ exits_of (G.meaning graph.now) s }
{
    let answer = graph.exits(s, exits);
    // Only a state that is not below the number of states has no line.
    let Ok(line) = graph.line(s) else {
        return Ok(String::new(heap));
    };
    match answer {
        Ok(()) => open_text(heap, events, s, line, exits.as_slice()),
        Err(why) => closed_text(heap, s, why.reason.number(), why.depth),
    }
}

// The text of an open state.
fn open_text(
    heap: Global,
    events: &EventList,
    s: u16,
    line: u32,
    exits: &[Exit],
) -> Result<String, AllocError>
    ensures { IfOk result (λ t. string_bytes t ≡ open_text (names_in events.now) s line exits.now) }
{
    let count = exits.len();
    let mut text = format!(in heap; "state {s} line {line} exits {count}\n")?;
    write_exits(&mut text, events, exits)?;
    Ok(text)
}

// The text of a state that is closed by the cause of this number.
fn closed_text(heap: Global, s: u16, number: u8, depth: u8) -> Result<String, AllocError>
    ensures { IfOk result (λ t. string_bytes t ≡ closed_line s number depth) }
{
    format!(in heap; "state {s} closed {number} {depth}\n")
}

// The lines of these exits, behind what stands there.
fn write_exits(text: &mut String, events: &EventList, exits: &[Exit]) -> Result<(), AllocError>
    ensures { OnOk result (string_bytes text.new ≡ string_bytes text.old ++ exit_lines (names_in events.now) exits.now) }
{
    for exit in exits {
        write_exit(text, events, *exit)?;
    }
    Ok(())
}

// The line of this exit, behind what stands there.
fn write_exit(text: &mut String, events: &EventList, exit: Exit) -> Result<(), AllocError>
    ensures { OnOk result (string_bytes text.new ≡ string_bytes text.old ++ exit_line (names_in events.now) exit) }
{
    let Exit { event, target } = exit;
    match events.name(event) {
        Some(name) => writeln!(text, "exit {event} {name} {target}"),
        None => writeln!(text, "exit {event} - {target}"),
    }
}
