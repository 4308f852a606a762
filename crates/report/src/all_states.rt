//! The texts of all states of a graph, one after another.
ghost use Rattle.std.specs.Prelude.{◌≡◌, length};
ghost use Rattle.std.specs.Iterator.{at_most};
ghost use Rattle.events.specs.Held.{names_in};
ghost use Rattle.report.specs.Texts.{NextText, texts_from};

use crate::states::state_text;
use events::EventList;
use graph::{Exits, Graph};
use std::alloc::{AllocError, Global};
use std::marker::Model;

/// The texts of the states that are left, in the order of their numbers. A contract sees the list of them.
#[derive(Drop)]
pub struct StateTexts<'a, G: Graph> {
    heap: Global,
    events: &'a EventList,
    graph: &'a G,
    exits: Exits,
    next: u16,
}

impl<'a, G: Graph> Model for StateTexts<'a, G> {
    ghost use Rattle.std.specs.Prelude.{List};
    ghost use Rattle.name.specs.Names.{Bytes};
    ghost use Rattle.events.specs.Held.{names_in};
    ghost use Rattle.report.specs.Texts.{texts_from};

    ghost Value = { List Bytes };

    ghost view = { λ texts. texts_from texts.next (names_in texts.events.now) (G.meaning texts.graph.now) (G.lines texts.graph.now) };
}

/// The text of each state of a graph, from state 0 on.
pub fn texts_by_state<'a, G: Graph>(
    heap: Global,
    events: &'a EventList,
    graph: &'a G,
) -> StateTexts<'a, G>
    ensures { result ≡ texts_from 0 (names_in events.now) (G.meaning graph.now) (G.lines graph.now) }
{
    StateTexts {
        heap,
        events,
        graph,
        exits: Exits::new(),
        next: 0,
    }
}

impl<'a, G: Graph> Iterator for StateTexts<'a, G> {
    type Item = Result<String, AllocError>;

    ghost next_gives = { NextText };

    ghost remaining = { λ texts. at_most (length texts) };

    fn next(&mut self) -> Option<Result<String, AllocError>> {
        if self.next >= self.graph.states() {
            return None;
        }
        let s = self.next;
        self.next += 1;
        Some(state_text(self.heap, self.events, self.graph, s, &mut self.exits))
    }
}
