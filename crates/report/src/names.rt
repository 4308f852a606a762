//! The text of an event list.
ghost use Rattle.std.specs.Prelude.{◌≡◌, ◌++◌, IfOk, string_bytes, OnOk};
ghost use Rattle.events.specs.Held.{names_in};
ghost use Rattle.name.specs.Held.{name_bytes};
ghost use Rattle.report.specs.Texts.{events_text, event_line};

use events::EventList;
use name::Name;
use std::alloc::{AllocError, Global};

/// `events N`, and `event I NAME` for each event.
pub fn events_text(heap: Global, events: &EventList) -> Result<String, AllocError>
    ensures { IfOk result (λ t. string_bytes t ≡ events_text (names_in events.now)) }
{
    let mut text = String::new(heap);
    write_events(&mut text, events)?;
    Ok(text)
}

// The text of an event list, behind what stands there.
fn write_events(text: &mut String, events: &EventList) -> Result<(), AllocError>
    ensures { OnOk result (string_bytes text.new ≡ string_bytes text.old ++ events_text (names_in events.now)) }
{
    let count = events.len();
    writeln!(text, "events {count}")?;
    for (i, name) in events.names().iter().enumerate() {
        write_event(text, i, name)?;
    }
    Ok(())
}

// The line of event i, which has this name, behind what stands there.
fn write_event(text: &mut String, i: usize, name: &Name) -> Result<(), AllocError>
    ensures { OnOk result (string_bytes text.new ≡ string_bytes text.old ++ event_line i (name_bytes name.now)) }
{
    writeln!(text, "event {i} {name}")
}
