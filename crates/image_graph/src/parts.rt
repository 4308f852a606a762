//! What stands in the part of a state.
ghost use Rattle.std.specs.Prelude.{◌≡◌, [], ◌<◌, ◌≤◌, length};
ghost use Rattle.std.specs.List.{slice_get};
ghost use Rattle.graph.specs.Buffers.{exits_in};
ghost use Rattle.image.specs.Bytes.{number32};
ghost use Rattle.image_graph.specs.Parts.{source_line};
ghost use Rattle.image_graph.specs.Inner.{piece_exit, exits_read, ReadFrom};

use graph::{Exit, Exits};

// The part of an open state: its line, and its exits.
#[derive(Clone, Copy)]
pub(crate) struct OpenPart<'a> {
    pub(crate) line: &'a [u8; 4],
    pub(crate) exits: &'a [[u8; 4]],
}

// The exit that four bytes spell.
fn read_exit(piece: &[u8; 4]) -> Exit
    ensures { result ≡ piece_exit piece.now }
{
    let [event, _, low, high] = piece;
    Exit {
        event: *event,
        target: u16::from_le_bytes([*low, *high]),
    }
}

impl<'a> OpenPart<'a> {
    // The line and the exits of a part, unless it has no line.
    pub(crate) fn read(part: &'a [u8]) -> Option<OpenPart<'a>>
        ensures { ReadFrom part.now result }
    {
        let (line, rest) = part.split_first_chunk()?;
        let (exits, _) = rest.as_chunks();
        Some(OpenPart { line, exits })
    }

    // The line.
    fn source_line(&self) -> u32
        ensures { result ≡ number32 self.now.line.now 0 }
    {
        u32::from_le_bytes(*self.line)
    }

    // Exit k, or none where there are k or fewer.
    pub(crate) fn exit(&self, k: u16) -> Option<Exit>
        ensures { result ≡ slice_get (exits_read self.now) k }
    {
        self.exits.get(usize::from(k)).map(read_exit)
    }

    // All exits, into a buffer that holds none.
    pub(crate) fn push_exits(&self, out: &mut Exits)
        requires few { length (exits_read self.now) ≤ 1024 }
        requires cleared { exits_in out.old ≡ [] }
        ensures { exits_in out.new ≡ exits_read self.now }
    {
        for piece in self.exits {
            out.push(read_exit(piece));
        }
    }
}

// The line of a state's part; an empty part has line 0.
pub(crate) fn read_line(part: &[u8]) -> u32
    requires { 0 < length part.now → 4 ≤ length part.now }
    ensures { result ≡ source_line part.now }
{
    match OpenPart::read(part) {
        Some(open) => open.source_line(),
        None => 0,
    }
}
