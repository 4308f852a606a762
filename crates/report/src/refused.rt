//! The text of a refusal.
ghost use Rattle.std.specs.Prelude.{◌≡◌, IfOk, string_bytes};
ghost use Rattle.report.specs.Texts.{refused_text};

use image::Kind;
use refusal::Refusal;
use std::alloc::{AllocError, Global};

/// `refused events NUMBER PLACE`, or the same of a graph.
pub fn refused_text(heap: Global, kind: Kind, why: Refusal) -> Result<String, AllocError>
    ensures { IfOk result (λ t. string_bytes t ≡ refused_text kind why) }
{
    let number = why.reason.number();
    let place = why.place;
    format!(in heap; "refused {kind} {number} {place}\n")
}
