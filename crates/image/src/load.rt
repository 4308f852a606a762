//! What is loaded from an image.
ghost use Rattle.std.specs.Prelude.{Ok, Err, Result};
ghost use Rattle.refusal.specs.Rules.{Rules, Kept};
ghost use Rattle.name.specs.Names.{Bytes};
ghost use Rattle.image.specs.Images.{Valid};
ghost use Rattle.image.specs.Opened.{Refused};
ghost use Rattle.image.specs.declared.Kind.{Kind};
ghost use Rattle.image.specs.declared.Rejected.{Rejected};

use crate::{Kind, Rejected};

/// What is made of the bytes of an image that keep its rules; others come back as they were, refused by the first rule that they break.
pub trait Load: Drop {
    ghost KIND: { Kind };

    // the rules of its images, in the order of checking
    ghost rules: { Bytes → Rules };

    // what loading these bytes may answer
    ghost loads: { Bytes → Result Self Rejected → Type 0 };

    /// The kind of its images.
    const KIND: Kind;

    /// What the bytes are an image of, or the bytes back with the first rule that they break.
    fn load(bytes: Vec<u8>) -> Result<Self, Rejected>
        ensures { loads bytes.items result };

    ghost accepts: { (bs : Bytes) (loaded : Self) → loads bs (Ok loaded) → Valid KIND bs };

    ghost keeps: { (bs : Bytes) (loaded : Self) → loads bs (Ok loaded) → Kept (rules bs) };

    ghost refuses: { (bs : Bytes) (back : Rejected) → loads bs (Err back) → Refused (rules bs) bs back };
}
