//! A name, held in place.
ghost use Rattle.std.specs.Prelude.{◌≡◌, ℕ, ◌<◌, true, length, slice_index};
ghost use Rattle.name.specs.Names.{in_name, NameLength};

use crate::LONGEST;

/// A small letter followed by small letters, digits or underscores, 1 to 16 bytes: the first `size` of the bytes.
#[derive(Clone, Copy)]
pub struct Name {
    pub(crate) bytes: [u8; LONGEST],
    pub(crate) size: usize,
    ghost whole: { length bytes ≡ 16 },
    ghost sized: { NameLength size },
    ghost spelled: { ((k : ℕ) → k < size → in_name k (slice_index bytes k) ≡ true) },
}
