//! An image whose bytes are valid.
ghost use Rattle.std.specs.Prelude.{◌≡◌, ℕ, ◌<◌};
ghost use Rattle.image.specs.Bytes.{byte_at, count_of};
ghost use Rattle.image.specs.Images.{Valid};

use crate::Kind;

/// An image that keeps the rules of its kind up to those of its parts. It owns its bytes.
#[derive(Drop)]
pub struct Image {
    pub(crate) bytes: Vec<u8>,
    pub(crate) kind: Kind,
    pub(crate) count: u16,
    ghost counted: { count ≡ count_of bytes.items },
    ghost octets: { ((i : ℕ) → byte_at bytes.items i < 256) },
    ghost valid: { ∥ Valid kind bytes.items ∥₁ },
}
