//! Bytes with the header and the pairs of an image.
ghost use Rattle.std.specs.Prelude.{◌≡◌, ℕ, ◌^◌, ◌<◌, ◌≤◌, length};
ghost use Rattle.image.specs.Bytes.{kind_of, count_of, pair_at, part_of};
ghost use Rattle.image.specs.Kinds.{kind_number, CountAllowed};
ghost use Rattle.image.specs.Images.{Placed};
ghost use Rattle.image.specs.Inner.{offset_in, size_in, Spelled};

use crate::Kind;

// Bytes with the header of this kind, and all the pairs that it counts.
#[derive(Clone, Copy)]
pub(crate) struct Headed<'a> {
    pub(crate) bytes: &'a [u8],
    pub(crate) kind: Kind,
    pub(crate) pairs: &'a [[[u8; 4]; 2]],
    ghost known: { kind_of bytes.now ≡ kind_number kind },
    ghost counted: { length pairs.now ≡ count_of bytes.now },
    ghost allowed: { ∥ CountAllowed kind (length pairs.now) ∥₁ },
    ghost paired: { pair_at (length pairs.now) ≤ length bytes.now },
    ghost spelled: { Spelled bytes.now pairs.now },
}

impl<'a> Headed<'a> {
    // How many pairs there are.
    pub(crate) fn count(&self) -> u16
        ensures { result ≡ length self.now.pairs.now }
    {
        self.pairs.len() as u16
    }
}

// The first pairs behind the header, so many.
pub(crate) fn pairs_of(bytes: &[u8], count: u16) -> &[[[u8; 4]; 2]]
    requires { pair_at count ≤ length bytes.now }
    ensures many { length result.now ≡ count }
    ensures spelled { Spelled bytes.now result.now }
{
    let (numbers, _) = bytes[4..].as_chunks::<4>();
    let (pairs, _) = numbers.as_chunks::<2>();
    &pairs[..usize::from(count)]
}

// Where a part begins, and how long it is: numbers of 32 bits.
#[derive(Clone, Copy)]
pub(crate) struct Span {
    pub(crate) offset: usize,
    pub(crate) size: usize,
    ghost offset_fits: { offset < 2 ^ 32 },
    ghost size_fits: { size < 2 ^ 32 },
}

impl Span {
    // What a pair says.
    pub(crate) fn read(pair: &[[u8; 4]; 2]) -> Span
        ensures offset { result.offset ≡ offset_in pair.now }
        ensures size { result.size ≡ size_in pair.now }
    {
        let [offset, size] = pair;
        Span {
            offset: u32::from_le_bytes(*offset) as usize,
            size: u32::from_le_bytes(*size) as usize,
        }
    }
}

// Bytes with a header and pairs, whose parts lie in order and inside.
#[derive(Clone, Copy)]
pub(crate) struct Laid<'a> {
    pub(crate) headed: Headed<'a>,
    ghost placed: { ((i : ℕ) → i < length headed.pairs.now → Placed headed.bytes.now i) },
}

impl<'a> Laid<'a> {
    // The bytes of part i.
    pub(crate) fn part(&self, i: usize) -> &'a [u8]
        requires { i < length self.now.headed.pairs.now }
        ensures { result.now ≡ part_of self.now.headed.bytes.now i }
    {
        let Span { offset, size } = Span::read(&self.headed.pairs[i]);
        &self.headed.bytes[offset..offset + size]
    }
}
