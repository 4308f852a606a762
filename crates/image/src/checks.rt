//! The checks of an image, in their order.
ghost use Rattle.std.specs.Prelude.{◌≡◌, ℕ, ◌<◌, length};
ghost use Rattle.image.specs.Bytes.{byte_at, count_of, size_of};
ghost use Rattle.image.specs.Kinds.{LengthAllowed};
ghost use Rattle.image.specs.Images.{PartFormed, Valid, header_rules, place_rule, length_rule, part_rule, image_rules};
ghost use Rattle.image.specs.Inner.{Judged};

use crate::headed::{Headed, Laid, Span, pairs_of};
use crate::{Kind, pair_place};
use refusal::{Reason, Refusal};

impl<'a> Headed<'a> {
    // The header and the pairs of an image of this kind, if the bytes begin with them.
    fn read(bytes: &'a [u8], kind: Kind) -> Result<Headed<'a>, Refusal>
        ensures { Judged (λ headed. (headed.bytes.now ≡ bytes.now) × (headed.kind ≡ kind)) (header_rules kind bytes.now) result }
    {
        let [kind_low, kind_high, count_low, count_high, rest @ ..] = bytes else {
            return Err(Refusal::at(Reason::ImageShort, 0));
        };
        if u16::from_le_bytes([*kind_low, *kind_high]) != kind as u16 {
            return Err(Refusal::at(Reason::KindOther, 0));
        }
        let count = u16::from_le_bytes([*count_low, *count_high]);
        if !kind.allows_count(count) {
            return Err(Refusal::at(Reason::CountOutside, 2));
        }
        if rest.len() < 8 * usize::from(count) {
            return Err(Refusal::at(Reason::PairsCut, bytes.len()));
        }
        let pairs = pairs_of(bytes, count);
        Ok(Headed { bytes, kind, pairs })
    }

    // Each part begins at or after the end of the one before, and ends inside the image.
    fn lay_out(&self) -> Result<Laid<'a>, Refusal>
        ensures { Judged (λ laid. laid.headed ≡ self.now) (place_rule self.now.bytes.now) result }
    {
        let mut end = pair_place(self.count());
        for (i, pair) in self.pairs.iter().enumerate() {
            let Span { offset, size } = Span::read(pair);
            if offset < end || offset + size > self.bytes.len() {
                return Err(Refusal::at(Reason::PairMisplaced, pair_place(i as u16)));
            }
            end = offset + size;
        }
        Ok(Laid { headed: *self })
    }

    // Each part has a length that the kind allows.
    fn check_lengths(&self) -> Result<(), Refusal>
        ensures { Judged (λ _. (i : ℕ) → i < length self.now.pairs.now → LengthAllowed self.now.kind (size_of self.now.bytes.now i)) (length_rule self.now.kind self.now.bytes.now) result }
    {
        for (i, pair) in self.pairs.iter().enumerate() {
            if !self.kind.allows_length(Span::read(pair).size) {
                return Err(Refusal::at(Reason::LengthWrong, pair_place(i as u16)));
            }
        }
        Ok(())
    }
}

impl Laid<'_> {
    // All that stands in the parts is well formed.
    fn check_parts(&self) -> Result<(), Refusal>
        ensures { Judged (λ _. (i : ℕ) → i < length self.now.headed.pairs.now → PartFormed self.now.headed.kind self.now.headed.bytes.now i) (part_rule self.now.headed.kind self.now.headed.bytes.now) result }
    {
        let headed = self.headed;
        for (i, pair) in headed.pairs.iter().enumerate() {
            if let Some(k) = headed.kind.first_ill_formed(self.part(i), headed.count()) {
                return Err(Refusal::at(Reason::PartIllFormed, Span::read(pair).offset + k));
            }
        }
        Ok(())
    }
}

// The number of parts of a valid image.
pub(crate) fn check(bytes: &[u8], kind: Kind) -> Result<u16, Refusal>
    ensures judged { Judged (λ n. (n ≡ count_of bytes.now) × Valid kind bytes.now) (image_rules kind bytes.now) result }
    ensures octets { (i : ℕ) → byte_at bytes.now i < 256 }
{
    let headed = Headed::read(bytes, kind)?;
    let laid = headed.lay_out()?;
    headed.check_lengths()?;
    laid.check_parts()?;
    Ok(headed.count())
}
