//! Opening an image, and reading its parts.
ghost use Rattle.std.specs.Prelude.{◌≡◌, if◌then◌else◌, Some, None, nat_lt};
ghost use Rattle.std.specs.Option.{option_map};
ghost use Rattle.image.specs.Bytes.{count_of, part_of};
ghost use Rattle.image.specs.Opened.{image_bytes, Opened};

use crate::checks::check;
use crate::headed::{Headed, Laid, pairs_of};
use crate::held::Image;
use crate::{Kind, Rejected};

impl Image {
    /// The image of this kind that the bytes are, or the bytes back with the first rule that they break.
    pub fn open(bytes: Vec<u8>, kind: Kind) -> Result<Image, Rejected>
        ensures { Opened kind bytes.items result }
    {
        match check(bytes.as_slice(), kind) {
            Ok(count) => Ok(Image { bytes, kind, count }),
            Err(why) => Err(Rejected { why, bytes }),
        }
    }

    /// How many parts there are.
    pub fn count(&self) -> u16
        ensures { result ≡ count_of (image_bytes self.now) }
    {
        self.count
    }

    /// Part i, or none where there are i or fewer.
    pub fn part(&self, i: u16) -> Option<&[u8]>
        ensures { option_map (λ x. x.now) result ≡ (if nat_lt i (count_of (image_bytes self.now)) then Some (part_of (image_bytes self.now) i) else None) }
    {
        if i >= self.count {
            return None;
        }
        Some(self.laid().part(usize::from(i)))
    }

    // Its bytes, with their header and pairs, laid out.
    fn laid(&self) -> Laid<'_>
        ensures { result.headed.bytes.now ≡ image_bytes self.now }
    {
        let bytes = self.bytes.as_slice();
        let headed = Headed {
            bytes,
            kind: self.kind,
            pairs: pairs_of(bytes, self.count),
        };
        Laid { headed }
    }

    /// Its bytes; the image ends.
    pub fn into_bytes(self) -> Vec<u8>
        ensures { result ≡ self.bytes }
    {
        self.bytes
    }
}
