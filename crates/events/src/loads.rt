//! Loading an event list from an image.
ghost use Rattle.std.specs.Prelude.{◌≡◌, ◌<◌};
ghost use Rattle.name.specs.Held.{name_bytes};
ghost use Rattle.image.specs.Bytes.{count_of, part_of};
ghost use Rattle.image.specs.Opened.{image_bytes};
ghost use Rattle.image.specs.declared.Kind.TheVariants.{Events};
ghost use Rattle.events.specs.Images.{event_rules, Loaded};
ghost use Rattle.events.specs.Inner.{Gathered};

use crate::EventList;
use crate::held::MOST;
use crate::reads::position;
use image::{Image, Kind, Load, Rejected, pair_place};
use name::Name;
use refusal::{Reason, Refusal};

impl EventList {
    /// The event list that the bytes are an image of, or the bytes back with the first rule that they break.
    pub fn load(bytes: Vec<u8>) -> Result<EventList, Rejected>
        ensures { Loaded bytes.items result }
    {
        let image = Image::open(bytes, Kind::Events)?;
        match gather(&image) {
            Ok(list) => Ok(list),
            Err(why) => Err(Rejected {
                why,
                bytes: image.into_bytes(),
            }),
        }
    }
}

impl Load for EventList {
    ghost KIND = { Events };

    ghost rules = { event_rules };

    ghost loads = { Loaded };

    ghost accepts = { λ bs list loaded. loaded.spelled.valid };

    ghost keeps = { λ bs list loaded. loaded.kept };

    ghost refuses = { λ bs back refused. refused.refused };

    const KIND: Kind = Kind::Events;

    fn load(bytes: Vec<u8>) -> Result<EventList, Rejected> {
        EventList::load(bytes)
    }
}

// Name i of an image.
fn name_of(image: &Image, i: u16) -> Name
    requires events { image.now.kind ≡ Events }
    requires within { i < count_of (image_bytes image.now) }
    ensures { name_bytes result ≡ part_of (image_bytes image.now) i }
{
    Name::try_from(image.part(i).unwrap()).unwrap()
}

// The names of an image, unless one is repeated.
fn gather(image: &Image) -> Result<EventList, Refusal>
    requires { image.now.kind ≡ Events }
    ensures { Gathered (image_bytes image.now) result }
{
    let mut entries = [Name::default(); MOST];
    for i in 0..image.count() {
        let name = name_of(image, i);
        if position(&entries[..usize::from(i)], name.as_bytes()).is_some() {
            return Err(Refusal::at(Reason::NameRepeated, pair_place(i)));
        }
        entries[usize::from(i)] = name;
    }
    let count = usize::from(image.count());
    Ok(EventList { entries, count })
}
