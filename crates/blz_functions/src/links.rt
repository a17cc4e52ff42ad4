//! Where the references of a unit lead.
ghost use Rattle.std.specs.Prelude.{◌≡◌};
ghost use Rattle.blz_model.specs.Part.{Gives};
ghost use Rattle.blz_info.specs.Marks.{or_invalid};
ghost use Rattle.blz_functions.specs.Describing.{Refer};

use blz_bytes::Room;
use blz_entry::{AttrValue, StrPlace};
use blz_error::Result;

/// The references of a unit.
pub trait Links {
    /// The units that they lead among.
    ghost Among: { Type 0 };

    ghost linkage: { Self → Among };

    /// The name that a value of the unit leads to.
    ghost refer: { Among → Refer };

    /// The name that a value of the unit leads to; InvalidDwarf exactly where it leads nowhere.
    fn follow(&mut self, room: &mut Room, value: AttrValue) -> Result<Option<StrPlace>>
        ensures name { Gives (λ n. n) result (or_invalid (refer (linkage self.old) value)) }
        ensures same { linkage self.new ≡ linkage self.old };
}
