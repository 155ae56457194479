//! The flags of an object.

ghost use Rattle.std.specs.Prelude.{◌≡◌};
ghost use Rattle.ig_value.specs.Objects as objects;

/// Of the flags in an object's header, those that belong to the object: flag 1, of a user type, and
/// those from 64 up. The others say how it is encoded.
pub fn kept_flags(flags: u16) -> u16
    ensures { result ≡ objects.kept_flags flags }
{
    flags / 64 * 64 + flags % 2
}
