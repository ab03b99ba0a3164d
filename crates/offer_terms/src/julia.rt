//! Julia's identifier.
ghost use Rattle.std.specs.Prelude.{◌≡◌};
ghost use Rattle.package_tables.specs.Row.{julia_id};

use uuid::Uuid;

/// Julia's own identifier, by which compat on `julia` stands among an offer's compat. Takes no memory.
pub fn julia_uuid() -> Uuid
    ensures { result ≡ julia_id }
{
    Uuid::from_bytes([
        0x12, 0x22, 0xc4, 0xb2, 0x21, 0x14, 0x5b, 0xfd, 0xae, 0xef, 0x88, 0xe4, 0x69, 0x2b, 0xbb,
        0x3e,
    ])
}
