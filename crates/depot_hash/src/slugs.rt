//! The folder names of installed trees.
ghost use Rattle.std.specs.Prelude.{◌≡◌, ◌<◌};
ghost use Rattle.std.specs.Str.{IsAscii};
ghost use Rattle.depot_hash.specs.Slugs as spec;

use crate::checksum::crc32c;
use pkg_world::TreeId;
use uuid::Uuid;

/// The folder name of a package's installed tree: the five letters of the CRC-32C over the 16 bytes of the identifier's
/// number, the least first, and then the tree's 20 bytes. It takes no memory. The rule is this project's own, after
/// Julia's loader.
pub fn slug(uuid: &Uuid, tree: &TreeId) -> [u8; 5]
    ensures text { result ≡ spec.slug_of 5 uuid.now tree.now }
    ensures ascii { IsAscii result }
{
    slug_text(slug_number(uuid, tree))
}

/// The first four letters of the slug, the older form of the folder name. It takes no memory.
pub fn slug4(uuid: &Uuid, tree: &TreeId) -> [u8; 4]
    ensures text { result ≡ spec.slug_of 4 uuid.now tree.now }
    ensures ascii { IsAscii result }
{
    first_four(slug_number(uuid, tree))
}

fn slug_number(uuid: &Uuid, tree: &TreeId) -> u32
    ensures { result ≡ spec.slug_number uuid.now tree.now }
{
    let mut number = uuid.into_bytes();
    number.reverse();
    crc32c(crc32c(0, &number), tree.bytes())
}

/// The five letters of a number: the remainders of its division by 62 again and again, in that order, as letters of
/// A to Z, a to z, 0 to 9. It takes no memory.
pub fn slug_text(number: u32) -> [u8; 5]
    ensures text { result ≡ spec.letters 5 number }
    ensures ascii { IsAscii result }
{
    [
        letter(number % 62),
        letter(number / 62 % 62),
        letter(number / 62 / 62 % 62),
        letter(number / 62 / 62 / 62 % 62),
        letter(number / 62 / 62 / 62 / 62 % 62),
    ]
}

fn first_four(number: u32) -> [u8; 4]
    ensures text { result ≡ spec.letters 4 number }
    ensures ascii { IsAscii result }
{
    let [first, second, third, fourth, _] = slug_text(number);
    [first, second, third, fourth]
}

fn letter(remainder: u32) -> u8
    requires { remainder < 62 }
    ensures letter { result ≡ spec.letter remainder }
    ensures ascii { result < 128 }
{
    let small = remainder as u8;
    if small < 26 {
        b'A' + small
    } else if small < 52 {
        b'a' + (small - 26)
    } else {
        b'0' + (small - 52)
    }
}
