//! Git's ids of files' bytes and of trees.
ghost use Rattle.std.specs.Prelude.{◌≡◌};
ghost use Rattle.depot_hash.specs.Blobs as spec;

use itoa::Buffer;
use pkg_world::TreeId;
use sha1::Sha1;

/// Git's id of a file's bytes: the SHA-1 of `blob `, their number in decimal, a zero byte and the bytes. It takes no
/// memory. (Git's object format; SHA-1 as in FIPS 180-4.)
pub fn blob_id(bytes: &[u8]) -> TreeId
    ensures { result ≡ spec.blob_id bytes.now }
{
    object_id("blob", bytes)
}

/// The id of an object of that kind. The bytes are hashed where they stand.
pub(crate) fn object_id(kind: &str, bytes: &[u8]) -> TreeId
    ensures { result ≡ spec.object_id kind.now bytes.now }
{
    let mut buffer = Buffer::new();
    let mut hasher = Sha1::new();
    hasher.update(kind.as_bytes());
    hasher.update(b" ");
    hasher.update(buffer.format(bytes.len()).as_bytes());
    hasher.update(&[0]);
    hasher.update(bytes);
    TreeId::of(hasher.finalize())
}
