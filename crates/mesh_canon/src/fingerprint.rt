//! The fingerprint of a text. Its contract: it is the SHA-256 digest of the text, as FIPS 180-4 defines it.

ghost use Rattle.std.specs.Prelude.{◌≡◌, Ok};
ghost use Rattle.sha2.specs.Sha256.{sha256};

use mesh_list::Memory;
use sha2::{Digest, Sha256};

/// The SHA-256 digest of a text (FIPS 180-4). `Memory` is there for digests that need some; this one never gives it.
pub fn fingerprint(text: &[u8]) -> Result<[u8; 32], Memory>
    ensures { result ≡ Ok (sha256 text.now) }
{
    Ok(Sha256::digest(text))
}
