// SHA-256 (FIPS 180-4) of a byte slice: the kit's, proved equal to the definition in specs/Sha256.antt.
#![tactic(auto)]

ghost use Rattle.std.specs.Prelude.{◌≡◌};
ghost use Rattle.sha256.specs.Sha256.{sha256};

use sha2::{Digest, Sha256};

pub fn sha256(bytes: &[u8]) -> [u8; 32]
    ensures { result ≡ sha256 bytes.now }
{
    Sha256::digest(bytes)
}
