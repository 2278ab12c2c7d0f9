ghost use Rattle.std.specs.Prelude.{◌≡◌};
ghost use Rattle.keyed_hash.specs.Keys.{begun_hasher, keyed_by};

use std::hash::{BuildHasher, DefaultHasher, Hasher};

/// What a map hashes by: SipHash-1-3 behind a digest of what was read.
#[derive(Clone, Copy)]
pub struct Keyed {
    digest: [u8; 32],
    begun: DefaultHasher,
}

impl Keyed {
    /// The key of a digest.
    pub(crate) fn new(digest: [u8; 32]) -> Keyed
        ensures { result ≡ keyed_by digest }
    {
        let mut begun = DefaultHasher::new();
        begun.write(digest.as_slice());
        Keyed { digest, begun }
    }

    /// The digest that the key is of.
    pub(crate) fn digest(&self) -> &[u8; 32]
        ensures { result.now ≡ self.now.digest }
    {
        &self.digest
    }
}

impl BuildHasher for Keyed {
    type Hasher = DefaultHasher;

    ghost build_hasher = { begun_hasher };

    fn build_hasher(&self) -> DefaultHasher {
        self.begun
    }
}
