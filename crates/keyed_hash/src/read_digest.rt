ghost use Rattle.std.specs.Prelude.{◌≡◌, ◌++◌, ◌∷◌, [], List, ℕ};
ghost use Rattle.std.specs.Int.{w64, to_le_bytes};
ghost use Rattle.sha2.specs.Sha256.{sha256};
ghost use Rattle.keyed_hash.specs.Keys.{HasRead, keyed_by, text_end};

use crate::keyed::Keyed;
use sha2::{Digest, Sha256};

/// The byte behind each text. No text has it.
const TEXT_END: [u8; 1] = [0xFF];

/// The digest of what was read so far.
#[derive(Drop)]
pub struct ReadDigest {
    state: Sha256,
}

impl ReadDigest {
    /// The digest of nothing.
    pub fn new() -> ReadDigest
        ensures { HasRead result [] }
    {
        ReadDigest {
            state: Sha256::new(),
        }
    }

    /// The digest that goes on from what a key is of.
    pub fn after(key: &Keyed) -> ReadDigest
        ensures { HasRead result key.now.digest }
    {
        ReadDigest {
            state: Sha256::new_with_prefix(key.digest().as_slice()),
        }
    }

    /// Takes in a text.
    pub fn add_text(&mut self, text: &str)
        ensures { (bytes : List ℕ) → HasRead self.old bytes → HasRead self.new ((bytes ++ text.now) ++ text_end) }
    {
        self.state.update(text.as_bytes());
        self.state.update(TEXT_END.as_slice());
    }

    /// Takes in a number.
    pub fn add_number(&mut self, number: u64)
        ensures { (bytes : List ℕ) → HasRead self.old bytes → HasRead self.new (bytes ++ to_le_bytes w64 number) }
    {
        let number = number.to_le_bytes();
        self.state.update(number.as_slice());
    }

    /// The key of all that was taken in.
    pub fn key(self) -> Keyed
        ensures { (bytes : List ℕ) → HasRead self bytes → result ≡ keyed_by (sha256 bytes) }
    {
        Keyed::new(self.state.finalize())
    }
}
