//! Hash maps whose seed is a digest of what was read.
//!
//! Whoever writes the keys of a map can make keys that hash alike by the hundred thousand, if he knows the seed, and each of them is
//! then looked for among all others. So the seed is not known before they are written: it is the SHA-256 digest of all that is read,
//! and who writes one key otherwise has another seed. The hash is SipHash-1-3 behind that digest. Nothing is random: the same files
//! give the same seed.
//!
//! This holds where a digest takes in all that decides the keys. Texts and numbers go in so that no two different lists of them are
//! the same bytes, where it is known from those before whether a text or a number comes next.
#![tactic(auto)]

mod keyed;
mod read_digest;

pub use keyed::Keyed;
pub use read_digest::ReadDigest;

#[cfg(test)]
mod tests {
    use super::*;
    use std::hash::BuildHasher;
    use std::test::Fail;

    fn hash_behind(texts: &[&str], numbers: &[u64]) -> u64 {
        let mut digest = ReadDigest::new();
        for text in texts {
            digest.add_text(text);
        }
        for number in numbers {
            digest.add_number(*number);
        }
        digest.key().hash_one(7u64)
    }

    #[test]
    fn other_texts_give_other_hashes(rt: HostRuntime) -> Result<(), Fail> {
        let first = hash_behind(&["ab", "c"], &[1]);
        assert_eq!(rt; hash_behind(&["ab", "c"], &[1]), first);
        assert!(rt; hash_behind(&["a", "bc"], &[1]) != first);
        assert!(rt; hash_behind(&["ab"], &[1]) != first);
        assert!(rt; hash_behind(&["ab", "c"], &[]) != first);
        assert!(rt; hash_behind(&["ab", "c"], &[2]) != first);
        Ok(())
    }

    #[test]
    fn a_digest_goes_on_from_a_key(rt: HostRuntime) -> Result<(), Fail> {
        let one = ReadDigest::new().key();
        let mut other = ReadDigest::new();
        other.add_number(1);
        let other = other.key();
        let first = ReadDigest::after(&one).key().hash_one(7u64);
        assert!(rt; ReadDigest::after(&other).key().hash_one(7u64) != first);
        assert!(rt; one.hash_one(7u64) != first);
        Ok(())
    }
}
