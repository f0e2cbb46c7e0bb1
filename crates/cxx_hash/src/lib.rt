//! Hashing whose outcome cannot be chosen: the key is made of the bytes that are read, so whoever picks names that
//! collide under one key changes the key by writing them.
#![tactic(auto)]

ghost use Rattle.std.specs.Prelude.{◌≡◌};
ghost use Rattle.cxx_hash.specs.Hashing.{start_of, keyed_by};

use std::hash::{BuildHasher, DefaultHasher, Hasher};

/// A key for SipHash-1-3, as a builder of hashers: each is one that has read the key.
#[derive(Clone, Copy)]
pub struct Key {
    start: DefaultHasher,
}

impl Key {
    /// The key that is made of some bytes, in time linear in their count.
    pub fn of(bytes: &[u8]) -> Key
        ensures { start_of result ≡ keyed_by bytes.now }
    {
        let mut read = DefaultHasher::new();
        read.write(bytes);
        let first = read.finish();
        read.write_u8(0);
        let second = read.finish();
        let mut start = DefaultHasher::new();
        start.write_u64(first);
        start.write_u64(second);
        Key { start }
    }
}

impl BuildHasher for Key {
    type Hasher = DefaultHasher;

    ghost build_hasher = { start_of };

    fn build_hasher(&self) -> DefaultHasher {
        self.start
    }
}
