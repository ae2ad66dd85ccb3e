//! What the keys of maps and the names of contexts are hashed by.
ghost use Rattle.std.specs.Prelude.{◌≡◌, ◌<◌, length};
ghost use Rattle.tera_values.specs.Hashing.{round, take_word, last_word, write, finish};
ghost use Rattle.tera_values.specs.Hashing.{first_hasher};

use std::hash::{BuildHasher, Hasher};
use std::random::RandomSource;

/// What the hashes of keys and of names go by, in the place of `indexmap`'s type parameter. No
/// answer, order or text hangs on it, but how long a look-up takes does: whoever knows the state
/// can make keys that collide.
#[derive(Clone, Copy)]
pub struct HashState {
    first: u64,
    second: u64,
}

impl HashState {
    /// The state that is the same in every program, for keys that one trusts.
    pub fn fixed() -> HashState {
        HashState {
            first: 0,
            second: 0,
        }
    }

    /// The state of 16 bytes, which are best drawn at random.
    pub fn from_bytes(bytes: &[u8; 16]) -> HashState {
        let both = u128::from_le_bytes(*bytes);
        HashState {
            first: (both & u128::from(u64::MAX)) as u64,
            second: (both >> 64) as u64,
        }
    }

    /// A state that nobody knows; the fixed one where the source gives no bytes. Mirrors
    /// `RandomState::new`. Takes no memory.
    pub fn random(source: &impl RandomSource) -> HashState {
        let mut bytes = [0; 16];
        match source.fill_bytes(&mut bytes) {
            Ok(()) => HashState::from_bytes(&bytes),
            Err(_) => HashState::fixed(),
        }
    }
}

impl BuildHasher for HashState {
    type Hasher = KeyHasher;

    ghost build_hasher = { first_hasher };

    #[inline(always)]
    fn build_hasher(&self) -> KeyHasher {
        KeyHasher {
            v0: self.first ^ 0x736f_6d65_7073_6575,
            v1: self.second ^ 0x646f_7261_6e64_6f6d,
            v2: self.first ^ 0x6c79_6765_6e65_7261,
            v3: self.second ^ 0x7465_6462_7974_6573,
        }
    }
}

/// Hashes one key by SipHash-1-3, the function of std's `DefaultHasher`, but that each write is fed
/// by whole words: eight bytes each, and the bytes behind them below their number. So a short text
/// takes half of the time that byte by byte takes.
#[derive(Clone, Copy)]
pub struct KeyHasher {
    v0: u64,
    v1: u64,
    v2: u64,
    v3: u64,
}

impl KeyHasher {
    #[inline(always)]
    fn round(&mut self)
        ensures { self.new ≡ round self.old }
    {
        self.v0 = self.v0.wrapping_add(self.v1);
        self.v2 = self.v2.wrapping_add(self.v3);
        self.v1 = self.v1.rotate_left(13) ^ self.v0;
        self.v3 = self.v3.rotate_left(16) ^ self.v2;
        self.v0 = self.v0.rotate_left(32);
        self.v2 = self.v2.wrapping_add(self.v1);
        self.v0 = self.v0.wrapping_add(self.v3);
        self.v1 = self.v1.rotate_left(17) ^ self.v2;
        self.v3 = self.v3.rotate_left(21) ^ self.v0;
        self.v2 = self.v2.rotate_left(32);
    }

    #[inline(always)]
    fn take_word(&mut self, word: u64)
        ensures { self.new ≡ take_word self.old word }
    {
        self.v3 ^= word;
        self.round();
        self.v0 ^= word;
    }
}

// The bytes behind whole words, in one word below their number.
#[inline(always)]
fn last_word(bytes: &[u8]) -> u64
    requires { length bytes.now < 8 }
    ensures { result ≡ last_word bytes.now }
{
    let mut word = bytes.len() as u64;
    for b in bytes {
        word = word << 8 | u64::from(*b);
    }
    word
}

impl Hasher for KeyHasher {
    ghost write = { write };

    ghost finish = { finish };

    #[inline(always)]
    fn write(&mut self, bytes: &[u8]) {
        let (words, rest) = bytes.as_chunks::<8>();
        for word in words {
            self.take_word(u64::from_le_bytes(*word));
        }
        self.take_word(last_word(rest));
    }

    #[inline(always)]
    fn finish(&self) -> u64 {
        let mut ending = *self;
        ending.v2 ^= 0xff;
        ending.round();
        ending.round();
        ending.round();
        ending.v0 ^ ending.v1 ^ ending.v2 ^ ending.v3
    }
}
