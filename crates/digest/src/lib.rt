// Document 01, 'Digest and shown place': FNV-1a of 32 bits, over bytes and over words. A digest
// goes in by value and comes back, so that it can be continued over what follows.

#![tactic(auto)]

ghost use Rattle.std.specs.Prelude.{◌≡◌};
ghost use Rattle.digest.specs.Fnv.{with_byte};
ghost use Rattle.digest.specs.Says.{NewSays, OfStateSays, BytesSays, WordSays, WordsSays};

#[derive(Clone, Copy)]
pub struct Digest {
    pub value: u32,
}

impl Digest {
    // 'start 2166136261'
    pub const START: u32 = 2_166_136_261;
    // 'multiply by 16777619'
    pub const PRIME: u32 = 16_777_619;

    // The digest of no bytes, to be continued.
    pub fn new() -> Self
        ensures started { NewSays result }
    {
        Self { value: Self::START }
    }

    // The digest of a session: the steps made, then each state word.
    #[tactic(auto, unfolding(crate::specs::Fnv::fnv))]
    pub fn of_state(steps: u32, state: &[i32]) -> Self
        ensures digested { OfStateSays steps state.now result }
    {
        Self::new().word(steps).words(state)
    }

    // Continued over any bytes.
    pub fn bytes(self, bytes: &[u8]) -> Self
        ensures continued { BytesSays self bytes.now result }
    {
        bytes.iter().fold(self, |digest, byte| digest.byte(*byte))
    }

    // Continued over one u32, little-endian.
    pub fn word(self, word: u32) -> Self
        ensures continued { WordSays self word result }
    {
        self.bytes(&word.to_le_bytes())
    }

    // Continued over i32 words, two's complement, little-endian.
    pub fn words(self, words: &[i32]) -> Self
        ensures continued { WordsSays self words.now result }
    {
        words
            .iter()
            .fold(self, |digest, word| digest.word(word.cast_unsigned()))
    }

    // 'exclusive-or into the low byte, then multiply by 16777619 modulo 2^32'
    #[tactic(auto, unfolding(crate::specs::Fnv::with_byte))]
    fn byte(self, byte: u8) -> Self
        ensures continued { result.value ≡ with_byte self.value byte }
    {
        Self {
            value: (self.value ^ u32::from(byte)).wrapping_mul(Self::PRIME),
        }
    }
}
