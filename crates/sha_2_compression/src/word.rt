// The words that an algorithm of the family computes on, and what tells it from the others (FIPS 180-4 §3.2, §4, §5).
ghost use Rattle.std.specs.Prelude.{◌≡◌, List, ℕ, ◌+◌, ◌*◌, ◌^◌, ◌<◌, ◌≤◌, length, map, get_or};
ghost use Rattle.std.specs.Mem.{type_size};
ghost use Rattle.std.proofs.Math.Seq.{paste};
ghost use Rattle.octets.specs.Numbers.{big_endian, to_big_endian, bytes_at};
ghost use Rattle.sha_2.specs.Sha2 as sha2;
ghost use Rattle.sha_2.specs.Sha2.{Sha2, bits, big_sigma, small_sigma};
ghost use Rattle.sha_2_compression.specs.Sizes.{SizesOf};

// A word, with the functions of the algorithm that computes on it. Ch and Maj stand in each impl, a line each: a law over Self speaks of every
// number, so that generic code does not know that a word fits its bits, which the short form of Ch rests on.
pub trait Word: Copy + Default {
    // The number of a word.
    ghost value: { Self → ℕ };

    // The algorithm.
    ghost family: { Sha2 };

    // §3.2.1
    fn add(self, other: Self) -> Self
        ensures { value result ≡ sha2.add (bits family) (value self) (value other) };

    // Three operations serve in place of four.
    fn ch(self, y: Self, z: Self) -> Self
        ensures { value result ≡ sha2.ch (bits family) (value self) (value y) (value z) };

    fn maj(self, y: Self, z: Self) -> Self
        ensures { value result ≡ sha2.maj (value self) (value y) (value z) };

    // Σ0 and Σ1 rotate by the differences of their amounts, one rotation after the other, which takes fewer copies of the word than three
    // rotations side by side.
    fn big_sigma0(self) -> Self
        ensures { value result ≡ big_sigma (bits family) family.big_sigma0 (value self) };

    fn big_sigma1(self) -> Self
        ensures { value result ≡ big_sigma (bits family) family.big_sigma1 (value self) };

    fn small_sigma0(self) -> Self
        ensures { value result ≡ small_sigma (bits family) family.small_sigma0 (value self) };

    fn small_sigma1(self) -> Self
        ensures { value result ≡ small_sigma (bits family) family.small_sigma1 (value self) };

    // The word in the bytes from `at` on (§3.1).
    fn word_at(block: &[u8], at: usize) -> Self
        requires { at + family.bytes ≤ length block.now }
        ensures { value result ≡ big_endian (bytes_at at family.bytes block.now) };

    // The bytes of the word, in the place of those from `at` on (§3.1).
    fn store(self, out: &mut [u8], at: usize)
        requires { at + family.bytes ≤ length out.old }
        ensures { (b : List ℕ) → b ≡ to_big_endian family.bytes (value self) → out.new ≡ paste out.old at b (length b) };
}

// The algorithm on such words. ROUNDS is how many rounds a block takes, which is how many constants there are, and how many words the message
// schedule has; BLOCK is how many bytes a block has. They are parameters, since an array has as many elements as a parameter says.
pub trait Algorithm<const ROUNDS: usize, const BLOCK: usize>: Word {
    // §4.2.2, §4.2.3
    fn round_constant(j: usize) -> Self
        requires { j < ROUNDS }
        ensures { Self.value result ≡ get_or Self.family.constants j 0 };

    // §5.3.3, §5.3.5
    fn initial_hash_value() -> [Self; 8]
        ensures { map Self.value result ≡ Self.family.initial };

    // The parameters are those of the algorithm.
    ghost sizes: { SizesOf Self.family ROUNDS BLOCK };

    // An array of words has its place in memory.
    ghost small: { ROUNDS * type_size Self.row < 2 ^ 63 };
}
