// FIPS 197.
ghost use Rattle.std.specs.Prelude.{true, ◌≡◌, length};
ghost use Rattle.aes.specs.KeySizes.{is_key_length};

use aes::Cipher;
use std::io;
use test_lines::{Hex, Word, Words};

fn expand_sized(rt: &HostRuntime, key: &[u8]) -> io::Result<()>
    requires { is_key_length (length key.now) ≡ true }
{
    let keys = aes::round_keys(key);
    for r in 0..=aes::rounds(key) {
        print!(rt; "{}", Hex(&keys[r]))?;
    }
    Ok(())
}

// expand KEY: the round keys.
pub fn expand(rt: &HostRuntime, words: &mut Words<'_>) -> io::Result<()> {
    let word: Word<32> = words.word();
    let key = word.as_slice();
    if aes::is_key_length(key.len()) {
        expand_sized(rt, key)?;
    }
    println!(rt)
}

fn encrypt_sized(rt: &HostRuntime, key: &[u8], block: [u8; 16]) -> io::Result<()>
    requires { is_key_length (length key.now) ≡ true }
{
    let out = Cipher::new(key).encrypt_block(block);
    print!(rt; "{}", Hex(&out))
}

// encrypt KEY BLOCK: the block, enciphered.
pub fn encrypt(rt: &HostRuntime, words: &mut Words<'_>) -> io::Result<()> {
    let word: Word<32> = words.word();
    let block: Word<16> = words.word();
    let key = word.as_slice();
    if aes::is_key_length(key.len()) {
        encrypt_sized(rt, key, block.bytes)?;
    }
    println!(rt)
}
