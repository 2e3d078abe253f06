// Counter mode and CCM.
ghost use Rattle.std.specs.Prelude.{true, ◌≡◌, ◌<◌, ◌-◌, ◌^◌, length};
ghost use Rattle.std.proofs.Math.Option.{get_or};
ghost use Rattle.octets.specs.Maybe.{is_some};
ghost use Rattle.ctr.specs.Ctr.{ctr, counter_blocks};
ghost use Rattle.ccm.specs.Ccm.{encrypt, tag as tag_of, decrypt};
ghost use Rattle.aes.specs.KeySizes.{is_key_length};
ghost use Rattle.test_primitives.specs.Exports.{aes, Writes, Seals, Opens, ctr_fits, ccm_fits};

fn ctr_sized(key: &[u8], prefix: &[u8], first: u16, text: &mut [u8])
    requires { (is_key_length (length key.now) ≡ true) × (length prefix.now ≡ 12) × (length text.old < 2 ^ 32 - 2 ^ 17) }
    ensures { text.new ≡ ctr (aes key.now) (counter_blocks prefix.now first) text.old }
{
    let cipher = aes::Cipher::new(key);
    ctr::apply(&cipher, arrays::bytes_at(prefix, 0), u32::from(first), text);
}

#[unsafe(no_mangle)]
pub extern "C" fn primitives_ctr(key: &[u8], prefix: &[u8], first: u16, text: &mut [u8]) -> u32
    ensures { Writes (ctr_fits key.now prefix.now text.old) (ctr (aes key.now) (counter_blocks prefix.now first) text.old) text.old text.new result }
{
    if aes::is_key_length(key.len()) & (prefix.len() == 12) & (text.len() < 4294836224) {
        ctr_sized(key, prefix, first, text);
        return 0;
    }
    40
}

fn seal_sized(key: &[u8], nonce: &[u8], aad: &[u8], text: &mut [u8], tag: &mut [u8])
    requires { (is_key_length (length key.now) ≡ true) × (length nonce.now ≡ 11) × (length aad.now ≡ 32) × (length tag.old ≡ 16) × (length text.old < 2 ^ 32 - 16) }
    ensures { (text.new ≡ encrypt (aes key.now) nonce.now text.old)
        × (tag.new ≡ tag_of (aes key.now) nonce.now aad.now text.old) }
{
    let n = arrays::bytes_at(nonce, 0);
    let a = arrays::bytes_at(aad, 0);
    let t = ccm::seal(key, n, a, text);
    runs::copy(tag, 0, &t);
}

#[unsafe(no_mangle)]
pub extern "C" fn primitives_ccm_seal(
    key: &[u8],
    nonce: &[u8],
    aad: &[u8],
    text: &mut [u8],
    tag: &mut [u8],
) -> u32
    ensures { Seals (ccm_fits key.now nonce.now aad.now tag.old text.old)
        (encrypt (aes key.now) nonce.now text.old)
        (tag_of (aes key.now) nonce.now aad.now text.old)
        text.old text.new tag.old tag.new result }
{
    if aes::is_key_length(key.len())
        & (nonce.len() == 11)
        & (aad.len() == 32)
        & (tag.len() == 16)
        & (text.len() < 4294967280)
    {
        seal_sized(key, nonce, aad, text, tag);
        return 0;
    }
    40
}

fn open_sized(key: &[u8], nonce: &[u8], aad: &[u8], tag: &[u8], text: &mut [u8]) -> bool
    requires { (is_key_length (length key.now) ≡ true) × (length nonce.now ≡ 11) × (length aad.now ≡ 32) × (length tag.now ≡ 16) × (length text.old < 2 ^ 32 - 16) }
    ensures { (result ≡ is_some (decrypt (aes key.now) nonce.now aad.now tag.now text.old))
        × (text.new ≡ get_or (decrypt (aes key.now) nonce.now aad.now tag.now text.old) text.old) }
{
    let n = arrays::bytes_at(nonce, 0);
    let a = arrays::bytes_at(aad, 0);
    let t = arrays::bytes_at(tag, 0);
    ccm::open(key, n, a, t, text)
}

#[unsafe(no_mangle)]
pub extern "C" fn primitives_ccm_open(
    key: &[u8],
    nonce: &[u8],
    aad: &[u8],
    tag: &[u8],
    text: &mut [u8],
    right: &mut u32,
) -> u32
    ensures { Opens (ccm_fits key.now nonce.now aad.now tag.now text.old)
        (decrypt (aes key.now) nonce.now aad.now tag.now text.old)
        text.old text.new right.old right.new result }
{
    if aes::is_key_length(key.len())
        & (nonce.len() == 11)
        & (aad.len() == 32)
        & (tag.len() == 16)
        & (text.len() < 4294967280)
    {
        *right = u32::from(open_sized(key, nonce, aad, tag, text));
        return 0;
    }
    40
}
