// GCM.
ghost use Rattle.std.specs.Prelude.{true, ◌≡◌, ◌<◌, ◌-◌, ◌^◌, length};
ghost use Rattle.std.proofs.Math.Option.{get_or};
ghost use Rattle.octets.specs.Maybe.{is_some};
ghost use Rattle.gcm.specs.Gcm.{encrypt, tag as tag_of, decrypt};
ghost use Rattle.aes.specs.KeySizes.{is_key_length};
ghost use Rattle.test_primitives.specs.Exports.{aes, Seals, Opens, gcm_fits};

fn seal_sized(key: &[u8], nonce: &[u8], aad: &[u8], text: &mut [u8], tag: &mut [u8])
    requires { (is_key_length (length key.now) ≡ true) × (length nonce.now ≡ 12) × (length aad.now < 2 ^ 32 - 16) × (length tag.old ≡ 16) × (length text.old < 2 ^ 32 - 16) }
    ensures { (text.new ≡ encrypt (aes key.now) nonce.now text.old)
        × (tag.new ≡ tag_of (aes key.now) nonce.now aad.now (encrypt (aes key.now) nonce.now text.old)) }
{
    let n = arrays::bytes_at(nonce, 0);
    let t = gcm::seal(key, n, aad, text);
    runs::copy(tag, 0, &t);
}

#[unsafe(no_mangle)]
pub extern "C" fn primitives_gcm_seal(
    key: &[u8],
    nonce: &[u8],
    aad: &[u8],
    text: &mut [u8],
    tag: &mut [u8],
) -> u32
    ensures { Seals (gcm_fits key.now nonce.now aad.now tag.old text.old)
        (encrypt (aes key.now) nonce.now text.old)
        (tag_of (aes key.now) nonce.now aad.now (encrypt (aes key.now) nonce.now text.old))
        text.old text.new tag.old tag.new result }
{
    if aes::is_key_length(key.len())
        & (nonce.len() == 12)
        & (aad.len() < 4294967280)
        & (tag.len() == 16)
        & (text.len() < 4294967280)
    {
        seal_sized(key, nonce, aad, text, tag);
        return 0;
    }
    40
}

fn open_sized(key: &[u8], nonce: &[u8], aad: &[u8], tag: &[u8], text: &mut [u8]) -> bool
    requires { (is_key_length (length key.now) ≡ true) × (length nonce.now ≡ 12) × (length aad.now < 2 ^ 32 - 16) × (length tag.now ≡ 16) × (length text.old < 2 ^ 32 - 16) }
    ensures { (result ≡ is_some (decrypt (aes key.now) nonce.now aad.now tag.now text.old))
        × (text.new ≡ get_or (decrypt (aes key.now) nonce.now aad.now tag.now text.old) text.old) }
{
    let n = arrays::bytes_at(nonce, 0);
    let t = arrays::bytes_at(tag, 0);
    gcm::open(key, n, aad, t, text)
}

#[unsafe(no_mangle)]
pub extern "C" fn primitives_gcm_open(
    key: &[u8],
    nonce: &[u8],
    aad: &[u8],
    tag: &[u8],
    text: &mut [u8],
    right: &mut u32,
) -> u32
    ensures { Opens (gcm_fits key.now nonce.now aad.now tag.now text.old)
        (decrypt (aes key.now) nonce.now aad.now tag.now text.old)
        text.old text.new right.old right.new result }
{
    if aes::is_key_length(key.len())
        & (nonce.len() == 12)
        & (aad.len() < 4294967280)
        & (tag.len() == 16)
        & (text.len() < 4294967280)
    {
        *right = u32::from(open_sized(key, nonce, aad, tag, text));
        return 0;
    }
    40
}
