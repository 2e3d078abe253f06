// CMAC, of a message that is handed over in two pieces.
ghost use Rattle.std.specs.Prelude.{◌≡◌, ◌++◌, length};
ghost use Rattle.cmac.specs.Cmac as rfc4493;
ghost use Rattle.test_primitives.specs.Exports.{aes, Writes, cmac_fits};

fn cmac_sized(key: &[u8], front: &[u8], back: &[u8]) -> [u8; 16]
    requires { length key.now ≡ 16 }
    ensures { result ≡ rfc4493.cmac (aes key.now) (front.now ++ back.now) }
{
    let cipher = aes::Cipher::new(key);
    cmac::Mac::new()
        .update(&cipher, front)
        .update(&cipher, back)
        .finish(&cipher)
}

#[unsafe(no_mangle)]
pub extern "C" fn primitives_cmac(key: &[u8], front: &[u8], back: &[u8], code: &mut [u8]) -> u32
    ensures { Writes (cmac_fits key.now code.old) (rfc4493.cmac (aes key.now) (front.now ++ back.now)) code.old code.new result }
{
    if (key.len() == 16) & (code.len() == 16) {
        let value = cmac_sized(key, front, back);
        runs::copy(code, 0, &value);
        return 0;
    }
    40
}
