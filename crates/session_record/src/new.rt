// Adding: the record out of the derived keys.
ghost use Rattle.std.specs.Prelude.{◌≡◌, cond};
ghost use Rattle.protocol.specs.SessionTable.{zero_key};
ghost use Rattle.session_record.specs.Adds.{record_with};

use crate::{Adding, Session};
use connection::KeySize;
use derived_keys::Keys;

// A guest or anonymous record holds zero in the place of a cipher key.
fn held(bare: bool, key: [u8; 32]) -> [u8; 32]
    ensures { result ≡ cond bare (zero_key 32) key }
{
    if bare { [0; 32] } else { key }
}

// The new record, out of the four keys.
pub fn fresh(a: Adding, k: Keys) -> Session
    ensures { result ≡ record_with a k }
{
    let bare = a.guest | a.anonymous;
    let size = KeySize::of(a.dialect, a.cipher);
    let signing = k.signing;
    let application = k.application;
    Session {
        id: a.id,
        signing,
        application,
        client_to_server: held(bare, k.client_to_server),
        server_to_client: held(bare, k.server_to_client),
        used: 1,
        guest: u8::from(a.guest),
        anonymous: u8::from(a.anonymous),
        wide: u8::from(size.is_wide()),
        ..Session::vacant()
    }
}
