// Arguments that are no file, and names of files.
ghost use Rattle.std.specs.Prelude.{◌≡◌, ◌+◌, leb, length, is_some, IfSome};
ghost use Rattle.std.specs.Option.{unwrap_or};
ghost use Rattle.io.specs.Counts.{IsPrefixLen};
ghost use Rattle.program_text.specs.Words.{asks_help, asks_version, folder_in};
ghost use Rattle.program_text.specs.Puts.{PutName};

use runs::copy;

pub fn asks_help(word: &[u8]) -> bool
    ensures { result ≡ asks_help word.now }
{
    word == b"--help".as_slice() || word == b"-h".as_slice()
}

pub fn asks_version(word: &[u8]) -> bool
    ensures { result ≡ asks_version word.now }
{
    word == b"--version".as_slice()
}

// How many bytes of a path name its folder, the slash among them.
fn folder_len(path: &[u8]) -> usize
    ensures { result ≡ folder_in path.now }
{
    let mut found = 0;
    for (i, b) in path.iter().enumerate() {
        if *b == b'/' {
            found = i + 1;
        }
    }
    found
}

// The name of a file in the same folder, of which the system replaces the last six letters: its length, where the room holds it.
pub fn beside(path: &[u8], room: &mut [u8]) -> Option<usize>
    ensures put_name { PutName path.now room.old (unwrap_or result (length room.old)) room.new }
    ensures prefix_len { IfSome result (λ n. IsPrefixLen n room.new) }
    ensures holds { is_some result ≡ leb (folder_in path.now + 15) (length room.old) }
{
    let folder = folder_len(path);
    let len = folder + 15;
    if room.len() < len {
        return None;
    }
    copy(room, 0, &path[..folder]);
    copy(room, folder, b"smb3seal-XXXXXX");
    Some(len)
}
