//! Names in the strings of a blob.

ghost use Rattle.std.specs.Prelude.{◌≡◌, ◌<◌, ◌++◌, List, length, take, ℕ};
ghost use Rattle.dt_model_format.specs.Strings.{place_in, terminated};
ghost use Rattle.memchr.specs.Find.{FindsNeedle};

use memchr::memmem;

/// A name and its NUL, in front of bytes that have room for them.
fn terminated_in<'n>(room: &'n mut [u8; 256], name: &[u8]) -> &'n [u8]
    requires { length name.now < 256 }
    ensures { result.now ≡ terminated name.now }
{
    room[..name.len()].copy_from_slice(name);
    room[name.len()] = 0;
    &room[..name.len() + 1]
}

/// The first place at which some strings hold a name and its NUL.
pub(crate) fn place_in(strings: &[u8], name: &[u8]) -> Option<usize>
    requires { length name.now < 256 }
    ensures { result ≡ place_in strings.now name.now }
{
    let mut room = [0u8; 256];
    memmem::find(strings, terminated_in(&mut room, name))
}
