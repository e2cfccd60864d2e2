//! The keys of a spec's bracket.

ghost use Rattle.std.specs.Prelude.{◌≡◌};
ghost use Rattle.match_spec.specs.Reading.{key_of};
ghost use Rattle.match_spec.specs.Seen.{key_there};

// A key of the bracket.
#[derive(Clone, Copy)]
pub(crate) enum Key {
    Version,
    Build,
    BuildNumber,
    Channel,
    Subdir,
    Md5,
    Sha256,
    File,
}

// The key that some bytes are, if they are one.
pub(crate) fn key_of(text: &[u8]) -> Option<Key>
    ensures { key_there result ≡ key_of text.now }
{
    if text == b"version".as_slice() {
        Some(Key::Version)
    } else if text == b"build".as_slice() {
        Some(Key::Build)
    } else if text == b"build_number".as_slice() {
        Some(Key::BuildNumber)
    } else if text == b"channel".as_slice() {
        Some(Key::Channel)
    } else if text == b"subdir".as_slice() {
        Some(Key::Subdir)
    } else if text == b"md5".as_slice() {
        Some(Key::Md5)
    } else if text == b"sha256".as_slice() {
        Some(Key::Sha256)
    } else if text == b"fn".as_slice() {
        Some(Key::File)
    } else {
        None
    }
}
