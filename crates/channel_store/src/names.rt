//! The names of channels and subdirs, places, and the names of the files below them.

ghost use Rattle.std.specs.Prelude.{◌≡◌, ◌==◌, ◌||◌, true, IfSome};
ghost use Rattle.std.specs.Option.{option_copied};
ghost use Rattle.std.specs.List.{list_all, before_first, after_first};
ghost use Rattle.gateway_words.specs.Ascii.{dot};
ghost use Rattle.channel_store.specs.Names.{is_subdir_byte, is_channel_byte, is_subdir_name, is_channel_name, is_place, channel_of, subdir_of, has_size_of_name, is_shard_digit, are_shard_digits, file_of, is_below_place, is_input_file, is_index_file, is_msgpack_of_digits, is_shard_file, is_shard_name, is_served_name, served_path, is_store_name};

const MOST_BYTES: usize = 64;

const SHARD_DIGITS: usize = 64;

/// Whether a text is a subdir name: 1 to 64 letters, digits, `_` and `-`.
pub fn is_subdir_name(name: &str) -> bool
    ensures { result ≡ is_subdir_name name.now }
{
    has_size_of_name(name) && has_subdir_bytes(name.as_bytes())
}

/// Whether a text is a channel name: 1 to 64 letters, digits, `_`, `-` and `.`, other than `.`
/// and `..`.
pub fn is_channel_name(name: &str) -> bool
    ensures { result ≡ is_channel_name name.now }
{
    has_size_of_name(name) && has_channel_bytes(name.as_bytes()) && name != "." && name != ".."
}

/// Whether a text is a place: a channel name, `/` and a subdir name.
pub fn is_place(text: &str) -> bool
    ensures { result ≡ is_place text.now }
{
    match text.split_once('/') {
        Some((channel, subdir)) => is_channel_name(channel) && is_subdir_name(subdir),
        None => false,
    }
}

/// The subdir of a place: what stands behind its first `/`, or nothing.
pub fn subdir_of(place: &str) -> &str
    ensures { result.now ≡ subdir_of place.now }
{
    match place.split_once('/') {
        Some((_, subdir)) => subdir,
        None => "",
    }
}

/// Whether a text is a store name: a place with `/repodata.json`, with `/repodata_shards.msgpack`, or
/// with `/shards/`, 64 lower-case hexadecimal digits and `.msgpack` behind it.
pub fn is_store_name(name: &str) -> bool
    ensures { result ≡ is_store_name name.now }
{
    is_below_place(name) && is_store_file(file_of(name))
}

/// Whether a text is a name that is served: the store name of an index or of a shard.
pub fn is_served_name(name: &str) -> bool
    ensures { result ≡ is_served_name name.now }
{
    is_below_place(name) && is_served_file(file_of(name))
}

/// The name that is served under a path: what stands behind its first `/`, where that is the store name
/// of an index or of a shard; None for every other path.
pub fn served_path(path: &str) -> Option<&str>
    ensures name { option_copied result ≡ served_path path.now }
    ensures served { IfSome result (λ name. is_store_name name.now ≡ true) }
{
    let name = subdir_of(path);
    if channel_of(path).is_empty() && is_served_name(name) {
        Some(name)
    } else {
        None
    }
}

/// Whether a text is the store name of a shard.
pub fn is_shard_name(name: &str) -> bool
    ensures { result ≡ is_shard_name name.now }
{
    is_below_place(name) && is_shard_file(file_of(name))
}

// Whether a name begins with a place and a `/`, or is a place alone.
fn is_below_place(name: &str) -> bool
    ensures { result ≡ is_below_place name.now }
{
    is_channel_name(channel_of(name)) && is_subdir_name(channel_of(subdir_of(name)))
}

// What stands before the first `/` of a text, or all of it.
fn channel_of(place: &str) -> &str
    ensures { result.now ≡ channel_of place.now }
{
    match place.split_once('/') {
        Some((channel, _)) => channel,
        None => place,
    }
}

// What stands behind the place of a name.
fn file_of(name: &str) -> &str
    ensures { result.now ≡ file_of name.now }
{
    subdir_of(subdir_of(name))
}

// Whether the file behind a place is one of a store.
fn is_store_file(file: &str) -> bool
    ensures { result
        ≡ (is_input_file file.now || is_index_file file.now || is_shard_file file.now) }
{
    is_input_file(file) || is_index_file(file) || is_shard_file(file)
}

// Whether the file behind a place is one that is served.
fn is_served_file(file: &str) -> bool
    ensures { result ≡ (is_index_file file.now || is_shard_file file.now) }
{
    is_index_file(file) || is_shard_file(file)
}

// Whether the file behind a place is the one that is indexed.
fn is_input_file(file: &str) -> bool
    ensures { result ≡ is_input_file file.now }
{
    file == "repodata.json"
}

// Whether the file behind a place is the index.
fn is_index_file(file: &str) -> bool
    ensures { result ≡ is_index_file file.now }
{
    file == "repodata_shards.msgpack"
}

// Whether the file behind a place is a shard.
fn is_shard_file(file: &str) -> bool
    ensures { result ≡ is_shard_file file.now }
{
    channel_of(file) == "shards" && is_msgpack_of_digits(subdir_of(file))
}

// Whether a text is the digits of a digest, a dot and `msgpack`.
fn is_msgpack_of_digits(file: &str) -> bool
    ensures { result ≡ is_msgpack_of_digits file.now }
{
    are_shard_digits(before_dot(file).as_bytes()) && behind_dot(file) == "msgpack"
}

// What stands before the first dot of a text, or all of it.
fn before_dot(file: &str) -> &str
    ensures { result.now ≡ before_first (λ b. b == dot) file.now }
{
    match file.split_once('.') {
        Some((before, _)) => before,
        None => file,
    }
}

// What stands behind the first dot of a text, or nothing.
fn behind_dot(file: &str) -> &str
    ensures { result.now ≡ after_first (λ b. b == dot) file.now }
{
    match file.split_once('.') {
        Some((_, behind)) => behind,
        None => "",
    }
}

// Whether these are the 64 lower-case hexadecimal digits of a digest.
fn are_shard_digits(digits: &[u8]) -> bool
    ensures { result ≡ are_shard_digits digits.now }
{
    digits.len() == SHARD_DIGITS && has_shard_digits(digits)
}

fn has_shard_digits(digits: &[u8]) -> bool
    ensures { result ≡ list_all is_shard_digit digits.now }
{
    digits.iter().all(|b| is_shard_digit(*b))
}

// Whether a byte is a lower-case hexadecimal digit.
fn is_shard_digit(byte: u8) -> bool
    ensures { result ≡ is_shard_digit byte }
{
    matches!(byte, b'0'..=b'9' | b'a'..=b'f')
}

fn has_size_of_name(name: &str) -> bool
    ensures { result ≡ has_size_of_name name.now }
{
    1 <= name.len() && name.len() <= MOST_BYTES
}

fn has_subdir_bytes(name: &[u8]) -> bool
    ensures { result ≡ list_all is_subdir_byte name.now }
{
    name.iter().all(|b| is_subdir_byte(*b))
}

fn has_channel_bytes(name: &[u8]) -> bool
    ensures { result ≡ list_all is_channel_byte name.now }
{
    name.iter().all(|b| is_channel_byte(*b))
}

// Whether a subdir name can have this byte.
fn is_subdir_byte(byte: u8) -> bool
    ensures { result ≡ is_subdir_byte byte }
{
    byte.is_ascii_alphanumeric() || matches!(byte, b'_' | b'-')
}

// Whether a channel name can have this byte.
fn is_channel_byte(byte: u8) -> bool
    ensures { result ≡ is_channel_byte byte }
{
    is_subdir_byte(byte) || byte == b'.'
}
