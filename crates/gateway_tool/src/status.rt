//! The statuses with which the program ends.
ghost use Rattle.std.specs.Prelude.{◌≡◌};
ghost use Rattle.std.specs.Option.{option_copied};
ghost use Rattle.gateway_tool.specs.Status.{line_of};

/// The input was read to its end, and all was written.
pub const OK: u8 = 0;

/// A line of the input is no request. What it was refused for was written, as the answers of the
/// others were.
pub const NOT_ANSWERED: u8 = 1;

/// The words are not those of a command.
pub const USAGE: u8 = 2;

/// A read of the input failed.
pub const READ_FAULT: u8 = 3;

/// A write of the output failed; a part of it may have been written.
pub const WRITE_FAULT: u8 = 4;

/// Memory ran out.
pub const OUT_OF_MEMORY: u8 = 5;

/// The input has more bytes, or more lines, than its limit.
pub const TOO_MUCH_INPUT: u8 = 6;

/// A call of the store failed.
pub const STORE_FAULT: u8 = 7;

/// A file is not what the command needs: the input of `show` is no shard, the file that `index`
/// reads is absent, too long or not indexable, or an index or a shard that `closure` needs is absent,
/// too long, of another digest or of another form.
pub const BAD_FILE: u8 = 8;

/// Connections can't be accepted: the address is none or is taken, or the system failed.
pub const LISTEN_FAULT: u8 = 10;

/// The line that is printed on standard error for a status, without its newline. `OK` has none,
/// and no number that isn't a status.
pub fn status_line(status: u8) -> Option<&'static str>
    ensures { option_copied result ≡ line_of status }
{
    match status {
        NOT_ANSWERED => Some("gateway: some requests were not answered"),
        USAGE => Some("gateway: usage"),
        READ_FAULT => Some("gateway: read fault"),
        WRITE_FAULT => Some("gateway: write fault"),
        OUT_OF_MEMORY => Some("gateway: out of memory"),
        TOO_MUCH_INPUT => Some("gateway: too much input"),
        STORE_FAULT => Some("gateway: store fault"),
        BAD_FILE => Some("gateway: bad file"),
        LISTEN_FAULT => Some("gateway: listen fault"),
        _ => None,
    }
}
