//! The words of the command `serve`.
ghost use Rattle.std.specs.Prelude.{◌≡◌, ◌≤◌, IfSome};
ghost use Rattle.std.specs.Option.{option_copied, option_map};
ghost use Rattle.gateway_tool.specs.Asking.{wanted_in};
ghost use Rattle.gateway_tool.specs.Serve.{addr_word, connections_word, count_of, count_within, has_leading_zero, serve_words, served_words, wanted_by};
ghost use Rattle.byte_text.specs.Decimal.{decimal_from};

use crate::words::is_option;
use byte_text::{are_digits, decimal};
use mp_codec::Text;
use store_closure::{option_of, value_of};

// The most bytes of an address.
const MOST_ADDRESS_BYTES: usize = 255;

// What the words of `serve` ask for: where to listen, and how many connections to serve.
#[derive(Clone, Copy)]
pub(crate) struct Asking<'a> {
    pub(crate) addr: &'a str,
    pub(crate) connections: Option<u64>,
}

// What the words ask for, where they are those of `serve`.
pub(crate) fn served_words(words: &[Text]) -> Option<Asking<'_>>
    ensures exact { option_map wanted_in result ≡ served_words words.now }
    ensures some { IfSome result (λ asking. IfSome asking.connections (λ n. 1 ≤ n)) }
{
    match words {
        [name, words @ ..] if name.as_str() == "serve" => serve_words(words),
        _ => None,
    }
}

// What the words behind the name of `serve` ask for.
fn serve_words(words: &[Text]) -> Option<Asking<'_>>
    ensures exact { option_map wanted_in result ≡ serve_words words.now }
    ensures some { IfSome result (λ asking. IfSome asking.connections (λ n. 1 ≤ n)) }
{
    match words {
        [word] => endless(word.as_str()),
        [first, second] => {
            if is_option(first.as_str()) {
                wanted_by(second.as_str(), first.as_str())
            } else {
                wanted_by(first.as_str(), second.as_str())
            }
        }
        _ => None,
    }
}

// What an address alone says.
fn endless(addr: &str) -> Option<Asking<'_>>
    ensures exact { option_map wanted_in result
        ≡ option_map (λ a. record { addr = a; connections = None }) (addr_word addr.now) }
    ensures some { IfSome result (λ asking. IfSome asking.connections (λ n. 1 ≤ n)) }
{
    match addr_word(addr) {
        Some(addr) => Some(Asking {
            addr,
            connections: None,
        }),
        None => None,
    }
}

// What an address and an option say.
fn wanted_by<'a>(addr: &'a str, option: &str) -> Option<Asking<'a>>
    ensures exact { option_map wanted_in result ≡ wanted_by addr.now option.now }
    ensures some { IfSome result (λ asking. IfSome asking.connections (λ n. 1 ≤ n)) }
{
    let Some(addr) = addr_word(addr) else {
        return None;
    };
    match connections_word(option) {
        Some(n) => Some(Asking {
            addr,
            connections: Some(n),
        }),
        None => None,
    }
}

// The address that a word is.
fn addr_word(word: &str) -> Option<&str>
    ensures { option_copied result ≡ addr_word word.now }
{
    if is_option(word) || word.is_empty() || word.len() > MOST_ADDRESS_BYTES {
        return None;
    }
    Some(word)
}

// The number of connections that a word says.
fn connections_word(word: &str) -> Option<u64>
    ensures exact { result ≡ connections_word word.now }
    ensures some { IfSome result (λ n. 1 ≤ n) }
{
    if option_of(word) == "--connections" {
        return count_of(value_of(word));
    }
    None
}

// The number of connections that digits are.
fn count_of(text: &str) -> Option<u64>
    ensures exact { result ≡ count_of text.now }
    ensures some { IfSome result (λ n. 1 ≤ n) }
{
    if are_digits(text.as_bytes()) && !has_leading_zero(text) {
        return count_within(text.as_bytes());
    }
    None
}

// The number of connections that digits say, if it is one.
fn count_within(digits: &[u8]) -> Option<u64>
    ensures exact { result ≡ count_within (decimal_from 0 digits.now) }
    ensures some { IfSome result (λ n. 1 ≤ n) }
{
    match decimal(digits) {
        Some(n) if n > 0 => Some(n),
        _ => None,
    }
}

// Whether digits begin with a zero.
fn has_leading_zero(text: &str) -> bool
    ensures { result ≡ has_leading_zero text.now }
{
    text.starts_with('0')
}
