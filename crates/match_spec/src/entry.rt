//! The parts of a spec's bracket, one after the other.

ghost use Rattle.std.specs.Prelude.{◌≡◌, ◌<◌, ◌==◌, IfSome, length, position};
ghost use Rattle.byte_text.specs.Text.{begins_at};
ghost use Rattle.match_spec.specs.Bracket.{ends_key, opening_quote};
ghost use Rattle.match_spec.specs.Signs.{is_quote};

use crate::passage::Passage;
use byte_text::find;

// What stands behind the `=` of a part.
#[derive(Clone, Copy)]
pub(crate) enum Value<'a> {
    // A value without quotes, with the blanks behind it.
    Bare(Passage<'a>),
    // The place of the opening quote, what stands between the quotes, and what follows.
    Quoted(usize, Passage<'a>, Passage<'a>),
    // The place of a quote that is not closed.
    Unclosed(usize),
}

// A part of a bracket: what stands before its `=`, or all of it, the value, and what follows the `,`.
#[derive(Clone, Copy)]
pub(crate) struct Entry<'a> {
    pub(crate) key: Passage<'a>,
    pub(crate) value: Option<Value<'a>>,
    pub(crate) rest: Option<Passage<'a>>,
}

impl<'a> Entry<'a> {
    ghost use Rattle.std.specs.Prelude.{◌≡◌, ◌+◌, ◌^◌, Some};
    ghost use Rattle.match_spec.specs.Bracket.{entry_by, entry_of, is_equals_at, quoted_entry, valued_entry};
    ghost use Rattle.match_spec.specs.Seen.{passage_in};
    ghost use Rattle.match_spec.specs.Seen.{entry_in};

    // The part with which a passage begins.
    #[tactic(auto, unfolding(crate::specs::Bracket::entry_of))]
    pub(crate) fn of(p: Passage<'a>) -> Entry<'a>
        ensures value { entry_in result ≡ entry_of (passage_in p.entry) }
        ensures shorter { IfSome result.rest
            (λ rest. length rest.text.now < length p.entry.text.now) }
    {
        match key_len(p.text) {
            Some(n) => Entry::keyed(p, n),
            None => Entry {
                key: p,
                value: None,
                rest: None,
            },
        }
    }

    // The part with which a passage begins, whose key ends at a place.
    fn keyed(p: Passage<'a>, n: usize) -> Entry<'a>
        requires { n < length p.text.now }
        ensures value { entry_in result
            ≡ entry_by (passage_in p.entry) (Some n) (is_equals_at (Some n) (passage_in p.entry)) }
        ensures shorter { IfSome result.rest
            (λ rest. length rest.text.now < length p.entry.text.now) }
    {
        let key = p.front(n);
        let follows = p.behind(n + 1);
        if begins_at(b'=', p.behind(n).text) {
            Entry::valued(key, follows.begun())
        } else {
            Entry {
                key,
                value: None,
                rest: Some(follows),
            }
        }
    }

    // The part with a key and the value that begins here.
    fn valued(key: Passage<'a>, here: Passage<'a>) -> Entry<'a>
        ensures value { entry_in result
            ≡ valued_entry (passage_in key.entry) (passage_in here.entry) }
        ensures shorter { IfSome result.rest
            (λ rest. length rest.text.now < length here.entry.text.now) }
    {
        match opening_quote(here.text) {
            Some(quote) => Entry::quoted(key, here.at, quote, here.behind(1)),
            None => Entry {
                key,
                value: Some(Value::Bare(here.until(b','))),
                rest: here.beyond(b','),
            },
        }
    }

    // The part with a key and a value in quotes: the place of the first one, and what follows it.
    fn quoted(key: Passage<'a>, at: usize, quote: u8, body: Passage<'a>) -> Entry<'a>
        ensures value { entry_in result
            ≡ quoted_entry (passage_in key.entry) at (passage_in body.entry)
            (position (λ b. b == quote) body.entry.text.now) }
        ensures shorter { IfSome result.rest
            (λ rest. length rest.text.now < length body.entry.text.now) }
    {
        let Some(n) = find(quote, body.text) else {
            return Entry {
                key,
                value: Some(Value::Unclosed(at)),
                rest: None,
            };
        };
        let tail = body.behind(n + 1);
        Entry {
            key,
            value: Some(Value::Quoted(at, body.front(n), tail.until(b','))),
            rest: tail.beyond(b','),
        }
    }
}

// Whether a text begins with this byte.
fn begins_at(mark: u8, text: &[u8]) -> bool
    ensures { result ≡ begins_at mark text.now }
{
    match text {
        [first, ..] => *first == mark,
        [] => false,
    }
}

// The quote with which a text begins, if it does.
fn opening_quote(text: &[u8]) -> Option<u8>
    ensures value { result ≡ opening_quote text.now }
    ensures within { IfSome result (λ _. 0 < length text.now) }
{
    match text {
        [first, ..] if is_quote(*first) => Some(*first),
        _ => None,
    }
}

fn is_quote(byte: u8) -> bool
    ensures { result ≡ is_quote byte }
{
    byte == b'\'' || byte == b'"'
}

// The place of the first `,` or `=`, where a key ends.
fn key_len(text: &[u8]) -> Option<usize>
    ensures value { result ≡ position ends_key text.now }
    ensures within { IfSome result (λ n. n < length text.now) }
{
    text.iter().position(|b| *b == b',' || *b == b'=')
}
