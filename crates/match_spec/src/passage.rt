//! Passages of a text with the places where they stand in it.

ghost use Rattle.std.specs.Prelude.{◌+◌, ◌<◌, ◌^◌, length};

use byte_text::{drop_blanks, find, skip_blanks};

// A place in the whole text, and the bytes that stand there.
#[derive(Clone, Copy)]
pub(crate) struct Passage<'a> {
    pub(crate) at: usize,
    pub(crate) text: &'a [u8],
    ghost fits: { at + length text.now < 2 ^ 64 },
}

impl<'a> Passage<'a> {
    ghost use Rattle.std.specs.Prelude.{◌≡◌, ◌≤◌, IfSome};
    ghost use Rattle.byte_text.specs.Text.{is_nil, skip_blanks};
    ghost use Rattle.match_spec.specs.Passage.{begun, behind, beyond, ended, front, trimmed, until};
    ghost use Rattle.match_spec.specs.Seen.{passage_in, passage_there};

    // The whole of a text.
    pub(crate) fn of(text: &'a [u8]) -> Passage<'a>
        ensures { passage_in result ≡ record { at = 0; text = text.now } }
    {
        Passage { at: 0, text }
    }

    // The first n bytes.
    pub(crate) fn front(self, n: usize) -> Passage<'a>
        requires { n ≤ length self.text.now }
        ensures { passage_in result ≡ front n (passage_in self.entry) }
    {
        let (text, _) = self.text.split_at(n);
        Passage { at: self.at, text }
    }

    // What stands behind the first n bytes.
    pub(crate) fn behind(self, n: usize) -> Passage<'a>
        requires { n ≤ length self.text.now }
        ensures value { passage_in result ≡ behind n (passage_in self.entry) }
        ensures shorter { length result.text.now + n ≡ length self.entry.text.now }
    {
        let (_, text) = self.text.split_at(n);
        Passage {
            at: self.at + n,
            text,
        }
    }

    // The passage without the blanks at its front.
    pub(crate) fn begun(self) -> Passage<'a>
        ensures value { passage_in result ≡ begun (passage_in self.entry) }
        ensures within { length result.text.now ≤ length self.entry.text.now }
    {
        let text = skip_blanks(self.text);
        Passage {
            at: self.at + (self.text.len() - text.len()),
            text,
        }
    }

    // The passage without the blanks at its end.
    pub(crate) fn ended(self) -> Passage<'a>
        ensures { passage_in result ≡ ended (passage_in self.entry) }
    {
        let text = drop_blanks(self.text);
        Passage { at: self.at, text }
    }

    // The passage without the blanks at its ends.
    pub(crate) fn trimmed(self) -> Passage<'a>
        ensures { passage_in result ≡ trimmed (passage_in self.entry) }
    {
        self.begun().ended()
    }

    // What stands before the first such byte, or all of it.
    pub(crate) fn until(self, mark: u8) -> Passage<'a>
        ensures { passage_in result ≡ until mark (passage_in self.entry) }
    {
        match find(mark, self.text) {
            Some(n) => self.front(n),
            None => self,
        }
    }

    // What stands behind the first such byte, if there is one.
    pub(crate) fn beyond(self, mark: u8) -> Option<Passage<'a>>
        ensures value { passage_there result ≡ beyond mark (passage_in self.entry) }
        ensures shorter { IfSome result
            (λ rest. length rest.text.now < length self.entry.text.now) }
    {
        match find(mark, self.text) {
            Some(n) => Some(self.behind(n + 1)),
            None => None,
        }
    }

    // Whether nothing but blanks stands here.
    pub(crate) fn is_blank(self) -> bool
        ensures { result ≡ is_nil (skip_blanks self.entry.text.now) }
    {
        skip_blanks(self.text).is_empty()
    }
}
