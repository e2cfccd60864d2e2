//! Build numbers and comparisons with them.

ghost use Rattle.std.specs.Prelude.{◌≡◌, ◌+◌, ◌-◌, ◌*◌, ◌^◌, ◌<◌, ◌≤◌, IfNone, IfSome};

use byte_text::{are_digits, decimal, sign_len};

// How a build number has to stand to that of a test.
#[derive(Clone, Copy, Debug)]
pub(crate) enum Comparison {
    Equal,
    NotEqual,
    Less,
    AtMost,
    Greater,
    AtLeast,
}

// A comparison with a build number.
#[derive(Clone, Copy, Debug)]
pub(crate) struct NumberTest {
    pub(crate) comparison: Comparison,
    pub(crate) number: u64,
}

impl NumberTest {
    ghost use Rattle.match_spec.specs.Number.{number_test, passes};
    ghost use Rattle.match_spec.specs.Seen.{test_in, test_there};

    // The test that a text spells, if it is one.
    pub(crate) fn read(text: &[u8]) -> Option<NumberTest>
        ensures { test_there result ≡ number_test text.now }
    {
        let (run, digits) = text.split_at(sign_len(text));
        let comparison = comparison_of(run)?;
        let number = number_of(digits)?;
        Some(NumberTest { comparison, number })
    }

    // Whether a build number passes the test.
    pub(crate) fn passes(self, number: u64) -> bool
        ensures { result ≡ passes (test_in self) number }
    {
        match self.comparison {
            Comparison::Equal => number == self.number,
            Comparison::NotEqual => number != self.number,
            Comparison::Less => number < self.number,
            Comparison::AtMost => number <= self.number,
            Comparison::Greater => number > self.number,
            Comparison::AtLeast => number >= self.number,
        }
    }
}

ghost use Rattle.byte_text.specs.Decimal.{decimal_from};
ghost use Rattle.match_spec.specs.Number.{comparison_of, number_of};
ghost use Rattle.match_spec.specs.Seen.{comparison_there};

// The comparison that a run of signs is, if it is one; none means equal.
fn comparison_of(run: &[u8]) -> Option<Comparison>
    ensures { comparison_there result ≡ comparison_of run.now }
{
    match run {
        b"" | b"==" => Some(Comparison::Equal),
        b"!=" => Some(Comparison::NotEqual),
        b"<" => Some(Comparison::Less),
        b"<=" => Some(Comparison::AtMost),
        b">" => Some(Comparison::Greater),
        b">=" => Some(Comparison::AtLeast),
        _ => None,
    }
}

// The number that a text is, if it is one.
fn number_of(text: &[u8]) -> Option<u64>
    ensures { result ≡ number_of text.now }
{
    if text.is_empty() || !are_digits(text) {
        return None;
    }
    decimal(text)
}
