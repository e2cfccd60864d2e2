//! The order of two parts of versions, and which parts begin with another.

ghost use Rattle.std.specs.Prelude.{◌≡◌, ◌&&◌, ◌||◌, map, true};
ghost use Rattle.std.specs.Ordering.{is_eq, nat_cmp, ordering_then};
ghost use Rattle.std.specs.Cmp.Lexicographic.{slice_cmp};
ghost use Rattle.conda_version.specs.Cursor.{word_run};
ghost use Rattle.conda_version.specs.Order.{begins_with, lists_begin, lists_cmp, rank, run_begins, run_cmp};
ghost use Rattle.conda_version.specs.Grammar.{is_narrow};
ghost use Rattle.byte_text.specs.Text.{is_nil};
ghost use Rattle.conda_version.specs.Version.{folded, lists};

use crate::cursor::{Step, behind, both_at_end, both_empty, both_go_on, folded, next_step};
use std::cmp::Ordering;

// Compares two words by their folded bytes.
fn compare_folded(v: &[u8], w: &[u8]) -> Ordering
    ensures { result ≡ slice_cmp nat_cmp (map folded v.now) (map folded w.now) }
{
    let mut left = v;
    let mut right = w;
    'bytes: while let [a, left_tail @ ..] = left {
        let [b, right_tail @ ..] = right else {
            return Ordering::Greater;
        };
        let order = folded(*a).cmp(&folded(*b));
        if order != Ordering::Equal {
            return order;
        }
        left = left_tail;
        right = right_tail;
    }
    if right.is_empty() {
        Ordering::Equal
    } else {
        Ordering::Less
    }
}

// Whether the folded bytes of a word are this text in lower case.
fn is_folded(word: &[u8], text: &[u8]) -> bool
    ensures { result ≡ is_eq (slice_cmp nat_cmp (map folded word.now) (map folded text.now)) }
{
    compare_folded(word, text) == Ordering::Equal
}

// Where a word stands among `dev`, other words, numbers and `post`.
fn rank(word: &[u8]) -> u8
    ensures { result ≡ rank (word_run word.now) }
{
    if word.is_empty() {
        2
    } else if is_folded(word, b"dev") {
        0
    } else if is_folded(word, b"post") {
        3
    } else {
        1
    }
}

// Compares two words; a missing one counts as 0.
fn compare_words(v: &[u8], w: &[u8]) -> Ordering
    ensures { result ≡ run_cmp (word_run v.now) (word_run w.now) }
{
    rank(v).cmp(&rank(w)).then(compare_folded(v, w))
}

// Compares two numbers, and where they are equal the words behind them.
fn step_cmp(x: Step<'_>, y: Step<'_>) -> Ordering
    ensures { result ≡ ordering_then (nat_cmp x.entry.number y.entry.number)
        (run_cmp (word_run x.entry.word.now) (word_run y.entry.word.now)) }
{
    x.number.cmp(&y.number).then(compare_words(x.word, y.word))
}

// Compares two parts; what one of them lacks counts as 0.
pub(crate) fn compare_parts(a: &[u8], b: &[u8]) -> Ordering
    requires left { is_narrow a.now ≡ true }
    requires right { is_narrow b.now ≡ true }
    ensures { result ≡ lists_cmp (lists a.now) (lists b.now) }
{
    let mut left = a;
    let mut right = b;
    'steps: while !both_empty(left, right) {
        if both_at_end(left, right) {
            left = behind(left);
            right = behind(right);
        } else {
            let x = next_step(left);
            let y = next_step(right);
            let order = step_cmp(x, y);
            if order != Ordering::Equal {
                return order;
            }
            left = x.rest;
            right = y.rest;
        }
    }
    Ordering::Equal
}

// Whether the first word begins with the second.
fn has_prefix(v: &[u8], p: &[u8]) -> bool
    ensures { result ≡ begins_with (map folded v.now) (map folded p.now) }
{
    let mut left = v;
    let mut right = p;
    'bytes: while let [b, right_tail @ ..] = right {
        let [a, left_tail @ ..] = left else {
            return false;
        };
        if folded(*a) != folded(*b) {
            return false;
        }
        left = left_tail;
        right = right_tail;
    }
    true
}

// Whether a word is another, or goes on behind it.
fn word_begins(v: &[u8], p: &[u8]) -> bool
    ensures { result ≡ run_begins (word_run v.now) (word_run p.now) }
{
    compare_words(v, p) == Ordering::Equal || rank(v) == 1 && rank(p) == 1 && has_prefix(v, p)
}

// Whether the last step of a version begins this step of another.
fn last_begins(x: Step<'_>, y: Step<'_>) -> bool
    ensures { result ≡ (is_eq (nat_cmp x.entry.number y.entry.number)
        && (is_nil y.entry.word.now
        || run_begins (word_run x.entry.word.now) (word_run y.entry.word.now))) }
{
    x.number.cmp(&y.number) == Ordering::Equal && (y.word.is_empty() || word_begins(x.word, y.word))
}

// Whether a part begins with another; what it lacks counts as 0.
pub(crate) fn begins(v: &[u8], p: &[u8]) -> bool
    requires left { is_narrow v.now ≡ true }
    requires right { is_narrow p.now ≡ true }
    ensures { result ≡ lists_begin (lists v.now) (lists p.now) }
{
    let mut left = v;
    let mut right = p;
    'steps: loop {
        if both_go_on(left, right) {
            left = behind(left);
            right = behind(right);
        } else {
            let x = next_step(left);
            let y = next_step(right);
            if y.rest.is_empty() {
                return last_begins(x, y);
            }
            let order = step_cmp(x, y);
            if order != Ordering::Equal {
                return false;
            }
            left = x.rest;
            right = y.rest;
        }
    }
}
