//! Slips of one book whose lines change and are taken back, in one thread and in two.

ghost use Rattle.std.specs.Prelude.{◌≡◌, [], ◌∷◌, ◌++◌, length, slice_set, Some, None};
ghost use Rattle.pass_book.specs.Lines.{HasLine};

use crate::{Book, Line, Naming, NewLine, Slip, Unnamed};
use std::marker::{Brand, Model, PhantomData};
use std::sync::{Mutex, Wait};
use std::test::Fail;
use std::thread::{Threads, join};

// A line that is a number. No value of it is made.
struct Count {
    of: PhantomData<()>,
}

impl Model for Count {
    ghost use Rattle.std.specs.Prelude.{ℕ};
    ghost use Rattle.std.specs.Coded.{coded_ℕ};

    ghost Value = { ℕ };

    ghost coded = { coded_ℕ };

    ghost view = { λ _. 0 };
}

impl Line for Count {
    ghost blank = { 0 };
}

impl NewLine<Count> for Brand {
    ghost line = { 0 };
}

// A slip with this line.
fn issue_count<N: Naming, W: NewLine<Count>>(
    book: &mut Book<N, Count>,
    count: u64,
) -> Slip<N, Count>
    requires { W.line ≡ count }
    ensures lines { book.new ≡ book.old ++ Some count ∷ [] }
    ensures slip { result ≡ (length book.old, count) }
{
    book.issue::<W>()
}

// The slip with another line.
fn set_count<N: Naming, W: NewLine<Count>>(
    book: &mut Book<N, Count>,
    slip: &mut Slip<N, Count>,
    count: u64,
)
    requires { W.line ≡ count }
    ensures lines { book.new ≡ slice_set book.old slip.old.0 (Some count) }
    ensures slip { slip.new ≡ (slip.old.0, count) }
{
    book.set::<W>(slip);
}

// Two slips, of which the second gets another line and the first is taken back.
fn use_two_slips<N: Naming>(book: &mut Book<N, Count>)
    requires { book.old ≡ [] }
    ensures { book.new ≡ None ∷ Some 7 ∷ [] }
{
    let first = issue_count::<N, Brand>(book, 3);
    let mut second = issue_count::<N, Brand>(book, 5);
    set_count::<N, Brand>(book, &mut second, 7);
    book.take_back(first);
    book.agree(&mut second);
}

// The next number after both is 2.
fn use_three_slips<N: Naming>(unnamed: Unnamed<Count>)
    requires { unnamed ≡ N.table }
{
    let mut book = Book::<N, Count>::open(unnamed);
    use_two_slips(&mut book);
    drop(issue_count::<N, Brand>(&mut book, 1));
}

#[test]
fn changes_one_line_and_takes_back_another(rt: HostRuntime) -> Result<(), Fail> {
    let unnamed = Unnamed::new(rt.alloc())?;
    use_three_slips::<Brand>(unnamed);
    Ok(())
}

// In one thread: a slip whose line is changed again and again, beside slips that are issued and taken
// back. It has this line at the end.
fn change_often<N: Naming, R: Wait>(
    rt: &R,
    shared: &Mutex<Book<N, Count>>,
    count: u64,
) -> Slip<N, Count>
    ensures { result.1 ≡ count }
{
    let mut kept = issue_count::<N, Brand>(&mut shared.lock(rt), 0);
    for turn in 0..500 {
        let other = issue_count::<N, Brand>(&mut shared.lock(rt), 1);
        set_count::<N, Brand>(&mut shared.lock(rt), &mut kept, turn);
        shared.lock(rt).take_back(other);
    }
    set_count::<N, Brand>(&mut shared.lock(rt), &mut kept, count);
    kept
}

// Both threads' slips have their own lines in the book, whatever the other thread did.
fn change_in_two_threads<N: Naming + Send + Sync, R: Threads + Wait + Sync>(
    rt: &R,
    unnamed: Unnamed<Count>,
) -> (Book<N, Count>, Slip<N, Count>, Slip<N, Count>)
    requires { unnamed ≡ N.table }
    ensures one { HasLine result.0 result.1.0 3 }
    ensures other { HasLine result.0 result.2.0 5 }
{
    let shared = Mutex::new(Book::<N, Count>::open(unnamed));
    let (mut one, mut other) = join(
        rt,
        || -> Slip<N, Count>
            ensures { result.1 ≡ 3 }
        { change_often(rt, &shared, 3) },
        || -> Slip<N, Count>
            ensures { result.1 ≡ 5 }
        { change_often(rt, &shared, 5) },
    );
    let mut book = shared.into_inner();
    book.agree(&mut one);
    book.agree(&mut other);
    (book, one, other)
}

fn use_two_threads<N: Naming + Send + Sync, R: Threads + Wait + Sync>(
    rt: &R,
    unnamed: Unnamed<Count>,
)
    requires { unnamed ≡ N.table }
{
    drop(change_in_two_threads::<N, R>(rt, unnamed));
}

#[test]
fn changes_lines_in_two_threads(rt: HostRuntime) -> Result<(), Fail> {
    let unnamed = Unnamed::new(rt.alloc())?;
    use_two_threads::<Brand, _>(&rt, unnamed);
    Ok(())
}
