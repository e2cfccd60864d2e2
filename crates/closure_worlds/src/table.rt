//! Requests whose answers were worked out by hand.

use crate::arrival;
use crate::ask::Ask;
use crate::dice::Dice;
use crate::row::{Row, rows_of};
use crate::worlds::Tally;
use anyhow::Context;
use std::alloc::Global;

// Three channels with two subdirs. The names a and b need each other, c needs itself, nobody lists
// ghost, the shard of x has a record of y, the index of p lists Up in upper case, and the newer file
// beside that of z is of another name.
const WORLD: &str = "\
m l a conda a-1-0.conda a 1 b,c
m l a conda a-2-0.conda a 2 b >=1,d
m l a tar a-1-0.tar.bz2 a 1 e
m l b conda b-1-0.conda b 1 a
m l c tar c-1-0.tar.bz2 c 1 c
m n d conda d-1-0.conda d 1 -
m n e conda e-1-0.conda e 1 ghost
f l a conda a-3-0.conda a 3 g
f l g conda g-1-0.conda g 1 a
f n b conda b-2-0.conda b 2 -
f n h tar h-1-0.tar.bz2 h 1 i
f n h conda h-1-0.conda h 1 -
f n i tar i-1-0.tar.bz2 i 1 -
p l x conda x-1-0.conda x 1 a
p l x conda y-1-0.conda y 1 h
p n Up conda up-1-0.conda up 1 -
p n up2 conda up2-1-0.conda UP2 1 B
p n z tar z-1-0.tar.bz2 z 1 -
p n z conda z-1-0.conda other 1 -
p l q conda q-1-0.conda q 1 up
";

// What is asked, and the files of the answer.
const ROWS: [&str; 30] = [
    "m|l,n|deep|prefer-conda|flexible|a => m/l/a-1-0.conda m/l/a-2-0.conda m/l/b-1-0.conda \
     m/l/c-1-0.tar.bz2 m/n/d-1-0.conda",
    "m|l,n|deep|all|flexible|a => m/l/a-1-0.conda m/l/a-1-0.tar.bz2 m/l/a-2-0.conda \
     m/l/b-1-0.conda m/l/c-1-0.tar.bz2 m/n/d-1-0.conda m/n/e-1-0.conda",
    "m|l|deep|prefer-conda|flexible|a => m/l/a-1-0.conda m/l/a-2-0.conda m/l/b-1-0.conda \
     m/l/c-1-0.tar.bz2",
    "m,f|l,n|deep|prefer-conda|flexible|a => m/l/a-1-0.conda m/l/a-2-0.conda m/l/b-1-0.conda \
     m/l/c-1-0.tar.bz2 m/n/d-1-0.conda f/l/a-3-0.conda f/l/g-1-0.conda f/n/b-2-0.conda",
    "m,f|l,n|deep|prefer-conda|strict|a => m/l/a-1-0.conda m/l/a-2-0.conda m/l/b-1-0.conda \
     m/l/c-1-0.tar.bz2 m/n/d-1-0.conda",
    "f,m|l,n|deep|prefer-conda|strict|a => f/l/a-3-0.conda f/l/g-1-0.conda",
    "f,m|l,n|deep|prefer-conda|flexible|a => f/l/a-3-0.conda f/l/g-1-0.conda f/n/b-2-0.conda \
     m/l/a-1-0.conda m/l/a-2-0.conda m/l/b-1-0.conda m/l/c-1-0.tar.bz2 m/n/d-1-0.conda",
    "m,f|n,l|deep|prefer-conda|flexible|a => m/n/d-1-0.conda m/l/a-1-0.conda m/l/a-2-0.conda \
     m/l/b-1-0.conda m/l/c-1-0.tar.bz2 f/n/b-2-0.conda f/l/a-3-0.conda f/l/g-1-0.conda",
    "m,f|l,n|flat|prefer-conda|flexible|a => m/l/a-1-0.conda m/l/a-2-0.conda f/l/a-3-0.conda",
    "m,f|l,n|flat|prefer-conda|strict|a => m/l/a-1-0.conda m/l/a-2-0.conda",
    "m,f|l,n|deep|prefer-conda|flexible|a >=2 => m/l/a-2-0.conda m/l/b-1-0.conda m/n/d-1-0.conda \
     f/l/a-3-0.conda f/l/g-1-0.conda f/n/b-2-0.conda",
    "m,f|l,n|deep|prefer-conda|strict|a >=3 => ",
    "m,f|l,n|flat|prefer-conda|flexible|a ==1;a ==3 => m/l/a-1-0.conda f/l/a-3-0.conda",
    "m,f|l,n|flat|prefer-conda|strict|a ==1;a ==3 => m/l/a-1-0.conda",
    "m|l,n|deep|prefer-conda|flexible|b;a ==2 => m/l/a-2-0.conda m/l/b-1-0.conda m/n/d-1-0.conda",
    "m|l,n|deep|prefer-conda|strict|ghost => ",
    "m|l|deep|prefer-conda|strict|c => m/l/c-1-0.tar.bz2",
    "m,f|l,n|deep|prefer-conda|flexible|- => ",
    "-|l,n|deep|prefer-conda|strict|a => ",
    "m,f|-|deep|prefer-conda|flexible|a => ",
    "p|l,n|deep|prefer-conda|flexible|x => p/l/x-1-0.conda",
    "m,p|l,n|deep|prefer-conda|strict|x => m/l/a-1-0.conda m/l/a-2-0.conda m/l/b-1-0.conda \
     m/l/c-1-0.tar.bz2 m/n/d-1-0.conda p/l/x-1-0.conda",
    "p|l,n|deep|prefer-conda|flexible|q => p/l/q-1-0.conda",
    "p|n|deep|prefer-conda|strict|Up => ",
    "p,m|l,n|deep|prefer-conda|strict|up2 => p/n/up2-1-0.conda m/l/a-1-0.conda m/l/a-2-0.conda \
     m/l/b-1-0.conda m/l/c-1-0.tar.bz2 m/n/d-1-0.conda",
    "p|l,n|deep|prefer-conda|flexible|z => p/n/z-1-0.tar.bz2",
    "f|l,n|deep|prefer-conda|strict|h => f/n/h-1-0.conda",
    "f|l,n|deep|all|strict|h => f/n/h-1-0.conda f/n/h-1-0.tar.bz2 f/n/i-1-0.tar.bz2",
    "m,f|l,n|deep|prefer-conda|strict|f::a => ",
    "m,b1,b2,b3,b4,b5,b6,b7,b8,b9,b10,b11,b12,b13,b14,f|l,t1,t2,t3,t4,t5,t6,t7,t8,t9,t10,t11,t12,t13,\
     t14,n|deep|prefer-conda|strict|g => m/l/a-1-0.conda m/l/a-2-0.conda m/l/b-1-0.conda \
     m/l/c-1-0.tar.bz2 m/n/d-1-0.conda f/l/g-1-0.conda",
];

// Whether a row of the table is answered so.
fn is_right(alloc: Global, rows: &[Row<'_>], text: &str, dice: &mut Dice) -> anyhow::Result<bool> {
    let (asked, files) = text.split_once(" => ").context("a row has no answer")?;
    let ask = Ask::read(asked).context("a row asks nothing")?;
    let answer = arrival::answer(alloc, rows, ask.request(alloc)?, dice)?;
    Ok(answer.as_str().trim_end() == files)
}

/// How many requests there are, and how many are answered otherwise.
pub(crate) fn run(alloc: Global) -> anyhow::Result<Tally> {
    let rows = rows_of(alloc, WORLD)?;
    let mut dice = Dice::new(17);
    let mut tally = Tally::new();
    for text in ROWS {
        tally.add(is_right(alloc, rows.as_slice(), text, &mut dice)?);
    }
    Ok(tally)
}
