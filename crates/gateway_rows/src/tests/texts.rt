//! What is printed of a record.

use crate::tests::{ROOM, seen};
use crate::{bytes_of, show, sink};
use gateway_tool::OK;
use std::test::Fail;

// Four files: of `coffee`, and of `tea` in each case of its letters, one name in both maps. Their
// texts have control characters, an empty version, an e with an acute accent and U+0080.
const TEA: &str = "82
    a8 7061636b61676573 82
        af 7465612d322d302e7461722e627a32 85
            a4 6e616d65 a3 546561
            a7 76657273696f6e a2 327f
            a5 6275696c64 a2 0930
            ac 6275696c645f6e756d626572 07
            a7 646570656e6473 92 a5 61203e3d31 a2 620a
        b2 636f666665652d312d302e7461722e627a32 83
            a4 6e616d65 a6 636f66666565
            a7 76657273696f6e a1 31
            a5 6275696c64 a1 30
    ae 7061636b616765732e636f6e6461 82
        af 7465612d322d302e7461722e627a32 85
            a4 6e616d65 a3 746561
            a7 76657273696f6e a1 33
            a5 6275696c64 a1 31
            ac 6275696c645f6e756d626572 cf ffffffffffffffff
            a7 646570656e6473 90
        ac 7465611f2d312e636f6e6461 85
            a4 6e616d65 a3 744541
            a7 76657273696f6e a0
            a5 6275696c64 a6 c3a9c2802030
            ac 6275696c645f6e756d626572 cc c8
            a7 646570656e6473 91 a2 0063";

#[test]
fn prints_records_by_file_with_their_depends(rt: HostRuntime) -> Result<(), Fail> {
    let alloc = rt.alloc();
    for (name, text) in [
        (
            "TEa",
            "tea?-1.conda  \u{e9}\u{80} 0 200\n  ?c\n\
             tea-2-0.tar.bz2 2? ?0 7\n  a >=1\n  b?\n\
             tea-2-0.tar.bz2 3 1 18446744073709551615\n",
        ),
        ("coffee", "coffee-1-0.tar.bz2 1 0 0\n"),
        ("te", ""),
        ("teas", ""),
    ] {
        let mut out = sink(alloc, ROOM, usize::MAX, &[])?;
        let answer = show(alloc, name, bytes_of(alloc, TEA)?, &mut out)?;
        assert_eq!(rt; seen(answer), (OK, None), "{name}");
        assert_eq!(rt; out.written(), text.as_bytes(), "{name}");
    }
    Ok(())
}
