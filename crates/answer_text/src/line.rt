//! The line of a record.
ghost use Rattle.std.specs.Prelude.{◌≡◌, [], ◌∷◌, ◌++◌, length, take, OnOk, OnErr};
ghost use Rattle.gateway_words.specs.Ascii.{space};
ghost use Rattle.conda_record.specs.View.{seen};
ghost use Rattle.answer_text.specs.Text.{shown, record_line};

use crate::text::put_shown;
use conda_record::RecordView;
use itoa::Buffer;
use mp_codec::cut_back;
use std::alloc::AllocError;

/// Appends the line of the record of a file: `FILE VERSION BUILD BUILD_NUMBER` and a newline.
///
/// At want of memory the vector is as before.
pub fn put_record_line(
    out: &mut Vec<u8>,
    file: &str,
    view: RecordView<'_>,
) -> Result<(), AllocError>
    ensures ok { OnOk result (out.new.items
        ≡ out.old.items ++ record_line file.now (seen view.entry)) }
    ensures unchanged { OnErr result (out.new.items ≡ out.old.items) }
{
    let old = out.len();
    let outcome = put_words(out, file, view);
    cut_back(out, old, outcome)
}

// Appends the line; at want of memory some of it may stand.
fn put_words(out: &mut Vec<u8>, file: &str, view: RecordView<'_>) -> Result<(), AllocError>
    ensures ok { OnOk result (out.new.items
        ≡ out.old.items ++ record_line file.now (seen view.entry)) }
    ensures kept { OnErr result (take (length out.old.items) out.new.items ≡ out.old.items) }
{
    put_word(out, file)?;
    put_word(out, view.version())?;
    put_word(out, view.build())?;
    out.extend_from_slice(Buffer::new().format(view.build_number()).as_bytes())?;
    out.push(b'\n')?;
    Ok(())
}

// Appends a text and a blank.
fn put_word(out: &mut Vec<u8>, text: &str) -> Result<(), AllocError>
    ensures ok { OnOk result (out.new.items ≡ out.old.items ++ (shown text.now ++ space ∷ [])) }
    ensures kept { OnErr result (take (length out.old.items) out.new.items ≡ out.old.items) }
{
    put_shown(out, text)?;
    out.push(b' ')?;
    Ok(())
}
