//! The words of a command line.
ghost use Rattle.std.specs.Prelude.{◌≡◌, IfOk, map};

use mp_codec::Text;
use std::alloc::{AllocError, Global};

/// These words, each as a text of its own, in their order.
///
/// `AllocError` where the memory isn't there.
pub fn words_of(alloc: Global, words: &[&str]) -> Result<Vec<Text>, AllocError>
    ensures { IfOk result (λ texts. texts.items ≡ map (λ word. word.now) words.now) }
{
    let mut texts = Vec::new(alloc);
    for word in words {
        texts.push(Text::copy(alloc, word)?)?;
    }
    Ok(texts)
}
