ghost use Rattle.std.specs.Prelude.{◌≡◌, map, IfOk};
ghost use Rattle.case_lines.specs.Words.{texts, words_of};

use std::alloc::{AllocError, Global};

const BLANK: u8 = b' ';

// The words of a line.
pub(crate) fn words(alloc: Global, text: &[u8]) -> Result<Vec<&[u8]>, AllocError>
    ensures { IfOk result (λ words. texts words.items ≡ words_of text.now) }
{
    text.split(|byte| *byte == BLANK)
        .filter(|word| !word.is_empty())
        .collect(alloc)
}
