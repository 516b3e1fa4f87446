// Bytes put into a lent slice from a place on; those after its end are left out. The answer is the place after them, or the end.
ghost use Rattle.std.specs.Prelude.{[], ◌∷◌};
ghost use Rattle.text.specs.Put.{Put};

// By itself, and not as a word of one byte: digits come one by one, and copying a word is a call.
pub fn put_byte(byte: u8, out: &mut [u8], at: usize) -> usize
    ensures { Put out.old at (byte ∷ []) out.new result }
{
    if at < out.len() {
        out[at] = byte;
        at + 1
    } else {
        out.len()
    }
}

pub fn put_word(word: &[u8], out: &mut [u8], at: usize) -> usize
    ensures { Put out.old at word.now out.new result }
{
    let from = at.min(out.len());
    let to = from + word.len().min(out.len() - from);
    out[from..to].copy_from_slice(&word[..to - from]);
    to
}
