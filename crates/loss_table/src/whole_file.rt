// From a reader of a stream file to the writer of its printed text.
// A file is cut after 65,536 bytes. It is then longer than any legal one, and cut or whole has the same text (proofs/LongFile.antt).
ghost use Rattle.std.specs.Prelude.{◌≡◌, take, IfOk, OnOk, IfSome};
ghost use Rattle.std.specs.Io.KnownBytes.{Appends};
ghost use Rattle.loss_table.specs.Text.{printed_text};

use crate::file_text::{ROOM, loss_text};
use std::alloc::Global;
use std::io::{self, Read, Write};

const MOST_BYTES: u64 = 65_536;

// A file's bytes, up to so many.
fn file_start<R: Read>(alloc: Global, reader: R) -> io::Result<Vec<u8>>
where
    R: Drop,
    ensures { IfOk result (λ start. IfSome (R.remaining reader) (λ file. start.items ≡ take 65536 file)) }
{
    let mut file = Vec::new(alloc);
    reader.take(MOST_BYTES).read_to_end(&mut file)?;
    Ok(file)
}

// Reads a file, and writes the text for its bytes, whatever they are and however many.
pub fn print_loss_text<R: Read, W: Write>(alloc: Global, reader: R, out: &mut W) -> io::Result<()>
where
    R: Drop,
    ensures { OnOk result (IfSome (R.remaining reader) (λ file. Appends (W.contents out.old) (W.contents out.new) (printed_text file))) }
{
    let file = file_start(alloc, reader)?;
    let mut text = [0; ROOM];
    let length = loss_text(&file, &mut text);
    out.write_all(&text[..length])
}
