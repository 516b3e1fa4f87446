// The stream file's reader from C or Rust: where a file's counts stand.
ghost use Rattle.std.specs.Prelude.{◌≡◌};
ghost use Rattle.c_answers.specs.Numbered.{part_of};

use c_answers::answer::Part;
use stream::judge::file_refusal;
use stream::read::counts_of;

// The reader's part of a file, which ends where the file ends; a refused file's number, and the empty part at its start.
pub fn bezhantiru_counts_part(file: &[u8]) -> Part
    ensures { result ≡ part_of file.now }
{
    let part = counts_of(file);
    let bytes = part.len() as u64;
    match file_refusal(file) {
        Ok(()) => Part {
            number: 0,
            from: (file.len() - part.len()) as u64,
            bytes,
        },
        Err(refusal) => Part {
            number: refusal.number(),
            from: 0,
            bytes,
        },
    }
}
