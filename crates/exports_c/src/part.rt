// The stream file's reader from C or Rust: where a file's counts stand.
ghost use Rattle.std.specs.Prelude.{◌≡◌};
ghost use Rattle.c_answers.specs.Numbered.{part_of};

use c_answers::answer::Part;

// The reader's part of a file, which ends where the file ends; a refused file's number, and the empty part at its start.
#[unsafe(no_mangle)]
pub extern "C" fn bezhantiru_counts_part(file: &[u8]) -> Part
    ensures { result ≡ part_of file.now }
{
    exports::part::bezhantiru_counts_part(file)
}
