// The file's numbers: unsigned, of 32 bits, least significant byte first.
ghost use Rattle.std.specs.Prelude.{◌≡◌, ◌+◌, length, get_or};
ghost use Rattle.calculus.specs.Numbers.Lists.{list_of};
ghost use Rattle.stream.specs.Format.{number_at};

// A byte past the end counts as 0.
fn byte_at(file: &[u8], at: usize) -> u8
    ensures { result ≡ get_or file.now at 0 }
{
    file.get(at).copied().unwrap_or(0)
}

// The number at a place of the file, places counted in numbers. One past the end is not looked for, so that no place is too large.
pub fn number_at(file: &[u8], i: usize) -> u32
    ensures { result ≡ number_at file.now i }
{
    if i > file.len() / 4 {
        return 0;
    }
    let at = 4 * i;
    u32::from_le_bytes([
        byte_at(file, at),
        byte_at(file, at + 1),
        byte_at(file, at + 2),
        byte_at(file, at + 3),
    ])
}

// Fills a lent list with the numbers from a place on.
pub fn fill(file: &[u8], from: u32, out: &mut [u32])
    ensures { out.new ≡ list_of (λ k. number_at file.now (from + k)) (length out.old) }
{
    for (k, number) in out.iter_mut().enumerate() {
        *number = number_at(file, from as usize + k);
    }
}
