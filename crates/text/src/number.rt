// A number in base ten.
ghost use Rattle.std.specs.Prelude.{◌≡◌};
ghost use Rattle.text.specs.Digits.{last_digit, digits};
ghost use Rattle.text.specs.Put.{Put};

use crate::bytes::put_byte;

fn last_digit(n: u64) -> u8
    ensures { result ≡ last_digit n }
{
    b'0' + (n % 10) as u8
}

// The digits of a tenth of the number stand before its last digit.
pub fn put_number(n: u64, out: &mut [u8], at: usize) -> usize
    ensures { Put out.old at (digits n) out.new result }
{
    if n < 10 {
        return put_byte(last_digit(n), out, at);
    }
    let place = put_number(n / 10, out, at);
    put_byte(last_digit(n), out, place)
}
