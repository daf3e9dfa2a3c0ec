// Text put into a lent buffer, one part behind the other. (Not by `write!`: its contract lets it fail, and a listing is promised outright.)
ghost use Rattle.std.specs.Prelude.{◌≡◌, ◌<◌};
ghost use Rattle.listing.specs.Text.{digit, hex, decimal};
ghost use Rattle.listing.specs.Puts.{Fits, Puts};

// A lent buffer, and how many bytes of text stand at its front: the next is put behind them.
#[derive(Drop)]
pub struct Text<'a> {
    out: &'a mut [u8],
    pub at: usize,
}

// The character of a digit: 0 to 9, then A to F.
fn digit(d: u64) -> u8
    requires { d < 16 }
    ensures { result ≡ digit d }
{
    let value = d as u8;
    if value < 10 {
        b'0' + value
    } else {
        b'A' + (value - 10)
    }
}

impl<'a> Text<'a> {
    // No text.
    pub fn new(out: &'a mut [u8]) -> Text<'a>
        ensures lent { result.out.ghost_name ≡ out.entry.ghost_name }
        ensures same { result.out.now ≡ out.old }
        ensures none { result.at ≡ 0 }
    {
        Text { out, at: 0 }
    }

    // Fixed bytes.
    pub fn put(&mut self, bytes: &[u8])
        requires { Fits self.old bytes.now }
        ensures { Puts self.old self.new bytes.now }
    {
        let end = self.at + bytes.len();
        self.out[self.at..end].copy_from_slice(bytes);
        self.at = end;
    }

    // The lowest so many hex digits of a number, highest first.
    pub fn put_hex(&mut self, n: u64, digits: usize)
        requires { Fits self.old (hex digits n) }
        ensures { Puts self.old self.new (hex digits n) }
    {
        if digits == 0 {
            return;
        }
        self.put_hex(n / 16, digits - 1);
        self.put(&[digit(n % 16)]);
    }

    // A number in decimal, without leading zeros.
    pub fn put_decimal(&mut self, n: u64)
        requires { Fits self.old (decimal 20 n) }
        ensures { Puts self.old self.new (decimal 20 n) }
    {
        let mut digits = itoa::Buffer::new();
        self.put(digits.format(n).as_bytes());
    }
}
