// A page: a lent buffer, and the place in it where the next character goes. What has no room is not written, and the place then is the
// buffer's end. Rests on nothing.
ghost use Rattle.std.specs.Prelude.{◌≡◌, [], ◌∷◌, ◌%◌};
ghost use Rattle.writing.specs.Written.{glyph, decimal_of, pair_of, pairs_of};
ghost use Rattle.writing.specs.Pages.{with_text, glyph_in, digits_of};

// A lent buffer, and the place in it where the next character goes.
#[derive(Drop)]
pub struct Page<'a> {
    pub out: &'a mut [u8],
    pub at: usize,
}

// Whether the hexadecimal digits above 9 are `a` to `f` or `A` to `F`.
#[derive(Clone, Copy)]
pub enum Case {
    Lower,
    Upper,
}

// The character of a hexadecimal digit; of a number above 15, that of its remainder.
fn digit_char(case: Case, d: u8) -> u8
    ensures { result ≡ glyph_in case (d % 16) }
{
    let low = d % 16;
    if low < 10 {
        return b'0' + low;
    }
    match case {
        Case::Lower => b'a' - 10 + low,
        Case::Upper => b'A' - 10 + low,
    }
}

// The last decimal digit of a number.
fn last_digit(n: u64) -> u8
    ensures { result ≡ glyph (n % 10) }
{
    b'0' + (n % 10) as u8
}

impl Page<'_> {
    // One character.
    pub fn put_byte(&mut self, c: u8)
        ensures { self.new ≡ with_text self.old (c ∷ []) }
    {
        if self.at < self.out.len() {
            self.out[self.at] = c;
            self.at += 1;
        }
    }

    // The characters of a text.
    pub fn put(&mut self, s: &[u8])
        ensures { self.new ≡ with_text self.old s.now }
    {
        for c in s {
            self.put_byte(*c);
        }
    }

    // A number in decimal, with no zeros before it. Kept: not by write!, whose contract says what is written only where all of it has room.
    pub fn put_decimal(&mut self, n: u64)
        ensures { self.new ≡ with_text self.old (decimal_of n) }
    {
        if n >= 10 {
            self.put_decimal(n / 10);
        }
        self.put_byte(last_digit(n));
    }

    // A byte as two hexadecimal digits.
    pub fn put_digits(&mut self, case: Case, b: u8)
        ensures { self.new ≡ with_text self.old (digits_of case b) }
    {
        self.put_byte(digit_char(case, b / 16));
        self.put_byte(digit_char(case, b));
    }

    // The same, in small letters.
    pub fn put_pair(&mut self, b: u8)
        ensures { self.new ≡ with_text self.old (pair_of b) }
    {
        self.put_digits(Case::Lower, b);
    }

    // Bytes, two hexadecimal digits each.
    pub fn put_pairs(&mut self, s: &[u8])
        ensures { self.new ≡ with_text self.old (pairs_of s.now) }
    {
        for b in s {
            self.put_pair(*b);
        }
    }
}
