// Pieces of answer lines: a label, and a number or an identifier after it.
ghost use Rattle.std.specs.Prelude.{◌≡◌, ◌++◌};
ghost use Rattle.writing.specs.Pages.{with_text};
ghost use Rattle.writing.specs.Written.{decimal_of, pair_of};
ghost use Rattle.pieces.specs.Pieces.{newline, udid_text};

use udid::Udid;
use writing::page::Page;

// A decimal number after a label.
pub fn put_number(page: &mut Page, label: &[u8], n: u64)
    ensures { page.new ≡ with_text page.old (label.now ++ decimal_of n) }
{
    page.put(label);
    page.put_decimal(n);
}

// The two digits of a byte after a label.
pub fn put_hex(page: &mut Page, label: &[u8], b: u8)
    ensures { page.new ≡ with_text page.old (label.now ++ pair_of b) }
{
    page.put(label);
    page.put_pair(b);
}

// The 32 digits of an identifier after a label, highest byte first.
pub fn put_udid(page: &mut Page, label: &[u8], u: Udid)
    ensures { page.new ≡ with_text page.old (label.now ++ udid_text u) }
{
    let mut bytes = [0u8; 16];
    u.put_bytes(&mut bytes, 0);
    page.put(label);
    page.put_pairs(&bytes);
}

// A line of its own.
pub fn put_line(page: &mut Page, s: &[u8])
    ensures { page.new ≡ with_text page.old (s.now ++ newline) }
{
    page.put(s);
    page.put(b"\n");
}

// A line that ends in a number.
pub fn number_line(page: &mut Page, label: &[u8], n: u64)
    ensures { page.new ≡ with_text page.old ((label.now ++ decimal_of n) ++ newline) }
{
    put_number(page, label, n);
    page.put(b"\n");
}

// A line that ends in a byte.
pub fn hex_line(page: &mut Page, label: &[u8], b: u8)
    ensures { page.new ≡ with_text page.old ((label.now ++ pair_of b) ++ newline) }
{
    put_hex(page, label, b);
    page.put(b"\n");
}

// A line that ends in an identifier.
pub fn udid_line(page: &mut Page, label: &[u8], u: Udid)
    ensures { page.new ≡ with_text page.old ((label.now ++ udid_text u) ++ newline) }
{
    put_udid(page, label, u);
    page.put(b"\n");
}
