// The bytes that a module receives, one after another, and whether it acknowledges each.
ghost use Rattle.std.specs.Prelude.{◌≡◌};
ghost use Rattle.writing.specs.Pages.{with_text};
ghost use Rattle.module.specs.Obeys.{heard_all};
ghost use Rattle.module_answers.specs.Hearings.{ack_text, acks_text, heard_text};

use module::state::Module;
use writing::page::Page;

// ack or nack, after a blank.
fn put_ack(page: &mut Page, ack: bool)
    ensures { page.new ≡ with_text page.old (ack_text ack) }
{
    if ack {
        page.put(b" ack");
    } else {
        page.put(b" nack");
    }
}

// A word for each byte. Answers the module after them.
fn put_acks(page: &mut Page, m: Module, s: &[u8]) -> Module
    ensures after { result ≡ heard_all m s.now }
    ensures text { page.new ≡ with_text page.old (acks_text m s.now) }
{
    let mut after = m;
    for b in s {
        let h = after.receive(*b);
        put_ack(page, h.ack);
        after = h.after;
    }
    after
}

// The bytes of a slice, in order. Answers the module after them.
pub fn put_heard(page: &mut Page, m: Module, s: &[u8]) -> Module
    ensures after { result ≡ heard_all m s.now }
    ensures text { page.new ≡ with_text page.old (heard_text m s.now) }
{
    page.put(b"0");
    let after = put_acks(page, m, s);
    page.put(b"\n");
    after
}
