// What a trace was taken for. It goes by what the trace told the controller; the decoder's answer says why.
ghost use Rattle.std.specs.Prelude.{◌≡◌, ◌++◌};
ghost use Rattle.writing.specs.Pages.{with_text};
ghost use Rattle.step_words.specs.Taken.{because, left_text, asked_text, prepare_text, unheard_text, get_text, assign_text};

use codec_answers::refusal::put_refusal;
use hearing::told::Told;
use pieces::piece::put_number;
use scan::answer::Decoded;
use writing::page::Page;

// Why a trace is not what was due, after a label: the decoder's refusal, or that it is another transaction.
fn put_because(page: &mut Page, label: &[u8], d: Decoded)
    ensures { page.new ≡ with_text page.old (label.now ++ because d) }
{
    page.put(label);
    match d {
        Ok(_) => page.put(b"another transaction"),
        Err(e) => put_refusal(page, e),
    }
}

// Nobody is left: the byte that was not acknowledged, or the count of a reply that is none.
fn put_left(page: &mut Page, d: Decoded)
    ensures { page.new ≡ with_text page.old (left_text d) }
{
    match d {
        Ok(t) => put_number(page, b"nobody is left: a count of ", t.received as u64),
        Err(e) => {
            page.put(b"nobody is left: ");
            put_refusal(page, e);
        }
    }
}

// Get UDID is sent again, which the step's number 0 says.
fn put_asked(page: &mut Page, n: u64)
    ensures { page.new ≡ with_text page.old (asked_text n) }
{
    if n == 0 {
        page.put(b"; asked again");
    }
}

// Prepare To ARP was outstanding.
pub(crate) fn put_prepare(page: &mut Page, told: Told, d: Decoded)
    ensures { page.new ≡ with_text page.old (prepare_text told d) }
{
    match told {
        Told::Again => page.put(b"acknowledged"),
        Told::Over => put_because(page, b"nobody is there: ", d),
        Told::GivenUp => put_because(page, b"no proper Prepare To ARP: ", d),
        _ => {}
    }
}

// The command was not answered as it has to be, and Get UDID is due.
fn put_unheard(page: &mut Page, label: &[u8], n: u64, d: Decoded)
    ensures { page.new ≡ with_text page.old (unheard_text label.now n d) }
{
    put_because(page, label, d);
    put_asked(page, n);
}

// Get UDID was outstanding.
pub(crate) fn put_get(page: &mut Page, n: u64, told: Told, d: Decoded)
    ensures { page.new ≡ with_text page.old (get_text n told d) }
{
    match told {
        Told::Again => put_unheard(page, b"no proper reply: ", n, d),
        Told::Over => put_left(page, d),
        Told::Reply(_, _) => page.put(b"a reply"),
        _ => {}
    }
}

// Assign Address was outstanding.
pub(crate) fn put_assign(page: &mut Page, n: u64, told: Told, d: Decoded)
    ensures { page.new ≡ with_text page.old (assign_text n told d) }
{
    match told {
        Told::Again => put_unheard(page, b"not taken: ", n, d),
        Told::Took(_, _) => page.put(b"taken"),
        _ => {}
    }
}
