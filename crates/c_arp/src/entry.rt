// The entries of a list for a pass. All of an entry is pairs of bytes, low byte first, and its first pair says what it is (`Head`):
//
//   up to FFFBh    a trace: the pair is the number of its symbols, which follow
//   FFFCh          a decline, and FFFDh an issue, of the choice that waits
//   FFFEh          a trace for the first half of a step: the number of its symbols and the symbols follow
//   FFFFh          a report that a module is gone: an address follows
//
// So a trace has 65,531 symbols at most. After FFFEh a greater number begins no entry.
ghost use Rattle.std.specs.Prelude.{false, ◌≡◌, ◌*◌, ◌≤◌, ◌<◌, length, take, drop, MatchOption};
ghost use Rattle.c_arp.specs.Pass.{said, head_of, is_whole, event_of, Begins};

// What an entry is, by its first pair.
#[derive(Clone, Copy)]
pub enum Head {
    // A trace for a step.
    Count,
    // A report that a module is gone.
    Gone,
    // A trace for the first half of a step.
    Choose,
    // The choice that waits is issued.
    Issue,
    // The choice that waits is declined.
    Decline,
}

// What an entry is that begins with this pair.
impl From<u16> for Head {
    ghost from_gives = { λ n h. h ≡ head_of n };

    fn from(first: u16) -> Head {
        match first {
            0xffff => Head::Gone,
            0xfffe => Head::Choose,
            0xfffd => Head::Issue,
            0xfffc => Head::Decline,
            _ => Head::Count,
        }
    }
}

// An entry, with the bytes of its trace or the address that it names.
#[derive(Clone, Copy)]
pub(crate) enum Entry<'a> {
    Step(&'a [u8]),
    Choose(&'a [u8]),
    Gone(u16),
    Issue,
    Decline,
}

// The number that the first pair says, and what follows it.
fn pair(bytes: &[u8]) -> Option<(u16, &[u8])>
    ensures { MatchOption result (length bytes.now < 2) (λ p. (2 ≤ length bytes.now) × (p.0 ≡ said bytes.now) × (p.1.now ≡ drop 2 bytes.now)) }
{
    let (pair, rest) = bytes.split_at_checked(2)?;
    Some((u16::from_le_bytes([pair[0], pair[1]]), rest))
}

// The bytes of so many symbols, and what follows them.
fn trace(bytes: &[u8], count: u16) -> Option<(&[u8], &[u8])>
    ensures { MatchOption result (length bytes.now < 2 * count) (λ p. (2 * count ≤ length bytes.now) × (p.0.now ≡ take (2 * count) bytes.now) × (p.1.now ≡ drop (2 * count) bytes.now)) }
{
    bytes.split_at_checked(2 * usize::from(count))
}

// The entry that the bytes begin with, and what follows it; none where no whole entry is left.
pub(crate) fn next_entry(bytes: &[u8]) -> Option<(Entry<'_>, &[u8])>
    ensures { MatchOption result (is_whole bytes.now ≡ false) (λ p. Begins bytes.now (event_of p.0) p.1.now) }
{
    let (first, rest) = pair(bytes)?;
    match Head::from(first) {
        Head::Count => {
            let (symbols, rest) = trace(rest, first)?;
            Some((Entry::Step(symbols), rest))
        }
        Head::Gone => {
            let (address, rest) = pair(rest)?;
            Some((Entry::Gone(address), rest))
        }
        Head::Choose => {
            let (count, rest) = pair(rest)?;
            if count > 65531 {
                return None;
            }
            let (symbols, rest) = trace(rest, count)?;
            Some((Entry::Choose(symbols), rest))
        }
        Head::Issue => Some((Entry::Issue, rest)),
        Head::Decline => Some((Entry::Decline, rest)),
    }
}
