// Which target lists are refused, in the order of the refusals, each looked for over the whole list. Rests on malformed, same and taken.
// When each is given is in specs/RefusalLaws; specs/Numbers has the number and value of each.
ghost use Rattle.std.specs.Prelude.{◌≡◌, ◌/◌, length};
ghost use Rattle.pool.specs.Start.{barred_pool};
ghost use Rattle.targets.specs.Records.{record_size};
ghost use Rattle.targets.specs.Numbers.{error_number, error_place};
ghost use Rattle.targets.specs.Refusals.{is_bad_length, among_records, checked_list};

use super::fields;
use super::fields::{MOST_TARGETS, RECORD};
use super::malformed::first_malformed;
use super::same::first_repeated;
use super::taken::first_taken;
use pool::Pool;

// Why a list is refused, with the first record that is so.
#[derive(Clone, Copy, PartialEq, Eq)]
pub enum ListError {
    // no multiple of 18 bytes, or over 2,160
    BadLength,
    // byte 16 even, or byte 17 above 1
    Malformed(usize),
    // the identifier of an earlier record
    Repeated(usize),
    // fixed, at a barred address or that of an earlier fixed record
    Taken(usize),
}

impl ListError {
    // The scope's number of the refusal.
    pub fn number(self) -> u32
        ensures { result ≡ error_number self }
    {
        match self {
            ListError::BadLength => 9,
            ListError::Malformed(_) => 10,
            ListError::Repeated(_) => 11,
            ListError::Taken(_) => 12,
        }
    }

    // The record that is refused; 0 where the length is.
    pub fn place(self) -> usize
        ensures { result ≡ error_place self }
    {
        match self {
            ListError::BadLength => 0,
            ListError::Malformed(i) | ListError::Repeated(i) | ListError::Taken(i) => i,
        }
    }
}

fn is_bad_length(n: usize) -> bool
    ensures { result ≡ is_bad_length n }
{
    n > MOST_TARGETS * RECORD || n % RECORD != 0
}

fn among_records(records: &[u8], barred: Pool) -> Result<(), ListError>
    ensures { result ≡ among_records barred records.now (length records.now / record_size) }
{
    let n = fields::count(records);
    if let Some(i) = first_malformed(records, n) {
        return Err(ListError::Malformed(i));
    }
    if let Some(i) = first_repeated(records, n) {
        return Err(ListError::Repeated(i));
    }
    if let Some(i) = first_taken(records, n, barred) {
        return Err(ListError::Taken(i));
    }
    Ok(())
}

// The check of a target list, where these addresses are occupied. They and the reserved ones are barred.
pub fn check(records: &[u8], occupied: Pool) -> Result<(), ListError>
    ensures { result ≡ checked_list (barred_pool occupied) records.now }
{
    if is_bad_length(records.len()) {
        return Err(ListError::BadLength);
    }
    let barred = Pool::barred(occupied);
    among_records(records, barred)
}
