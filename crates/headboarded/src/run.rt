// The model run over the target records and the occupied addresses, with the last pick that it begins with. The records are changed as
// the run leaves them; the controller that start and step drive is not, nor is its last pick.
use crate::shelf::Shelf;
use answers::run::put_run;
use bus::run::run_model;
use codec_answers::unclear::put_unclear;
use pool::Pool;
use requests::expected::Expected;
use writing::page::Page;

// The run over records, which changes them.
fn run_records(page: &mut Page, occupied: Pool, last: u8, records: &mut [u8]) {
    let mut bindings = [0u8; 2048];
    let a = run_model(occupied, last, records, &mut bindings);
    put_run(page, a, &bindings, records);
}

// The run over the records that there are.
pub(crate) fn run(page: &mut Page, shelf: &Shelf, last: u8, records: &mut [u8]) {
    let n = shelf.count;
    if n > records.len() / 18 {
        return put_unclear(page, Expected::Targets, 0);
    }
    let end = 18 * n;
    run_records(page, shelf.occupied, last, &mut records[..end]);
}
