// What a model run answers, beside the records and the binding buffer.
use pool::Pool;
use udid::Udid;

#[derive(Clone, Copy)]
pub struct ModelAnswer {
    // The scope's number.
    pub answer: u32,
    // The record that is refused.
    pub place: usize,
    // The identifier that found no free address.
    pub udid: Udid,
    // The bound addresses, and how many they are.
    pub bound: Pool,
    pub count: u32,
    // How many Get UDIDs were sent.
    pub gets: u32,
    // The address picked last, here or before; 127 if none ever was, and 0 in a refusal.
    pub picked: u8,
}
