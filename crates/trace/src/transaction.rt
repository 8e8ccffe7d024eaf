// A transaction as numbers.
use wire::address::Address;

// sent and received are the lengths of its data, which lie in slices beside it.
#[derive(Clone, Copy, PartialEq, Eq)]
pub struct Transaction {
    pub protocol: u8,
    pub address: Address,
    pub direction: u8,
    pub command: u8,
    pub sent: usize,
    pub received: usize,
}
