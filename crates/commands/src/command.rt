// What the controller hands out: a command to send, or why nothing is to be sent. specs/Numbers.antt gives the scope's number of each end.
use udid::Udid;
use wire::address::Address;

// The code of Prepare To ARP, its one data byte.
pub const PREPARE_TO_ARP: u8 = 0x01;
// The command byte of Get UDID.
pub const GET_UDID: u8 = 0x03;
// The command byte of Assign Address.
pub const ASSIGN_ADDRESS: u8 = 0x04;

// A command on the bus.
#[derive(Clone, Copy)]
pub enum Command {
    // Prepare To ARP.
    Prepare,
    // Get UDID.
    GetUdid,
    // Assign Address: this target gets this address.
    Assign(Udid, Address),
}

// Why an address was chosen for a target.
#[derive(Clone, Copy)]
pub enum Reason {
    // The target is fixed, and the address is its own.
    Fixed,
    // The target is movable, and its own address is free.
    Kept,
    // It is the first free address after the last pick.
    Picked,
    // Another claims it, or nobody may stand there: two claim it once the target has it.
    Claimed,
}

// Why nothing is to be sent.
#[derive(Clone, Copy)]
pub enum End {
    // No pass has begun.
    Nothing,
    // The pass has ended, with no number named.
    Ended,
    // The pass has ended: no address is free for this target.
    NoneFree(Udid),
    // The pass was given up.
    Abandoned,
    // A trace came while no command was outstanding, or there is no choice to issue or to decline.
    NotOutstanding,
    // Not yet: this address is chosen for this target, and waits to be issued or declined.
    Chosen(Udid, Address, Reason),
}

// What is handed out.
// Kept: no Result. An end is no failure: every pass that succeeds comes to one.
#[derive(Clone, Copy)]
pub enum Handed {
    // This command is to be sent.
    Send(Command),
    // Nothing is.
    Wait(End),
}
