// The controller's state, which every method takes by value and hands back.
use commands::command::Handed;
use pool::Pool;
use slots::Slots;

#[derive(Clone, Copy)]
pub struct Controller {
    // The addresses that the caller gave as occupied. With the listed ones they are in use when a pass begins; with the reserved ones they
    // are barred.
    pub occupied: Pool,
    // The addresses in use now.
    pub pool: Pool,
    // What each address is known for.
    pub slots: Slots,
    // How many Get UDIDs this pass has sent.
    pub gets: u32,
    // What was handed out last.
    pub last: Handed,
    // The address picked last, in this pass or an earlier one. Before the first pick it is what the controller was made with, up to 127.
    pub picked: u8,
}

// The state after a step, and what it hands out.
#[derive(Clone, Copy)]
pub struct Stepped {
    pub state: Controller,
    pub command: Handed,
}
