// What the console keeps between requests, beside the target records, which lie in a lent buffer.
use arp::start::NEVER_PICKED;
use arp::state::Controller;
use module::state::Module;
use pool::Pool;

#[derive(Clone, Copy)]
pub(crate) struct Shelf {
    // The occupied addresses, for the next start and the next run.
    pub occupied: Pool,
    // How many target records there are.
    pub count: usize,
    // The controller that start and step drive.
    pub controller: Controller,
    // The module that m speaks to, where there is one.
    pub plugged: Option<Module>,
}

impl Shelf {
    // No targets, nothing occupied, the controller as new, no module.
    pub(crate) fn new() -> Shelf {
        let occupied = Pool::empty();
        Shelf {
            occupied,
            count: 0,
            controller: Controller::new(occupied, NEVER_PICKED),
            plugged: None,
        }
    }
}
