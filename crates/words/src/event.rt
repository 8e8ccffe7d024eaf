// What happens to a module at its own end of the bus: the word after m.
ghost use Rattle.std.specs.Prelude.{◌≡◌};
ghost use Rattle.words.specs.Events.{event_of};

// A signal, bytes received, a byte asked for; or what the module is now.
#[derive(Clone, Copy, PartialEq, Eq)]
pub enum Event {
    Start,
    Byte,
    Supply,
    Lost,
    Stop,
    State,
}

// The event that a word is.
#[tactic(auto, unfolding(crate::specs::Events::event_of))]
pub fn event_of(s: &[u8]) -> Option<Event>
    ensures { result ≡ event_of s.now }
{
    match s {
        b"start" => Some(Event::Start),
        b"byte" => Some(Event::Byte),
        b"supply" => Some(Event::Supply),
        b"lost" => Some(Event::Lost),
        b"stop" => Some(Event::Stop),
        b"state" => Some(Event::State),
        _ => None,
    }
}
