// The verbs: the first word of a request.
ghost use Rattle.std.specs.Prelude.{◌≡◌};
ghost use Rattle.words.specs.Verbs.{verb_of, codec_verb, shelf_verb, pass_verb, module_verb, choice_verb};

#[derive(Clone, Copy, PartialEq, Eq)]
pub enum Verb {
    Pec,
    Encode,
    Decode,
    Occupied,
    Target,
    Clear,
    Run,
    Start,
    Step,
    Lookup,
    Gone,
    Grid,
    // A module at its own end of the bus, and what happens to it there.
    Module,
    M,
    // An address is chosen apart from sending it; the choice is issued, or declined.
    Choose,
    Issue,
    Decline,
}

// The verbs of a choice.
#[tactic(auto, unfolding(crate::specs::Verbs::choice_verb))]
fn choice_verb(s: &[u8]) -> Option<Verb>
    ensures { result ≡ choice_verb s.now }
{
    match s {
        b"choose" => Some(Verb::Choose),
        b"issue" => Some(Verb::Issue),
        b"decline" => Some(Verb::Decline),
        _ => None,
    }
}

// The verbs of the module's own end.
#[tactic(auto, unfolding(crate::specs::Verbs::module_verb))]
fn module_verb(s: &[u8]) -> Option<Verb>
    ensures { result ≡ module_verb s.now }
{
    match s {
        b"module" => Some(Verb::Module),
        b"m" => Some(Verb::M),
        _ => None,
    }
}

// The verbs of a pass.
#[tactic(auto, unfolding(crate::specs::Verbs::pass_verb))]
fn pass_verb(s: &[u8]) -> Option<Verb>
    ensures { result ≡ pass_verb s.now }
{
    match s {
        b"start" => Some(Verb::Start),
        b"step" => Some(Verb::Step),
        b"lookup" => Some(Verb::Lookup),
        b"gone" => Some(Verb::Gone),
        b"grid" => Some(Verb::Grid),
        _ => None,
    }
}

// The verbs of the shelf.
#[tactic(auto, unfolding(crate::specs::Verbs::shelf_verb))]
fn shelf_verb(s: &[u8]) -> Option<Verb>
    ensures { result ≡ shelf_verb s.now }
{
    match s {
        b"occupied" => Some(Verb::Occupied),
        b"target" => Some(Verb::Target),
        b"clear" => Some(Verb::Clear),
        b"run" => Some(Verb::Run),
        _ => None,
    }
}

// The verbs of the codec.
#[tactic(auto, unfolding(crate::specs::Verbs::codec_verb))]
fn codec_verb(s: &[u8]) -> Option<Verb>
    ensures { result ≡ codec_verb s.now }
{
    match s {
        b"pec" => Some(Verb::Pec),
        b"encode" => Some(Verb::Encode),
        b"decode" => Some(Verb::Decode),
        _ => None,
    }
}

// The verb that a word is.
#[tactic(auto, unfolding(crate::specs::Verbs::verb_of))]
pub fn verb_of(s: &[u8]) -> Option<Verb>
    ensures { result ≡ verb_of s.now }
{
    codec_verb(s)
        .or(shelf_verb(s))
        .or(pass_verb(s))
        .or(module_verb(s))
        .or(choice_verb(s))
}
