// Where a module stands in a packet, as a number for C: 0 is silent.
ghost use Rattle.std.specs.Prelude.{◌≡◌};
ghost use Rattle.c_module.specs.Phases.{phase_in, phase_number};

use module::state::Phase;

// Kept: From cannot stand here, where neither Phase nor the number is a type of this crate; C names the numbers.

// The phase of a number; every number above 13 is silent.
pub(crate) fn phase_in(n: u8) -> Phase
    ensures { result ≡ phase_in n }
{
    match n {
        1 => Phase::First,
        2 => Phase::Command,
        3 => Phase::Asked,
        4 => Phase::Called,
        5 => Phase::AskedAgain,
        6 => Phase::CalledAgain,
        7 => Phase::Count,
        8 => Phase::Identifier,
        9 => Phase::Given,
        10 => Phase::PreparePec,
        11 => Phase::ResetPec,
        12 => Phase::AssignPec,
        13 => Phase::Reply,
        _ => Phase::Silent,
    }
}

// The number of a phase.
pub(crate) fn phase_number(p: Phase) -> u8
    ensures { result ≡ phase_number p }
{
    match p {
        Phase::Silent => 0,
        Phase::First => 1,
        Phase::Command => 2,
        Phase::Asked => 3,
        Phase::Called => 4,
        Phase::AskedAgain => 5,
        Phase::CalledAgain => 6,
        Phase::Count => 7,
        Phase::Identifier => 8,
        Phase::Given => 9,
        Phase::PreparePec => 10,
        Phase::ResetPec => 11,
        Phase::AssignPec => 12,
        Phase::Reply => 13,
    }
}
