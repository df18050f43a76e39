//! What quorums of votes show of a reliable broadcast: theory alone, for any contents.
#![tactic(auto)]

ghost use Rattle.std.specs.Prelude.{◌≡◌};
ghost use Rattle.quorum.specs.DoubleEcho.{double_echo, Desk, Kind};
ghost use Rattle.quorum.specs.Network.{LawfulEverywhere, BoundedEverywhere};
ghost use Rattle.quorum.specs.Runs.{RunsReach, Sample};

/// The factor of the double echo: where the desks outnumber it times the faults, its laws hold under every identity, in
/// every state that it can reach, and the wire of all identities is bounded. Every run of moves reaches such a state; in a
/// sample with a faulty desk all correct desks accept what was offered.
pub fn double_echo_factor<C>() -> u8
    ensures value { result ≡ 3 }
    ensures lawful { LawfulEverywhere (double_echo {C = C}) 3 }
    ensures bounded { BoundedEverywhere (double_echo {C = C}) 3 }
    ensures reaches { RunsReach (Desk C) Kind C }
    ensures sample { Sample }
{
    3
}
