//! A carrier over a broadcast protocol: theory alone.
#![tactic(auto)]

ghost use Rattle.std.specs.Prelude.{◌≡◌};
ghost use Rattle.carrier.specs.Declines.{most_sent};
ghost use Rattle.exchange.specs.Broadcast.{Broadcast};

/// The frames that a carrier keeps free for a desk that receives.
pub fn most_sent() -> u8
    ensures { result ≡ most_sent }
{
    2
}
