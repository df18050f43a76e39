ghost use Rattle.std.specs.Prelude.{◌≡◌};
ghost use Rattle.std.specs.Option.{ok_or};
ghost use Rattle.frame.specs.declared.faults.FrameFault.TheVariants as fault;
ghost use Rattle.frame.specs.Kinds.{code_of, kind_of, known_to, has_kind};

use crate::faults::FrameFault;

/// What a frame says of its item.
#[derive(Clone, Copy, PartialEq, Eq, Debug)]
pub enum Kind {
    Init,
    Echo,
    Ready,
    Witness,
}

// The byte that a frame of the kind begins with.
impl From<Kind> for u8 {
    ghost from_gives = { λ kind r. r ≡ code_of kind };

    fn from(kind: Kind) -> u8 {
        match kind {
            Kind::Init => 1,
            Kind::Echo => 2,
            Kind::Ready => 3,
            Kind::Witness => 4,
        }
    }
}

// The kind of a code, where it is one.
impl TryFrom<u8> for Kind {
    type Error = FrameFault;

    ghost try_from_gives = { λ code r. r ≡ ok_or (kind_of code) fault.Kind };

    fn try_from(code: u8) -> Result<Kind, FrameFault> {
        match code {
            1 => Ok(Kind::Init),
            2 => Ok(Kind::Echo),
            3 => Ok(Kind::Ready),
            4 => Ok(Kind::Witness),
            _ => Err(FrameFault::Kind),
        }
    }
}

/// The set of kinds that a protocol knows, a flag for each: definitions ask kind by kind, and a factor may be that of no
/// protocol.
#[derive(Clone, Copy, PartialEq, Eq, Debug)]
pub struct Kinds {
    init: bool,
    echo: bool,
    ready: bool,
    witness: bool,
}

impl Kinds {
    const NONE: Kinds = Kinds {
        init: false,
        echo: false,
        ready: false,
        witness: false,
    };

    /// Those of the protocol of a factor: echoes and readies at 3, witnesses at 5.
    pub fn of_factor(factor: u8) -> Kinds
        ensures { result ≡ known_to factor }
    {
        match factor {
            3 => Kinds {
                init: true,
                echo: true,
                ready: true,
                ..Kinds::NONE
            },
            5 => Kinds {
                init: true,
                witness: true,
                ..Kinds::NONE
            },
            _ => Kinds::NONE,
        }
    }

    /// Whether a kind is one of them.
    pub fn has(self, kind: Kind) -> bool
        ensures { result ≡ has_kind self kind }
    {
        match kind {
            Kind::Init => self.init,
            Kind::Echo => self.echo,
            Kind::Ready => self.ready,
            Kind::Witness => self.witness,
        }
    }
}
