ghost use Rattle.std.specs.Prelude.{◌≡◌};
ghost use Rattle.std.specs.Result.{result_ok};
ghost use Rattle.reader.specs.Kinds.{kind_of, allows};

use book::Opening;
use desks::GroupParameters;

/// How far a script has come.
#[derive(Clone, Copy, Debug, PartialEq, Eq)]
pub enum Stage {
    Unformed,
    Set,
    Open,
    Closed,
}

/// What a form command asks for: a group, and the number of a book.
/// The number stays a byte: a command and its bytes determine each other, and the floor is what refuses a number of no book.
#[derive(Clone, Copy, Debug, PartialEq, Eq)]
pub struct Forming {
    pub parameters: GroupParameters,
    pub book: u8,
}

#[derive(Clone, Copy, Debug, PartialEq, Eq)]
pub enum Command {
    Form(Forming),
    Opening(Opening),
    Open,
    Quiet,
    Close,
}

/// What a command's letter says of it. It is known before the operands are read, and the stage is asked between.
#[derive(Clone, Copy, Debug, PartialEq, Eq)]
pub enum Kind {
    Form,
    Opening,
    Open,
    Quiet,
    Close,
}

/// No command has this letter.
#[derive(Clone, Copy, Debug, PartialEq, Eq)]
pub struct UnknownLetter;

impl TryFrom<u8> for Kind {
    type Error = UnknownLetter;

    ghost try_from_gives = { λ letter r. result_ok r ≡ kind_of letter };

    fn try_from(letter: u8) -> Result<Kind, UnknownLetter> {
        match letter {
            b'F' => Ok(Kind::Form),
            b'O' => Ok(Kind::Opening),
            b'G' => Ok(Kind::Open),
            b'Q' => Ok(Kind::Quiet),
            b'Z' => Ok(Kind::Close),
            _ => Err(UnknownLetter),
        }
    }
}

impl Stage {
    /// Whether a command of that kind may come.
    pub fn allows(self, kind: Kind) -> bool
        ensures { result ≡ allows self kind }
    {
        match kind {
            Kind::Form => self == Stage::Unformed,
            Kind::Opening | Kind::Open => self == Stage::Set,
            Kind::Quiet => self == Stage::Open || self == Stage::Closed,
            Kind::Close => self == Stage::Open,
        }
    }
}
