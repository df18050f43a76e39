ghost use Rattle.std.specs.Prelude.{◌≡◌};
ghost use Rattle.frame.specs.Frames.{frame_kind, frame_body, frame_origin, frame_number, frame_content, saying, says};

use crate::kinds::Kind;

/// Whose item a frame is of, which of that desk's items it is, and the content, a part of the bytes received: a barrier for
/// each desk, and the item.
#[derive(Clone, Copy, PartialEq, Eq, Debug)]
pub struct Body<'a> {
    pub origin: u8,
    pub number: u8,
    pub content: &'a [u8],
}

/// A frame, by its kind: a case for each, beside `Kind`, so that a match on a frame has its body at hand.
#[derive(Clone, Copy, PartialEq, Eq, Debug)]
pub enum Frame<'a> {
    Init(Body<'a>),
    Echo(Body<'a>),
    Ready(Body<'a>),
    Witness(Body<'a>),
}

impl<'a> Frame<'a> {
    /// The frame of that kind.
    pub fn new(kind: Kind, body: Body<'a>) -> Frame<'a>
        ensures { saying result ≡ says kind body.entry }
    {
        match kind {
            Kind::Init => Frame::Init(body),
            Kind::Echo => Frame::Echo(body),
            Kind::Ready => Frame::Ready(body),
            Kind::Witness => Frame::Witness(body),
        }
    }

    pub fn kind(self) -> Kind
        ensures { result ≡ frame_kind self.entry }
    {
        match self {
            Frame::Init(_) => Kind::Init,
            Frame::Echo(_) => Kind::Echo,
            Frame::Ready(_) => Kind::Ready,
            Frame::Witness(_) => Kind::Witness,
        }
    }

    pub fn origin(self) -> u8
        ensures { result ≡ frame_origin self.entry }
    {
        self.body().origin
    }

    pub fn number(self) -> u8
        ensures { result ≡ frame_number self.entry }
    {
        self.body().number
    }

    pub fn content(self) -> &'a [u8]
        ensures { result.now ≡ frame_content self.entry }
    {
        self.body().content
    }

    // What every kind has.
    fn body(self) -> Body<'a>
        ensures { result ≡ frame_body self.entry }
    {
        match self {
            Frame::Init(body) | Frame::Echo(body) | Frame::Ready(body) | Frame::Witness(body) =>
                body,
        }
    }
}
