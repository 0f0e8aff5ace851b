//! Modes, kinds of frames and turns (PostgreSQL documentation, "Message Flow").

ghost use Rattle.std.specs.Prelude.{◌≡◌};
ghost use Rattle.pg_machine.specs.Serving.{kind_by_tag, turn};

/// Where a server stands between two frames.
#[derive(Clone, Copy, Debug, PartialEq, Eq, Drop)]
pub enum Mode {
    /// Frames are answered.
    Normal,
    /// Behind an error frames are discarded, up to Sync ("Extended Query").
    Skip,
    /// A copy takes data ("COPY Operations").
    CopyIn,
}

/// The frames that the rules tell apart.
#[derive(Clone, Copy, Debug, PartialEq, Eq, Drop)]
pub enum Kind {
    Query,
    Sync,
    Flush,
    CopyData,
    CopyDone,
    CopyFail,
    Terminate,
    /// Parse, Bind, Describe, Execute, Close, and any tag that is none of a frame.
    Other,
}

/// What is done with a frame.
#[derive(Clone, Copy, Debug, PartialEq, Eq, Drop)]
pub enum Turn {
    /// Nothing.
    Silent,
    /// ReadyForQuery, and frames are answered again.
    Ready,
    /// The server's answer and ReadyForQuery.
    AnswersReady,
    /// The server's answer; it may open a copy.
    Answers,
    /// The server's answer, if it has one; the copy goes on.
    TakesData,
    /// The server's answer; the copy is over.
    EndsCopy,
    /// The refusal; frames are discarded up to Sync.
    Refuses,
}

/// The kind of a frame of this tag.
pub fn kind_of(tag: u8) -> Kind
    ensures { result ≡ kind_by_tag tag }
{
    match tag {
        b'Q' => Kind::Query,
        b'S' => Kind::Sync,
        b'H' => Kind::Flush,
        b'd' => Kind::CopyData,
        b'c' => Kind::CopyDone,
        b'f' => Kind::CopyFail,
        b'X' => Kind::Terminate,
        _ => Kind::Other,
    }
}

/// What is done with a frame of this kind in this mode.
pub fn turn_of(mode: Mode, kind: Kind) -> Turn
    ensures { result ≡ turn mode kind }
{
    match (mode, kind) {
        (Mode::Normal, Kind::Query) => Turn::AnswersReady,
        (Mode::Normal, Kind::Sync) => Turn::Ready,
        (Mode::Normal, Kind::Other) => Turn::Answers,
        (Mode::Normal, _) => Turn::Silent,
        (Mode::Skip, Kind::Sync) => Turn::Ready,
        (Mode::Skip, _) => Turn::Silent,
        (Mode::CopyIn, Kind::CopyData) => Turn::TakesData,
        (Mode::CopyIn, Kind::CopyDone) => Turn::EndsCopy,
        (Mode::CopyIn, Kind::Query | Kind::CopyFail | Kind::Other) => Turn::Refuses,
        (Mode::CopyIn, _) => Turn::Silent,
    }
}
