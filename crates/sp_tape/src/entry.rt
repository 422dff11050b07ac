ghost use Rattle.std.specs.Prelude.{◌≡◌, option_map};
ghost use Rattle.sp_tape.specs.Head.{kind_named};

use sp_base::bytes::Bytes;
use sp_base::moment::Moment;
use sp_base::name::Name;

/// What the bytes of an entry are.
#[derive(Clone, Copy, Debug, PartialEq, Eq)]
pub enum Kind {
    /// One request of the line protocol.
    Flow,
    /// HTTP requests, one after another.
    Http,
    /// A delivery to a REST consumer, and what it answered.
    Rdp,
    /// Nothing: the spool is closed and opened again.
    Restart,
}

impl Kind {
    /// The kind of a word. None where the word isn't one.
    pub fn named(word: &[u8]) -> Option<Kind>
        ensures { result ≡ kind_named word.now }
    {
        if word == b"flow".as_slice() {
            return Some(Kind::Flow);
        }
        if word == b"http".as_slice() {
            return Some(Kind::Http);
        }
        if word == b"rdp".as_slice() {
            return Some(Kind::Rdp);
        }
        if word == b"restart".as_slice() {
            return Some(Kind::Restart);
        }
        None
    }
}

/// One entry of a tape: the bytes of a caller at a moment.
#[derive(Debug, Drop)]
pub struct Entry {
    pub caller: Name,
    pub kind: Kind,
    pub moment: Moment,
    pub body: Bytes,
}
