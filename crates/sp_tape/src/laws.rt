//! What the grammar of tapes says. Each law is proved; the functions do nothing.
ghost use Rattle.std.specs.Prelude.{◌≡◌, All, List};
ghost use Rattle.sp_tape.specs.Complete.{text_of};
ghost use Rattle.sp_tape.specs.Entry.{IsEntry};

use crate::entry::Entry;

/// Bytes are the entries of a tape in one way only. So a run over a tape of whole entries that is
/// done has answered just these.
pub fn a_tape_is_entries_in_one_way()
    ensures { (es fs : List Entry) → All IsEntry es → All IsEntry fs → text_of es ≡ text_of fs → es ≡ fs }
{}
