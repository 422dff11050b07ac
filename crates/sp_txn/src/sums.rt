// Sums over the notes of a sheet.
ghost use Rattle.std.specs.Prelude.{◌≡◌, ◌<◌, ◌^◌};
ghost use Rattle.sp_txn.specs.Notes.{all_added, all_taken, added_in, taken_in};

use crate::note::Note;
use sp_base::number::EndpointNo;

pub fn added_in(notes: &[Note], endpoint: EndpointNo) -> u64
    requires { added_in notes.now endpoint < 2 ^ 64 }
    ensures { result ≡ added_in notes.now endpoint }
{
    notes.iter().map(|note| note.added_to(endpoint)).sum()
}

pub fn taken_in(notes: &[Note], endpoint: EndpointNo) -> u64
    requires { taken_in notes.now endpoint < 2 ^ 64 }
    ensures { result ≡ taken_in notes.now endpoint }
{
    notes.iter().map(|note| note.taken_from(endpoint)).sum()
}

pub fn all_added(notes: &[Note]) -> u64
    requires { all_added notes.now < 2 ^ 64 }
    ensures { result ≡ all_added notes.now }
{
    notes.iter().map(|note| note.added()).sum()
}

pub fn all_taken(notes: &[Note]) -> u64
    requires { all_taken notes.now < 2 ^ 64 }
    ensures { result ≡ all_taken notes.now }
{
    notes.iter().map(|note| note.taken()).sum()
}
