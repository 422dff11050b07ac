// An object that tells a list: what a pass has seen of a book's lines is the front of them at the end.
ghost use Rattle.std.specs.Prelude.{◌≡◌, ◌+◌, ℕ, List, [], ◌∷◌, ◌++◌, length, Some, IfSome};
ghost use Rattle.sp_hall.specs.Passes.{all_parts};
ghost use Rattle.sp_hall.specs.States.{Begins};

use crate::hall::Hall;
use crate::object::Object;
use crate::pass::Pass;
use std::alloc::{AllocError, Global};
use std::sync::Wait;
use std::test::Fail;

/// Which volume of a work a book is.
#[derive(Debug, Clone, Copy, PartialEq)]
struct Volume {
    number: u8,
}

/// A volume's lines, as numbers. The lines of the volumes before it are counted alone.
#[derive(Drop)]
struct Book {
    volume: Volume,
    before: u32,
    lines: Vec<u64>,
    /// How many lines found no room.
    missed: u64,
}

impl Object for Book {
    ghost use Rattle.std.specs.Prelude.{◌≡◌, ◌+◌, [], ◌∷◌, ◌++◌, length, Some, IfSome};

    type Ask = u64;

    /// The line's place in the work, counted from 0, or None where it found no room.
    type Reply = Option<u64>;

    type Entry = u64;

    type Start = Volume;

    ghost shows = { λ b. record { count = b.before + length b.lines.items; faults = b.missed; list = Some b.lines.items; first = b.before; start = Some b.volume } };

    ghost acts = { λ before line after reply. IfSome reply (λ place. (after.lines.items ≡ before.lines.items ++ line ∷ []) × (place ≡ before.before + length before.lines.items)) };

    fn act(&mut self, line: u64) -> Option<u64> {
        let place = self.count();
        match self.lines.push(line) {
            Ok(()) => Some(place),
            Err(_) => {
                self.missed = self.missed.saturating_add(1);
                None
            }
        }
    }

    fn count(&self) -> u64 {
        self.before as u64 + self.lines.len() as u64
    }
}

/// Writes a line. Where it found room, what the pass has seen ends with it, at the place that is told.
fn write<R: Wait>(rt: &R, hall: &Hall<Book>, pass: &mut Pass<Book>, line: u64) -> Option<u64>
    requires { pass.old.hall ≡ hall.now }
    ensures hall { pass.new.hall ≡ pass.old.hall }
    ensures parts { pass.new.parts ≡ pass.old.parts }
    ensures front { IfSome result (λ place. (front : List ℕ) × (pass.new.seen.list ≡ Some (front ++ line ∷ [])) × (place ≡ hall.now.opened.first + length front)) }
{
    hall.call(rt, pass, line)
}

/// The book, which begins with what the last pass has seen, and is still the same volume.
fn closed(alloc: Global, hall: Hall<Book>, pass: Pass<Book>) -> Option<Book>
    requires hall { pass.hall ≡ hall }
    requires all { pass.parts ≡ all_parts }
    ensures front { IfSome result (λ book. Begins (Some book.lines.items) pass.seen.list) }
    ensures first { IfSome result (λ book. book.before ≡ hall.opened.first) }
    ensures start { IfSome result (λ book. Some book.volume ≡ hall.opened.start) }
{
    let mut passes = Vec::new(alloc);
    let Ok(()) = passes.push(pass) else {
        return None;
    };
    let Ok(book) = hall.close(passes) else {
        return None;
    };
    Some(book)
}

#[test]
fn lines_stand_at_the_places_that_were_told(rt: HostRuntime) -> Result<(), Fail> {
    let book = Book {
        volume: Volume { number: 2 },
        before: 100,
        lines: vec![in rt.alloc(); 5, 6]?,
        missed: 0,
    };
    let Ok((hall, mut pass)) = Hall::new(rt.alloc(), book) else {
        panic!(rt; "no memory");
    };
    assert_eq!(rt; (pass.seen(), pass.made()), (102, 0));
    assert_eq!(rt; write(&rt, &hall, &mut pass, 7), Some(102));
    let Ok(mut other) = hall.split(&mut pass) else {
        panic!(rt; "no memory");
    };
    assert_eq!(rt; write(&rt, &hall, &mut other, 8), Some(103));
    assert_eq!(rt; (pass.seen(), other.seen()), (103, 104));
    hall.meet(&mut pass, other);
    assert_eq!(rt; (pass.seen(), pass.made()), (104, 2));
    let Some(book) = closed(rt.alloc(), hall, pass) else {
        panic!(rt; "no memory");
    };
    assert_eq!(rt; book.volume, Volume { number: 2 });
    assert_eq!(rt; (book.before, book.missed), (100, 0));
    assert_eq!(rt; book.lines.as_slice(), [5, 6, 7, 8].as_slice());
    Ok(())
}
