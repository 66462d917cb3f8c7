// A book without flow.
ghost use Rattle.std.specs.Prelude.{◌≡◌};
ghost use Rattle.scheme.specs.Scheme.{emptied};

use crate::registers::Book;

// Writes flow 0 into every reach, whatever the book is.
pub fn clear_flows<B: Book>(book: &mut B)
    ensures after { B.scheme book.new ≡ emptied (B.scheme book.old) }
    ensures kept { B.kept book.new ≡ B.kept book.old }
{
    let count = book.reaches();
    // over the numbers of the reaches, since a book is written by number
    for reach in 0..count {
        // every reach below `count` is in the list, so no write is refused
        let _ = book.set_flow(reach, 0);
    }
}
