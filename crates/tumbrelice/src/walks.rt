// A cursor's numbers, its front and its back, as they go in and come out. One that is refused, or only peeks, is not stored.
// A refusal is told by its number, as in lib.rt.
ghost use Rattle.std.specs.Prelude.{◌≡◌};
ghost use Rattle.cursors.specs.Seen.{none};
ghost use Rattle.tumbrelice.specs.Heard.{cursor_in, cursor_out, unless_refused};

use cursors::Cursor;

pub(crate) fn cursor_in(cursor: &[usize; 2]) -> Cursor
    ensures { result ≡ cursor_in cursor.now }
{
    Cursor {
        front: cursor[0],
        back: cursor[1],
    }
}

// The cursor that a refused beginning leaves.
pub(crate) fn none() -> Cursor
    ensures { result ≡ none }
{
    Cursor { front: 0, back: 0 }
}

pub(crate) fn cursor_made(u: Cursor) -> [usize; 2]
    ensures { result ≡ cursor_out u }
{
    [u.front, u.back]
}

pub(crate) fn cursor_out(cursor: &mut [usize; 2], number: u8, u: Cursor)
    ensures { cursor.new ≡ unless_refused number (cursor_out u) cursor.old }
{
    if number != 0 {
        return;
    }
    *cursor = cursor_made(u);
}
