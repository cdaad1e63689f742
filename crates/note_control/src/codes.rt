// What stands in the tables of a channel, as a message states it.
ghost use Rattle.std.specs.Prelude.{◌≡◌};
ghost use Rattle.note_control.specs.Codes.{code_window};

use crate::{ABSENT_WINDOW, EMPTY_WINDOW};
use meaning::message::Window;
use quantity::count::FlowWindow;

// A Flow Window by its tag and its word.
pub fn window(tag: u8, word: u32) -> Option<Window>
    ensures { result ≡ code_window tag word }
{
    if tag == ABSENT_WINDOW {
        return None;
    }
    if tag == EMPTY_WINDOW {
        return Some(Window::Empty);
    }
    Some(Window::Given(FlowWindow(word)))
}
