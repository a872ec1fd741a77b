ghost use Rattle.std.specs.Prelude.{◌≡◌};
ghost use Rattle.rules.specs.Places.{moved};

use rules::{Event, Standing};

// Moves a block on: its first record opens it, its last closes it, an erase leaves it blank, and mount leaves it blank
// or closed.
pub fn move_on(standing: &mut Standing, event: Event)
    ensures { standing.new ≡ moved event standing.old }
{
    match (*standing, event) {
        (_, Event::Mounted { blank }) => {
            *standing = if blank {
                Standing::Blank
            } else {
                Standing::Closed
            };
        }
        (_, Event::Erased) => *standing = Standing::Blank,
        (Standing::Blank, Event::Opened) => *standing = Standing::Open,
        (Standing::Open, Event::Filled) => *standing = Standing::Closed,
        _ => {}
    }
}
