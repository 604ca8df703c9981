//! Whom a resume asks to wake.
ghost use Rattle.std.specs.Prelude.{◌≡◌, ◌+◌, ◌≤◌, ◌==◌, ◌++◌, false, length};
ghost use Rattle.co_state.specs.Wants.{nothing_asked};
ghost use Rattle.img_streams.specs.Deeds.{listed, wants_wakes};

use co_state::{CoId, Cx};

fn wake(cx: &mut Cx, co: Option<CoId>)
    requires { cx.old.made ≤ 3 }
    ensures { cx.new ≡ record cx.old { wakes = cx.old.wakes ++ listed co; made = cx.old.made + length (listed co) } }
{
    if let Some(co) = co {
        cx.wake(co);
    }
}

/// Asks to wake those whom the lock named, whom the image named, and the coroutine itself, as far as there are such.
pub(crate) fn ask(cx: &mut Cx, named: Option<CoId>, woken: Option<CoId>, itself: Option<CoId>)
    requires { cx.old ≡ nothing_asked }
    ensures { cx.new ≡ wants_wakes (listed named ++ listed woken ++ listed itself) false }
{
    wake(cx, named);
    wake(cx, woken);
    wake(cx, itself);
}

/// Asks to wake whom the lock named, and that the home quits where no stream is left that hasn't retired.
pub(crate) fn ask_last(cx: &mut Cx, named: Option<CoId>, going: u32)
    requires { cx.old ≡ nothing_asked }
    ensures { cx.new ≡ wants_wakes (listed named) (going == 0) }
{
    wake(cx, named);
    if going == 0 {
        cx.quit();
    }
}
